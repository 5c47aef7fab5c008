// The standard's syntax tables, as data.
//
// A fixed layout of Rec. ITU-T H.222.0 is one list of fields in the standard's order, with its names and widths. What reading
// answers and what writing produces both take their meaning from that one list (specs/Table.antt), value by value or by the lines'
// names (specs/Named.antt), and the laws that join the two are proved once, for every table (proofs/Laws.antt, NamedLaws.antt;
// Number.antt for bytes as a number). proofs/Equations.antt brings a table at unknown bytes down to arithmetic. No code runs here: the
// crates above read and write bytes, and their promises cite these definitions.
#![tactic(auto)]
