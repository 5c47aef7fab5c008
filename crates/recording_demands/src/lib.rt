// The demands over the rows of a recording (document 02, W-202): of the whole import of a loop, a target and packets, what the two readings answer over the table that the
// packets fill (demand 3, specs/Agreement.antt), and what holds of that table (specs/Filled.antt). Laws alone; the crate `demands` shows them by name.
#![tactic(auto)]
