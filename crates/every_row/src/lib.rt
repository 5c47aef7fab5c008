// What is shown of units headed by unclaimed rows, as document 02 has them under W-204: in every accepted answer each closure row stands in exactly one unit, so
// that the sizes of the units sum to the number of closure rows; no two units compare equal in their order; and where every head is a target row, the units come
// in target row order, each of the closure's size. There is one list of heads in that order, and one of sizes, of row numbers and of lags. Laws alone:
// specs/Statements.antt has what is shown, of the relations in Meaning of the crates `claims`, `heads` and `unit_lists`.
#![tactic(auto)]
