// Rows of components joined to units: the layers of a loop, a target and a table of rows give the answer of the crate `join_answers`, 11 to 18 or the units, and the
// three lists that hold them. In two steps, the closure of the target and the table over it.
#![tactic(auto)]

mod answer;

pub use answer::{join, join_long, join_table};
pub use join_answers::{LONGEST_TABLE, Units};
