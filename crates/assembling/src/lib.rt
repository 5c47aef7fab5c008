// The assembly of a row, as document 01 has it under 'Rows and units': one row for each layer that the row's own layer rests on, found by the index of the table's rows; and the
// edges of a closure.
#![tactic(auto)]

mod assembly;

pub use assembly::{Edges, assemble, edges_of};
