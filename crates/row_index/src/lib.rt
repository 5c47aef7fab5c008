// An index of a table's rows by layer: the rows of layer 0 in table order, then those of layer 1, and so on, with the place at which each layer's rows start; and the row of a
// layer that has a decoding time, found in it. It says where to look, and nothing of what is right.
#![tactic(auto)]

mod index;
mod search;

pub use index::{lay_order, starts_of};
pub use search::row_at;
