// One operation point descriptor written from the rows that a caller lends (document 02, W-205): judged and weighed first, then laid into the lent buffer,
// with no array between. specs/Layout.antt has the bytes, specs/Writing.antt the answer and what the buffer then holds, specs/Meaning.antt what that means.
#![tactic(auto)]

mod laying;
mod writer;

pub use writer::write_points;
