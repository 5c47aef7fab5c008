// A layer set in two buffers of numbers that a caller lends: 64 entries as rows of 80 numbers each, and 192 stored numbers in three columns; include/thoquenry.h has the
// layout. `testing` tells whether buffers hold a set, `taking` takes the set out of its rows, and `laying` lays one in. What is stored is worked out from the rows, and
// only compared with what the caller has.
#![tactic(auto)]

mod laying;
mod taking;
mod testing;

pub use laying::{lay_entries, lay_stored};
pub use taking::set_in;
pub use testing::{rows_hold, stored_holds};
