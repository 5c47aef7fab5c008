// A layer set: the layers of a program by their index, each with its PID, its stream type, its record and what it rests on, while layers come and go. It is read
// from a loop, or empty; a layer is added (25, 3, 6 to 9) or removed (11); and the answer to a target (11, 12) is at hand. What a layer rests on is worked out here
// and never taken from a caller.
//
// `set` is the set and how it is worked out from entries, `reading` the set of a loop's bytes, and `changing` the two changes and the answer to a target.
#![tactic(auto)]

mod changing;
mod reading;
mod set;

pub use changing::{Changed, add, closure, remove};
pub use reading::{SetRead, read_set};
pub use set::{LayerSet, Placed, empty, nothing_placed, place, work};
