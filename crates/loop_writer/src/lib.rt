// The elementary-stream loop of a program map section, written: every entry with its record, or the refusal (1, 3, 6 to 9, 17, 25) with
// its place.
//
// What is to be written is judged, and its size found, before the first byte is laid into the buffer. `write_loop` does so with entries in an array; what it
// does with one entry, `weigh_next` and `put_entry`, and how it decides, serve whoever has them elsewhere.
#![tactic(auto)]

mod entry;
mod passes;
mod weighing;
mod writer;

pub use entry::{entry_head, put_entry, too_wide, view_of};
pub use weighing::{Weighed, nothing_weighed, outline_for, weigh_next};
pub use writer::{decide, write_loop};
