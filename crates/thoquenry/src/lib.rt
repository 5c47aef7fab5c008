// Of the library that others link: loops, closures and times, and its version, for C and for whatever calls C; thoquenry_c exports them. (The functions that join
// rows have a crate of their own.)
// include/thoquenry.h documents each; specs/ has, for each, one definition of its answer and of what its buffers hold afterwards, over the definitions of the crates that
// do the work.
#![tactic(auto)]

mod loops;
mod times;
mod version;

pub use loops::{thq_closure, thq_read_loop, thq_write_loop};
pub use times::{thq_read_times, thq_write_times};
pub use version::thq_version;
