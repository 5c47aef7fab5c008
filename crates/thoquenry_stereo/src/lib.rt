// The stereo set for C, and for whatever calls C: read from a loop's bytes, and written with its loop. include/thoquenry.h documents the two functions; specs/ has, for
// each, one definition of its answer and of what its buffers hold afterwards.
#![tactic(auto)]

mod reading;
mod writing;

pub use reading::thq_read_stereo;
pub use writing::thq_write_stereo;
