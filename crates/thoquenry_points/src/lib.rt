// The operation points of a program for C, and for whatever calls C. include/thoquenry.h documents the function; specs/ has one definition of its answer and of what its
// lists hold afterwards.
#![tactic(auto)]

mod reading;

pub use reading::thq_read_points;
