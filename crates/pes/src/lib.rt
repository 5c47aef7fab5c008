// A video PES header's times, PTS, DTS and TREF: read, written, and both beside each other. proofs/ has the laws that hold between the
// two: what was written is read back, and what was read is written again.
#![tactic(auto)]

pub use pes_reader::{Header, read};
pub use pes_writer::write;
pub use stamps::Times;
