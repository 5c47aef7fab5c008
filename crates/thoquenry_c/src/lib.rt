// The library for C, and for whatever calls C: the functions of include/thoquenry.h, which documents each, under their names and with C's way of calling. Each hands on
// what it is given to the function of its name, in the crate that has it, and promises what that one promises. Nothing of it allocates.
#![tactic(auto)]

mod join_calls;
mod loop_calls;
mod packet_calls;
mod piece_calls;
mod point_calls;
mod set_calls;
mod stereo_calls;
mod time_calls;
mod version;

pub use join_calls::{thq_import, thq_join, thq_join_long};
pub use loop_calls::{thq_closure, thq_read_loop, thq_write_loop};
pub use packet_calls::{thq_packets_import, thq_packets_import_long, thq_packets_rows};
pub use piece_calls::{thq_packets_feed, thq_packets_start, thq_packets_told, thq_packets_units};
pub use point_calls::{thq_read_points, thq_write_points};
pub use set_calls::{thq_set_add, thq_set_closure, thq_set_read, thq_set_remove};
pub use stereo_calls::{thq_read_stereo, thq_write_stereo};
pub use time_calls::{thq_read_times, thq_write_times};
pub use version::thq_version;
