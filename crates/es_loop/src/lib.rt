// The elementary-stream loop of a program map section, read in either edition: every entry with its record, or the refusal (1 to
// 9) with its place. One entry is read in `loop_entries`, the two views without a hierarchy descriptor are found in `loop_views`, and an entry is judged in
// `loop_faults`.
#![tactic(auto)]

mod reader;
mod verdict;

pub use loop_entries::{
    Entry, MOST_BYTES, MOST_ENTRIES, Stream, blank_entries, entry_of, entry_size, read_layer,
    read_stream,
};
pub use loop_faults::{
    Fault, NO_FAULT, lower, lowest_fault, mark_next, no_fault, no_indices, no_pids, refusal_of,
    slot_of,
};
pub use loop_views::implied_pair;
pub use reader::{LoopRead, read_loop};
pub use verdict::{Judged, judge};
