// The two descriptors that make a stream a layer: the hierarchy descriptor (tag 4) and the HEVC hierarchy extension (tag 63, extension tag 0x06). Each has
// a room of its own, the crates `hierarchy` and `extension`: the record, how it is read from a payload, what of it is too wide for its fields, and how it
// is written. `records` has what both share, and `looking` finds them in the descriptor bytes of one stream.
//
// A stream's type is known to the reading here; which types are, and what is refused, the crates above decide.
#![tactic(auto)]

mod looking;

pub use extension::{ExtensionRecord, no_layers};
pub use hierarchy::HierarchyRecord;
pub use looking::{
    Found, Look, Named, Seen, find_records, look_through, name_layers, nothing_found,
    nothing_named, nothing_seen,
};
pub use records::{
    Record, channel, implied_names, is_base, is_layer, layer_index, listed_count, names,
    put_record, record_size, record_too_wide,
};
