// The words that every other crate uses: the four kinds of six-bit and three-bit numbers that must never stand for one another,
// the two readings and the stream types each knows, the hierarchy types by stream, and the refusals.
#![tactic(auto)]

mod refusal;
mod stream_types;

pub use refusal::{Refusal, number, place};
pub use stream_types::{Reading, knows, may_stand_on};

// What a layer is: hierarchy_layer_index, 0 to 63.
#[derive(Clone, Copy)]
pub struct LayerIndex(pub u8);

// Where a layer is sent: hierarchy_channel, 0 to 63.
#[derive(Clone, Copy)]
pub struct HierarchyChannel(pub u8);

// temporal_id of the extension, 0 to 7.
#[derive(Clone, Copy)]
pub struct TemporalId(pub u8);

// nuh_layer_id of the extension, 0 to 63.
#[derive(Clone, Copy)]
pub struct NuhLayerId(pub u8);
