// The layers of a loop judged as a stereo set: 44, 45, 46, the lowest that applies.
ghost use Rattle.std.specs.Prelude.{◌≡◌};
ghost use Rattle.stereo_set.specs.Views.{is_base_layer, is_second_layer};
ghost use Rattle.stereo_set.specs.Set.{no_extension, refused_set, ranges_judged, found_judged, described_set, set_by};

use super::views::{Layers, View, blank_entry};
use descriptors::layer_index;
use es_loop::Entry;
use mvc_descriptors::Found;
use mvc_extension::MvcExtension;
use vocabulary::Refusal;

// The stream types of the two layers.
const BASE_TYPE: u8 = 0x1B;

const SECOND_TYPE: u8 = 0x20;

// What is answered: the outcome and, where it is accepted, the two layers' entries and their descriptors.
#[derive(Clone, Copy)]
pub struct StereoRead {
    pub outcome: Result<(), Refusal>,
    pub base: Entry,
    pub second: Entry,
    pub base_extension: MvcExtension,
    pub second_extension: MvcExtension,
}

fn no_extension() -> MvcExtension
    ensures { result ≡ no_extension }
{
    MvcExtension {
        average_bit_rate: 0,
        maximum_bitrate: 0,
        view_order_index_min: 0,
        view_order_index_max: 0,
        temporal_id_start: 0,
        temporal_id_end: 0,
        no_sei_nal_unit_present: false,
        no_prefix_nal_unit_present: false,
    }
}

// A refusal has no other content.
pub fn refused(refusal: Refusal) -> StereoRead
    ensures { result ≡ refused_set refusal }
{
    StereoRead {
        outcome: Err(refusal),
        base: blank_entry(),
        second: blank_entry(),
        base_extension: no_extension(),
        second_extension: no_extension(),
    }
}

// Of a layer: whether it is the 0x1B of index 0. (In a loop that is accepted such a layer is a base, by refusal 9.)
pub fn is_base(entry: Entry) -> bool
    ensures { result ≡ is_base_layer entry }
{
    let record = entry.record;
    let index = layer_index(entry.stream_type, record);
    (entry.stream_type == BASE_TYPE) & (index.0 == 0)
}

// Of a layer: whether it is the 0x20 of index 1. (In a loop that is accepted such a layer rests on index 0 alone, by refusals 6 and 9.)
pub fn is_second(entry: Entry) -> bool
    ensures { result ≡ is_second_layer entry }
{
    let record = entry.record;
    let index = layer_index(entry.stream_type, record);
    (entry.stream_type == SECOND_TYPE) & (index.0 == 1)
}

// 46 of the two layers with their descriptors, or the set.
fn judge_ranges(
    base: Entry,
    base_extension: MvcExtension,
    second: Entry,
    second_extension: MvcExtension,
) -> StereoRead
    ensures { result ≡ ranges_judged base base_extension second second_extension }
{
    if mvc_extension::wrong_ranges(base_extension, second_extension) {
        return refused(Refusal::RangesMeet);
    }
    StereoRead {
        outcome: Ok(()),
        base,
        second,
        base_extension,
        second_extension,
    }
}

// The same where the base has its descriptor: 45 where the second has not.
fn judge_second(
    base: Entry,
    base_extension: MvcExtension,
    second: Entry,
    found: Found,
) -> StereoRead
    ensures { result ≡ found_judged base (Found.One base_extension) second found }
{
    match found {
        Found::One(second_extension) => {
            judge_ranges(base, base_extension, second, second_extension)
        }
        Found::Missing | Found::Wrong => refused(Refusal::WrongMvcExtension),
    }
}

// 45 and 46 of the two layers.
fn judge_described(base: View, second: View) -> StereoRead
    ensures { result ≡ described_set base second }
{
    let base_entry = base.entry;
    let second_entry = second.entry;
    let base_found = base.found;
    let second_found = second.found;
    match base_found {
        Found::One(base_extension) => {
            judge_second(base_entry, base_extension, second_entry, second_found)
        }
        Found::Missing | Found::Wrong => refused(Refusal::WrongMvcExtension),
    }
}

// The layers of a loop, all of them: 44 where they are not the two, in whichever order, then 45 and 46.
pub fn set_of(layers: Layers) -> StereoRead
    ensures { result ≡ set_by layers }
{
    let first = layers.first;
    let second = layers.second;
    if layers.count != 2 {
        return refused(Refusal::NotStereoSet);
    }
    let first_entry = first.entry;
    let second_entry = second.entry;
    if is_base(first_entry) & is_second(second_entry) {
        return judge_described(first, second);
    }
    if is_base(second_entry) & is_second(first_entry) {
        return judge_described(second, first);
    }
    refused(Refusal::NotStereoSet)
}
