// One record on one stream, judged by the refusals of document 01 that look at nothing else: 6, 7 and 9. The reader and the
// writer of a loop judge by the same functions.
//
// Each answers for every value that the types can hold, also for one that no six bits can: a writer may be handed any.
//
// Whether an entry is to be an implied layer is said of the whole loop (document 02, W-201): here it is given.
#![tactic(auto)]

ghost use Rattle.std.specs.Prelude.{◌≡◌, false, map, ◌≤◌, ◌<◌, take, replicate};
ghost use Rattle.combinators.specs.Members.{member};
ghost use Rattle.extension.specs.Extension.{layers_of};
ghost use Rattle.records.specs.Records.{plain, hierarchy_list};
ghost use Rattle.judging.specs.Judging.{extension_on, type_not_allowed, at0, flags_at0, flags_wrong_for, wrong_flags, wrong_list, TellsEmbedded};

use descriptors::{HierarchyRecord, Record};
use vocabulary::{LayerIndex, may_stand_on};

// The stream types on which an extension may stand.
fn extension_on(stream_type: u8) -> bool
    ensures { result ≡ member stream_type extension_on }
{
    matches!(stream_type, 0x24 | 0x25 | 0x28..=0x2B)
}

// Refusal 6. `given` is whether the rule gives this entry the implied mark.
pub fn type_not_allowed(given: bool, stream_type: u8, record: Record) -> bool
    ensures { result ≡ type_not_allowed given stream_type «record» }
{
    match record {
        Record::NoRecord => given,
        Record::Hierarchy(hierarchy) => !may_stand_on(hierarchy.hierarchy_type, stream_type),
        Record::Extension(_) => !extension_on(stream_type),
        Record::Implied => !given,
    }
}

// A flag at 0 (false) means "enhances".
fn at_0(flag: bool) -> u8
    ensures { result ≡ at0 flag }
{
    if flag { 0 } else { 1 }
}

fn flags_at_0(hierarchy: HierarchyRecord) -> u8
    ensures { result ≡ flags_at0 hierarchy }
{
    at_0(hierarchy.no_view)
        + at_0(hierarchy.no_temporal)
        + at_0(hierarchy.no_spatial)
        + at_0(hierarchy.no_quality)
}

fn flags_wrong_for(hierarchy_type: u8, flags: u8) -> bool
    ensures { result ≡ flags_wrong_for hierarchy_type flags }
{
    ((hierarchy_type == 9) & (0 < flags)) | ((1 < flags) & (hierarchy_type != 8))
}

// Refusal 7.
pub fn wrong_flags(record: Record) -> bool
    ensures { result ≡ wrong_flags «record» }
{
    match record {
        Record::Hierarchy(hierarchy) => flags_wrong_for(
            hierarchy.hierarchy_type,
            flags_at_0(hierarchy),
        ),
        Record::NoRecord | Record::Extension(_) | Record::Implied => false,
    }
}

// A mark for each value of an index's byte, none set.
fn no_marks() -> [bool; 256]
    ensures { result ≡ replicate 256 false }
{
    [false; 256]
}

// Where the mark of an index stands.
fn mark_of(index: LayerIndex) -> usize
    ensures { (result ≡ plain index) × (result < 256) }
{
    usize::from(index.0)
}

// Whether an index of the list is not below `own`, or stands there twice.
fn wrong_list(own: LayerIndex, list: &[LayerIndex]) -> bool
    ensures { result ≡ wrong_list (plain own) (map plain list.now) }
{
    let mut marks = no_marks();
    for layer in list {
        let index = mark_of(*layer);
        if mark_of(own) <= index {
            return true;
        }
        if marks[index] {
            return true;
        }
        marks[index] = true;
    }
    false
}

// The same of the bytes of an extension's list, where it stands in a descriptor. (No list of indices is made of them: it would be a copy.)
pub fn wrong_listed(own: LayerIndex, list: &[u8]) -> bool
    ensures { result ≡ wrong_list (plain own) (map plain (layers_of list.now)) }
{
    let mut marks = no_marks();
    for byte in list {
        let index = mark_of(LayerIndex(byte % 64));
        if mark_of(own) <= index {
            return true;
        }
        if marks[index] {
            return true;
        }
        marks[index] = true;
    }
    false
}

pub fn wrong_hierarchy_index(hierarchy: HierarchyRecord) -> bool
    ensures { result ≡ wrong_list (plain hierarchy.layer_index) (map plain (hierarchy_list hierarchy)) }
{
    if descriptors::is_base(hierarchy) {
        return false;
    }
    hierarchy.layer_index.0 <= hierarchy.embedded_layer_index.0
}

// Refusal 9. Of an implied layer it never holds, so that the answer is the same whatever the stream's type.
pub fn wrong_embedded(record: Record, embedded: [LayerIndex; 63]) -> bool
    ensures { TellsEmbedded result «record» embedded }
{
    match record {
        Record::NoRecord | Record::Implied => false,
        Record::Hierarchy(hierarchy) => wrong_hierarchy_index(hierarchy),
        Record::Extension(extension) => {
            let count = descriptors::listed_count(extension.num_embedded_layers);
            wrong_list(extension.layer_index, &embedded[..count])
        }
    }
}
