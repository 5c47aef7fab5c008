// What makes a stream a layer, if anything does, and what both descriptors share: whether there is a layer, its index, the layers that it
// names, its channel, whether a value of it is too wide, and the descriptor as it is written.
//
// A layer may also be implied: one view of two that have no hierarchy descriptor (document 02, W-201). It has no descriptor and no fields; its index and the
// layers that it names follow from its stream type, which is therefore asked for with the record. Which loops imply layers is said elsewhere.
#![tactic(auto)]

ghost use Rattle.std.specs.Prelude.{◌≡◌, false, [], map, ◌≤◌, min, length, take};
ghost use Rattle.combinators.specs.Lists.{any, gather};
ghost use Rattle.buffers.specs.Buffers.{Laid};
ghost use Rattle.sets.specs.Sets.{added};
ghost use Rattle.syntax.specs.Filled.{bytes_in, too_wide_in};
ghost use Rattle.extension.specs.Extension.{layers_of};
ghost use Rattle.records.specs.Records.{is_layer, implied_index, index_of, channel_of, is_base, plain, hierarchy_list, with_indices, names_of, record_tables};

use extension::{ExtensionRecord, extension_fits, list_too_wide, put_extension};
use hierarchy::{HierarchyRecord, hierarchy_fits, put_hierarchy};
use vocabulary::{HierarchyChannel, LayerIndex};

#[derive(Clone, Copy)]
pub enum Record {
    NoRecord,
    Hierarchy(HierarchyRecord),
    Extension(ExtensionRecord),
    Implied,
}

// The stream type of the second of two views, which rests on the first.
const SECOND_VIEW: u8 = 0x20;

// Whether a stream with this record is a layer.
pub fn is_layer(record: Record) -> bool
    ensures { result ≡ is_layer «record» }
{
    match record {
        Record::NoRecord => false,
        Record::Hierarchy(_) | Record::Extension(_) | Record::Implied => true,
    }
}

// The index of an implied layer: 1 of the second view, and 0 of the first.
fn implied_index(stream_type: u8) -> LayerIndex
    ensures { result ≡ record { 0 = implied_index stream_type } }
{
    if stream_type == SECOND_VIEW {
        LayerIndex(1)
    } else {
        LayerIndex(0)
    }
}

// The layer's index, and 0 without a record.
pub fn layer_index(stream_type: u8, record: Record) -> LayerIndex
    ensures { result ≡ record { 0 = index_of stream_type «record» } }
{
    match record {
        Record::NoRecord => LayerIndex(0),
        Record::Hierarchy(hierarchy) => hierarchy.layer_index,
        Record::Extension(extension) => extension.layer_index,
        Record::Implied => implied_index(stream_type),
    }
}

// The channel on which a layer is sent, and 0 without a record, as of an implied one.
pub fn channel(record: Record) -> HierarchyChannel
    ensures { result ≡ channel_of «record» }
{
    match record {
        Record::NoRecord | Record::Implied => HierarchyChannel(0),
        Record::Hierarchy(hierarchy) => hierarchy.channel,
        Record::Extension(extension) => extension.channel,
    }
}

// Type 15 is a base layer: its embedded index names nothing.
pub fn is_base(hierarchy: HierarchyRecord) -> bool
    ensures { result ≡ is_base hierarchy }
{
    hierarchy.hierarchy_type == 15
}

// How many layers of the array an extension lists: as many as it counts, and no more than there are.
pub fn listed_count(num_embedded_layers: u8) -> usize
    ensures { result ≡ min num_embedded_layers 63 }
{
    usize::from(num_embedded_layers).min(63)
}

// A set with one index more: bit i stands for index i.
fn with_index(set: u64, index: LayerIndex) -> u64
    ensures { result ≡ added set (plain index) }
{
    sets::with(set, usize::from(index.0))
}

// The set of the indices of a list.
fn names_in(list: &[LayerIndex]) -> u64
    ensures { result ≡ with_indices 0 (map plain list.now) }
{
    let mut set = 0u64;
    for index in list {
        set = with_index(set, *index);
    }
    set
}

// The set of the layers in an extension's list, one byte each. (Beside `names_in`, since no list of indices is made of the bytes: it would be a copy.)
pub fn names_in_list(list: &[u8]) -> u64
    ensures { result ≡ with_indices 0 (map plain (layers_of list.now)) }
{
    let mut set = 0u64;
    for byte in list {
        set = with_index(set, LayerIndex(byte % 64));
    }
    set
}

pub fn names_of_hierarchy(hierarchy: HierarchyRecord) -> u64
    ensures { result ≡ with_indices 0 (map plain (hierarchy_list hierarchy)) }
{
    if is_base(hierarchy) {
        return 0;
    }
    with_index(0, hierarchy.embedded_layer_index)
}

// Of two implied layers the second view names the first.
pub fn implied_names(stream_type: u8) -> u64
    ensures { result ≡ names_of stream_type Record.Implied [] }
{
    if stream_type == SECOND_VIEW {
        return with_index(0, LayerIndex(0));
    }
    0
}

// The layers that a record names, as a set: bit i is 1 exactly when it names layer i.
pub fn names(stream_type: u8, record: Record, embedded: [LayerIndex; 63]) -> u64
    ensures { result ≡ names_of stream_type «record» embedded }
{
    match record {
        Record::NoRecord => 0,
        Record::Hierarchy(hierarchy) => names_of_hierarchy(hierarchy),
        Record::Extension(extension) => {
            let count = listed_count(extension.num_embedded_layers);
            names_in(&embedded[..count])
        }
        Record::Implied => implied_names(stream_type),
    }
}

// Refusal 25 of a record: whether a value is too wide for its field.
pub fn record_too_wide(record: Record, embedded: [LayerIndex; 63]) -> bool
    ensures { result ≡ any too_wide_in (record_tables «record» embedded) }
{
    match record {
        Record::NoRecord | Record::Implied => false,
        Record::Hierarchy(hierarchy) => !hierarchy_fits(hierarchy),
        Record::Extension(extension) => {
            if extension_fits(extension) {
                return list_too_wide(usize::from(extension.num_embedded_layers), embedded);
            }
            true
        }
    }
}

// How many bytes the descriptor takes: its head of two, and what the tag demands.
pub fn record_size(record: Record, embedded: [LayerIndex; 63]) -> usize
    requires { any too_wide_in (record_tables «record» embedded) ≡ false }
    ensures { (result ≡ length (gather bytes_in (record_tables «record» embedded))) × (result ≤ 72) }
{
    match record {
        Record::NoRecord | Record::Implied => 0,
        Record::Hierarchy(_) => 6,
        Record::Extension(extension) => 9 + usize::from(extension.num_embedded_layers),
    }
}

// The descriptor laid into `out` from place `at` on, nothing without a record or for an implied one.
pub fn put_record(out: &mut [u8], at: usize, record: Record, embedded: [LayerIndex; 63]) -> usize
    requires { any too_wide_in (record_tables «record» embedded) ≡ false }
    ensures { Laid out.old at (gather bytes_in (record_tables «record» embedded)) result out.new }
{
    match record {
        Record::NoRecord | Record::Implied => buffers::put(out, at, b""),
        Record::Hierarchy(hierarchy) => put_hierarchy(out, at, hierarchy),
        Record::Extension(extension) => put_extension(out, at, extension, embedded),
    }
}
