// From rows to entries: the entry of a row that has no value too wide, and what the rule on two views looks at of it.
#![tactic(auto)]

ghost use Rattle.std.specs.Prelude.{◌≡◌, false, map, ◌≤◌, length, take};
ghost use Rattle.syntax.specs.Named.{by_names};
ghost use Rattle.combinators.specs.Lists.{any};
ghost use Rattle.combinators.specs.Padding.{pad_to};
ghost use Rattle.vocabulary.specs.declared.stream_types.Reading.TheVariants.{Edition2015};
ghost use Rattle.hierarchy.specs.Hierarchy.{hierarchy_descriptor, hierarchy_from};
ghost use Rattle.extension.specs.Extension.{extension_head, no_layer, extension_from};
ghost use Rattle.implied.specs.Walking.{view_next};
ghost use Rattle.loop_entries.specs.Entries.{shown_of};
ghost use Rattle.loop_writer.specs.Verdict.{stream_for};
ghost use Rattle.entry_rows.specs.Rows.{fields_in, too_wide_for, layer_too_wide, row_too_wide, layer_of, entry_in};

use descriptors::{ExtensionRecord, HierarchyRecord, Record};
use es_loop::Entry;
use implied::Views;
use vocabulary::{HierarchyChannel, LayerIndex, NuhLayerId, TemporalId};

pub fn hierarchy_in(row: &[u16]) -> HierarchyRecord
    requires { (80 ≤ length row.now) × (too_wide_for (hierarchy_descriptor Edition2015) row.now ≡ false) }
    ensures { result ≡ hierarchy_from (by_names (hierarchy_descriptor Edition2015) (fields_in (hierarchy_descriptor Edition2015) row.now)) }
{
    HierarchyRecord {
        no_view: row[3] == 1,
        no_temporal: row[4] == 1,
        no_spatial: row[5] == 1,
        no_quality: row[6] == 1,
        hierarchy_type: row[7] as u8,
        layer_index: LayerIndex(row[8] as u8),
        tref_present_flag: row[9] == 1,
        embedded_layer_index: LayerIndex(row[10] as u8),
        channel: HierarchyChannel(row[11] as u8),
    }
}

pub fn extension_in(row: &[u16]) -> ExtensionRecord
    requires { (80 ≤ length row.now) × (too_wide_for extension_head row.now ≡ false) }
    ensures { result ≡ extension_from (by_names extension_head (fields_in extension_head row.now)) }
{
    ExtensionRecord {
        dimension_bits: row[12],
        layer_index: LayerIndex(row[8] as u8),
        temporal_id: TemporalId(row[13] as u8),
        nuh_layer_id: NuhLayerId(row[14] as u8),
        tref_present_flag: row[9] == 1,
        num_embedded_layers: row[15] as u8,
        channel: HierarchyChannel(row[11] as u8),
    }
}

// The first `count` embedded layers, in their array.
fn list_in(list: &[u16], count: usize) -> [LayerIndex; 63]
    requires { (count ≤ 63) × (count ≤ length list.now) × (any layer_too_wide (take count list.now) ≡ false) }
    ensures { result ≡ pad_to 63 no_layer (map layer_of (take count list.now)) }
{
    let mut layers = descriptors::no_layers();
    for i in 0..count {
        layers[i] = LayerIndex(list[i] as u8);
    }
    layers
}

// The entry of a row.
pub fn entry_in(row: &[u16]) -> Entry
    requires { (80 ≤ length row.now) × (row_too_wide row.now ≡ false) }
    ensures { result ≡ entry_in row.now }
{
    let stream_type = row[0] as u8;
    let pid = row[1];
    let kind = row[2];
    if kind == 1 {
        let hierarchy = hierarchy_in(row);
        return Entry {
            stream_type,
            pid,
            record: Record::Hierarchy(hierarchy),
            embedded: descriptors::no_layers(),
        };
    }
    if kind == 2 {
        let extension = extension_in(row);
        let embedded = list_in(&row[16..], row[15] as usize);
        return Entry {
            stream_type,
            pid,
            record: Record::Extension(extension),
            embedded,
        };
    }
    if kind == 3 {
        return Entry {
            stream_type,
            pid,
            record: Record::Implied,
            embedded: descriptors::no_layers(),
        };
    }
    Entry {
        stream_type,
        pid,
        record: Record::NoRecord,
        embedded: descriptors::no_layers(),
    }
}

// One row more of those among which there may be two views without a hierarchy descriptor (document 02, W-201).
pub fn view_in(views: Views, row: &[u16]) -> Views
    requires { (80 ≤ length row.now) × (row_too_wide row.now ≡ false) }
    ensures { result ≡ view_next views (shown_of (stream_for (entry_in row.now))) }
{
    implied::view_next(views, row[0] as u8, row[2] == 1)
}
