// The first 16 numbers of a row: the stream type, the PID, and the fields of the record.
#![tactic(auto)]

ghost use Rattle.std.specs.Prelude.{◌≡◌};
ghost use Rattle.syntax.specs.Filled.{bit_of};
ghost use Rattle.entry_rows.specs.Rows.{fieldless_head, head_of};

use descriptors::{ExtensionRecord, HierarchyRecord, Record};

// The 16 numbers of a stream without a descriptor: it is no layer, or an implied one.
fn fieldless_head(stream_type: u8, pid: u16, kind: u16) -> [u16; 16]
    ensures { result ≡ fieldless_head stream_type pid kind }
{
    [
        u16::from(stream_type),
        pid,
        kind,
        0,
        0,
        0,
        0,
        0,
        0,
        0,
        0,
        0,
        0,
        0,
        0,
        0,
    ]
}

// Those of a stream with a hierarchy descriptor.
fn head_with_hierarchy(stream_type: u8, pid: u16, hierarchy: HierarchyRecord) -> [u16; 16]
    ensures { result ≡ head_of stream_type pid (Record.Hierarchy hierarchy) }
{
    [
        u16::from(stream_type),
        pid,
        1,
        u16::from(hierarchy.no_view),
        u16::from(hierarchy.no_temporal),
        u16::from(hierarchy.no_spatial),
        u16::from(hierarchy.no_quality),
        u16::from(hierarchy.hierarchy_type),
        u16::from(hierarchy.layer_index.0),
        u16::from(hierarchy.tref_present_flag),
        u16::from(hierarchy.embedded_layer_index.0),
        u16::from(hierarchy.channel.0),
        0,
        0,
        0,
        0,
    ]
}

// Those of a stream with an extension.
fn head_with_extension(stream_type: u8, pid: u16, extension: ExtensionRecord) -> [u16; 16]
    ensures { result ≡ head_of stream_type pid (Record.Extension extension) }
{
    [
        u16::from(stream_type),
        pid,
        2,
        0,
        0,
        0,
        0,
        0,
        u16::from(extension.layer_index.0),
        u16::from(extension.tref_present_flag),
        0,
        u16::from(extension.channel.0),
        extension.dimension_bits,
        u16::from(extension.temporal_id.0),
        u16::from(extension.nuh_layer_id.0),
        u16::from(extension.num_embedded_layers),
    ]
}

// Of any stream, by its record.
pub fn head_of(stream_type: u8, pid: u16, record: Record) -> [u16; 16]
    ensures { result ≡ head_of stream_type pid «record» }
{
    match record {
        Record::NoRecord => fieldless_head(stream_type, pid, 0),
        Record::Hierarchy(hierarchy) => head_with_hierarchy(stream_type, pid, hierarchy),
        Record::Extension(extension) => head_with_extension(stream_type, pid, extension),
        Record::Implied => fieldless_head(stream_type, pid, 3),
    }
}
