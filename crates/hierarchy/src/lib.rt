// The hierarchy descriptor, Table 2-49 (tag 4): its record, how it is read from a payload, what of it is too wide for its fields, and how it is written.
//
// What the record means for a stream, and where it is found, is said in `descriptors`.
#![tactic(auto)]

ghost use Rattle.std.specs.Prelude.{◌≡◌, false, ◌≤◌, length};
ghost use Rattle.combinators.specs.Lists.{any, gather};
ghost use Rattle.buffers.specs.Buffers.{Laid};
ghost use Rattle.syntax.specs.Table.{Fit, fits, write_table};
ghost use Rattle.syntax.specs.Filled.{bytes_in, too_wide_in};
ghost use Rattle.vocabulary.specs.declared.stream_types.Reading.TheVariants.{Edition2015};
ghost use Rattle.hierarchy.specs.Hierarchy.{hierarchy_descriptor, hierarchy_of, first_bit, hierarchy_fields, hierarchy_tables};

use descriptor_heads::descriptor_head;
use vocabulary::{HierarchyChannel, LayerIndex, Reading};

// Each field but the reserved bits. A flag at 0 (false) means "enhances".
#[derive(Clone, Copy)]
pub struct HierarchyRecord {
    pub no_view: bool,
    pub no_temporal: bool,
    pub no_spatial: bool,
    pub no_quality: bool,
    pub hierarchy_type: u8,
    pub layer_index: LayerIndex,
    pub tref_present_flag: bool,
    pub embedded_layer_index: LayerIndex,
    pub channel: HierarchyChannel,
}

// The payload of a hierarchy descriptor. The 2009 reading has a reserved bit in place of no_view, and answers 1.
pub fn read_hierarchy(reading: Reading, payload: &[u8]) -> HierarchyRecord
    requires { 4 ≤ length payload.now }
    ensures { result ≡ hierarchy_of reading payload.now }
{
    let kind = payload[0];
    let index = payload[1];
    let embedded = payload[2];
    let channel = payload[3];
    HierarchyRecord {
        no_view: no_view(reading, kind),
        no_temporal: kind / 64 % 2 == 1,
        no_spatial: kind / 32 % 2 == 1,
        no_quality: kind / 16 % 2 == 1,
        hierarchy_type: kind % 16,
        layer_index: LayerIndex(index % 64),
        tref_present_flag: embedded / 128 == 1,
        embedded_layer_index: LayerIndex(embedded % 64),
        channel: HierarchyChannel(channel % 64),
    }
}

fn no_view(reading: Reading, kind: u8) -> bool
    ensures { result ≡ first_bit reading kind }
{
    match reading {
        Reading::Edition2009 => true,
        Reading::Edition2015 => kind / 128 == 1,
    }
}

// Type of 4 bits, the indices and the channel of 6 bits each.
pub fn hierarchy_fits(hierarchy: HierarchyRecord) -> bool
    ensures { result ≡ fits (hierarchy_descriptor Edition2015) (hierarchy_fields hierarchy) }
{
    (hierarchy.hierarchy_type < 16)
        & (hierarchy.layer_index.0 < 64)
        & (hierarchy.embedded_layer_index.0 < 64)
        & (hierarchy.channel.0 < 64)
}

// The payload as it is written. Reserved bits are 1: 192 is two of them before six bits, 64 the one after the flag.
fn hierarchy_payload(hierarchy: HierarchyRecord) -> [u8; 4]
    requires { Fit (hierarchy_descriptor Edition2015) (hierarchy_fields hierarchy) }
    ensures { result ≡ write_table (hierarchy_descriptor Edition2015) (hierarchy_fields hierarchy) }
{
    let no_view = u8::from(hierarchy.no_view);
    let no_temporal = u8::from(hierarchy.no_temporal);
    let no_spatial = u8::from(hierarchy.no_spatial);
    let no_quality = u8::from(hierarchy.no_quality);
    let tref = u8::from(hierarchy.tref_present_flag);
    [
        no_view * 128
            + no_temporal * 64
            + no_spatial * 32
            + no_quality * 16
            + hierarchy.hierarchy_type,
        192 + hierarchy.layer_index.0,
        tref * 128 + 64 + hierarchy.embedded_layer_index.0,
        192 + hierarchy.channel.0,
    ]
}

// The whole descriptor laid into `out` from place `at` on.
pub fn put_hierarchy(out: &mut [u8], at: usize, hierarchy: HierarchyRecord) -> usize
    requires { any too_wide_in (hierarchy_tables hierarchy) ≡ false }
    ensures { Laid out.old at (gather bytes_in (hierarchy_tables hierarchy)) result out.new }
{
    let head = descriptor_head(4, 4);
    let payload = hierarchy_payload(hierarchy);
    let next = buffers::put(out, at, &head);
    buffers::put(out, next, &payload)
}
