// The HEVC hierarchy extension descriptor, Table 2-111ter (tag 63, extension tag 0x06): its record and the list of embedded layers beside it, how they are
// read from a payload, what of them is too wide for its fields, and how they are written.
//
// What the record means for a stream, and where it is found, is said in `descriptors`.
#![tactic(auto)]

ghost use Rattle.std.specs.Prelude.{◌≡◌, false, [], ◌∷◌, map, ◌≤◌, length, take};
ghost use Rattle.combinators.specs.Lists.{any, gather};
ghost use Rattle.combinators.specs.Padding.{pad_to};
ghost use Rattle.buffers.specs.Buffers.{Laid};
ghost use Rattle.syntax.specs.Table.{Fit, fits, write_table};
ghost use Rattle.syntax.specs.Filled.{values_in, bytes_in, too_wide_in};
ghost use Rattle.extension.specs.Extension.{extension_head, embedded_layer, no_layer, extension_of, layers_of, extension_fields, layer_table, extension_tables};

use descriptor_heads::descriptor_head;
use vocabulary::{HierarchyChannel, LayerIndex, NuhLayerId, TemporalId};

// Each field but the reserved bits and the list of embedded layers, which stands beside it.
#[derive(Clone, Copy)]
pub struct ExtensionRecord {
    pub dimension_bits: u16,
    pub layer_index: LayerIndex,
    pub temporal_id: TemporalId,
    pub nuh_layer_id: NuhLayerId,
    pub tref_present_flag: bool,
    pub num_embedded_layers: u8,
    pub channel: HierarchyChannel,
}

// Room for the 63 embedded layers that six bits can count, all blank.
pub fn no_layers() -> [LayerIndex; 63]
    ensures { result ≡ pad_to 63 no_layer [] }
{
    [LayerIndex(0); 63]
}

// The payload as far as the list of embedded layers.
pub fn read_extension(payload: &[u8]) -> ExtensionRecord
    requires { 7 ≤ length payload.now }
    ensures { result ≡ extension_of payload.now }
{
    let high = u16::from(payload[1]);
    let low = u16::from(payload[2]);
    let index = payload[3];
    let identities = payload[4];
    let count = payload[5];
    let channel = payload[6];
    ExtensionRecord {
        dimension_bits: high * 256 + low,
        layer_index: LayerIndex(index / 4),
        temporal_id: TemporalId(index % 4 * 2 + identities / 128),
        nuh_layer_id: NuhLayerId(identities / 2 % 64),
        tref_present_flag: identities % 2 == 1,
        num_embedded_layers: count % 64,
        channel: HierarchyChannel(channel % 64),
    }
}

// The list of embedded layers, one byte each, in its order.
pub fn read_embedded(list: &[u8]) -> [LayerIndex; 63]
    requires { length list.now ≤ 63 }
    ensures { result ≡ pad_to 63 no_layer (layers_of list.now) }
{
    let mut layers = no_layers();
    for (i, byte) in list.iter().enumerate() {
        layers[i] = LayerIndex(byte % 64);
    }
    layers
}

// temporal_id of 3 bits, the index, nuh_layer_id, the count and the channel of 6 bits each.
pub fn extension_fits(extension: ExtensionRecord) -> bool
    ensures { result ≡ fits extension_head (extension_fields extension) }
{
    (extension.layer_index.0 < 64)
        & (extension.temporal_id.0 < 8)
        & (extension.nuh_layer_id.0 < 64)
        & (extension.num_embedded_layers < 64)
        & (extension.channel.0 < 64)
}

fn layer_too_wide(index: LayerIndex) -> bool
    ensures { result ≡ too_wide_in (layer_table index) }
{
    !(index.0 < 64)
}

// Whether one of the first `count` embedded layers is too wide.
pub fn list_too_wide(count: usize, embedded: [LayerIndex; 63]) -> bool
    requires { count ≤ 63 }
    ensures { result ≡ any too_wide_in (map layer_table (take count embedded)) }
{
    for index in &embedded[..count] {
        if layer_too_wide(*index) {
            return true;
        }
    }
    false
}

// The payload as it is written, as far as its list, behind the extension tag.
fn extension_payload(extension: ExtensionRecord) -> [u8; 7]
    requires { Fit extension_head (extension_fields extension) }
    ensures { result ≡ write_table extension_head (extension_fields extension) }
{
    let dimension_bits = extension.dimension_bits;
    let temporal_id = extension.temporal_id.0;
    let tref = u8::from(extension.tref_present_flag);
    [
        0x06,
        (dimension_bits / 256) as u8,
        (dimension_bits % 256) as u8,
        extension.layer_index.0 * 4 + temporal_id / 2,
        temporal_id % 2 * 128 + extension.nuh_layer_id.0 * 2 + tref,
        192 + extension.num_embedded_layers,
        192 + extension.channel.0,
    ]
}

fn embedded_layer(index: LayerIndex) -> [u8; 1]
    requires { Fit embedded_layer (values_in (layer_table index)) }
    ensures { result ≡ bytes_in (layer_table index) }
{
    [192 + index.0]
}

// The embedded layers of a list, laid into `out` from place `at` on.
fn put_list(out: &mut [u8], at: usize, list: &[LayerIndex]) -> usize
    requires { any too_wide_in (map layer_table list.now) ≡ false }
    ensures { Laid out.old at (gather bytes_in (map layer_table list.now)) result out.new }
{
    let mut place = buffers::put(out, at, b"");
    for index in list {
        let layer = embedded_layer(*index);
        place = buffers::put(out, place, &layer);
    }
    place
}

// The whole descriptor laid into `out` from place `at` on.
pub fn put_extension(
    out: &mut [u8],
    at: usize,
    extension: ExtensionRecord,
    embedded: [LayerIndex; 63],
) -> usize
    requires { any too_wide_in (extension_tables extension embedded) ≡ false }
    ensures { Laid out.old at (gather bytes_in (extension_tables extension embedded)) result out.new }
{
    let head = descriptor_head(63, 7 + extension.num_embedded_layers);
    let payload = extension_payload(extension);
    let count = usize::from(extension.num_embedded_layers);
    let mut place = buffers::put(out, at, &head);
    place = buffers::put(out, place, &payload);
    put_list(out, place, &embedded[..count])
}
