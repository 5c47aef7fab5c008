// The MVC extension descriptor, Table AMD4.1 of source 001 (clause 2.6.78), tag 49 and length 8: the record, how it is read from a payload, what of
// it is too wide for its fields, the payload as it is written, and what of two of them is wrong together.
//
// It is read and written in the stereo set alone; in every other call a descriptor of this tag is skipped.
#![tactic(auto)]

ghost use Rattle.std.specs.Prelude.{◌≡◌, ◌≤◌, length};
ghost use Rattle.syntax.specs.Table.{Fit, fits, write_table};
ghost use Rattle.mvc_extension.specs.MvcExtension.{mvc_extension_descriptor, mvc_extension_of, mvc_extension_fields};
ghost use Rattle.mvc_extension.specs.Ranges.{reversed_range, ranges_meet, wrong_ranges};

// Each field but the reserved bits. Rates are in thousands of bits a second, 0 where none is told; the view order indices are a range, both ends in it.
#[derive(Clone, Copy)]
pub struct MvcExtension {
    pub average_bit_rate: u16,
    pub maximum_bitrate: u16,
    pub view_order_index_min: u16,
    pub view_order_index_max: u16,
    pub temporal_id_start: u8,
    pub temporal_id_end: u8,
    pub no_sei_nal_unit_present: bool,
    pub no_prefix_nal_unit_present: bool,
}

// The payload of the descriptor.
pub fn read_mvc_extension(payload: &[u8]) -> MvcExtension
    requires { 8 ≤ length payload.now }
    ensures { result ≡ mvc_extension_of payload.now }
{
    let average_high = u16::from(payload[0]);
    let average_low = u16::from(payload[1]);
    let maximum_high = u16::from(payload[2]);
    let maximum_low = u16::from(payload[3]);
    let first = u16::from(payload[4]);
    let second = u16::from(payload[5]);
    let third = u16::from(payload[6]);
    let last = payload[7];
    MvcExtension {
        average_bit_rate: average_high * 256 + average_low,
        maximum_bitrate: maximum_high * 256 + maximum_low,
        view_order_index_min: first % 16 * 64 + second / 4,
        view_order_index_max: second % 4 * 256 + third,
        temporal_id_start: last / 32,
        temporal_id_end: last / 4 % 8,
        no_sei_nal_unit_present: last / 2 % 2 == 1,
        no_prefix_nal_unit_present: last % 2 == 1,
    }
}

// The view order indices of 10 bits, the temporal identifiers of 3.
pub fn mvc_extension_fits(extension: MvcExtension) -> bool
    ensures { result ≡ fits mvc_extension_descriptor (mvc_extension_fields extension) }
{
    (extension.view_order_index_min < 1024)
        & (extension.view_order_index_max < 1024)
        & (extension.temporal_id_start < 8)
        & (extension.temporal_id_end < 8)
}

// The payload as it is written. Reserved bits are 1: 240 is four of them before four bits.
pub fn mvc_extension_payload(extension: MvcExtension) -> [u8; 8]
    requires { Fit mvc_extension_descriptor (mvc_extension_fields extension) }
    ensures { result ≡ write_table mvc_extension_descriptor (mvc_extension_fields extension) }
{
    let average = extension.average_bit_rate;
    let maximum = extension.maximum_bitrate;
    let least = extension.view_order_index_min;
    let greatest = extension.view_order_index_max;
    let no_sei = u8::from(extension.no_sei_nal_unit_present);
    let no_prefix = u8::from(extension.no_prefix_nal_unit_present);
    [
        (average / 256) as u8,
        (average % 256) as u8,
        (maximum / 256) as u8,
        (maximum % 256) as u8,
        (240 + least / 64) as u8,
        (least % 64 * 4 + greatest / 256) as u8,
        (greatest % 256) as u8,
        extension.temporal_id_start * 32 + extension.temporal_id_end * 4 + no_sei * 2 + no_prefix,
    ]
}

// Whether the least view order index of a range exceeds its greatest.
fn reversed(extension: MvcExtension) -> bool
    ensures { result ≡ reversed_range extension }
{
    extension.view_order_index_max < extension.view_order_index_min
}

// Whether two ranges whose least does not exceed their greatest share an index: each begins before the other ends.
fn meet(first: MvcExtension, second: MvcExtension) -> bool
    ensures { result ≡ ranges_meet first second }
{
    (first.view_order_index_min <= second.view_order_index_max)
        & (second.view_order_index_min <= first.view_order_index_max)
}

// Of the two descriptors of a stereo set: a range whose least exceeds its greatest, or ranges that share an index.
pub fn wrong_ranges(first: MvcExtension, second: MvcExtension) -> bool
    ensures { result ≡ wrong_ranges first second }
{
    reversed(first) | reversed(second) | meet(first, second)
}
