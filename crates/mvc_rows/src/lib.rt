// The two MVC extension descriptors of a stereo set as rows of 8 numbers of 16 bits each, for callers who have numbers and slices alone; include/thoquenry.h has the
// layout: one number for each field of the table, in its order.
#![tactic(auto)]

ghost use Rattle.std.specs.Prelude.{◌≡◌, true, not, ◌++◌, ◌≤◌, length, get_or};
ghost use Rattle.buffers.specs.Buffers.{over};
ghost use Rattle.syntax.specs.Table.{fits};
ghost use Rattle.syntax.specs.Filled.{bit_of};
ghost use Rattle.mvc_extension.specs.MvcExtension.{mvc_extension_descriptor, mvc_extension_fields};
ghost use Rattle.mvc_rows.specs.Rows.{fields_at, extension_at};

use mvc_extension::MvcExtension;

// The numbers of a row.
const ROW: usize = 8;

fn row_of(x: MvcExtension) -> [u16; ROW]
    ensures { result ≡ mvc_extension_fields x }
{
    [
        x.average_bit_rate,
        x.maximum_bitrate,
        x.view_order_index_min,
        x.view_order_index_max,
        u16::from(x.temporal_id_start),
        u16::from(x.temporal_id_end),
        u16::from(x.no_sei_nal_unit_present),
        u16::from(x.no_prefix_nal_unit_present),
    ]
}

// The rows of two descriptors, from the front of a buffer on that has room for them.
pub fn lay_extensions(out: &mut [u16], first: MvcExtension, second: MvcExtension)
    requires { 16 ≤ length out.old }
    ensures { out.new ≡ over (mvc_extension_fields first ++ mvc_extension_fields second) out.old }
{
    out[..ROW].copy_from_slice(&row_of(first));
    out[ROW..2 * ROW].copy_from_slice(&row_of(second));
}

// A number that is not there is 0.
fn number_at(numbers: &[u16], i: usize) -> u16
    ensures { result ≡ get_or numbers.now i 0 }
{
    if i < numbers.len() {
        return numbers[i];
    }
    0
}

// 25 of the row that begins at `start`: the view order indices of 10 bits, the temporal identifiers of 3, the flags of 1. A rate has all 16.
pub fn extension_too_wide(numbers: &[u16], start: usize) -> bool
    requires { start ≤ 8 }
    ensures { result ≡ not (fits mvc_extension_descriptor (fields_at numbers.now start)) }
{
    let least = number_at(numbers, start + 2);
    let greatest = number_at(numbers, start + 3);
    let first_id = number_at(numbers, start + 4);
    let last_id = number_at(numbers, start + 5);
    let no_sei = number_at(numbers, start + 6);
    let no_prefix = number_at(numbers, start + 7);
    !((least < 1024)
        & (greatest < 1024)
        & (first_id < 8)
        & (last_id < 8)
        & (no_sei < 2)
        & (no_prefix < 2))
}

// The descriptor of the row that begins at `start`, with no value that is too wide.
pub fn extension_at(numbers: &[u16], start: usize) -> MvcExtension
    requires { (start ≤ 8) × (fits mvc_extension_descriptor (fields_at numbers.now start) ≡ true) }
    ensures { result ≡ extension_at numbers.now start }
{
    let average = number_at(numbers, start);
    let maximum = number_at(numbers, start + 1);
    let least = number_at(numbers, start + 2);
    let greatest = number_at(numbers, start + 3);
    let first_id = number_at(numbers, start + 4);
    let last_id = number_at(numbers, start + 5);
    let no_sei = number_at(numbers, start + 6);
    let no_prefix = number_at(numbers, start + 7);
    MvcExtension {
        average_bit_rate: average,
        maximum_bitrate: maximum,
        view_order_index_min: least,
        view_order_index_max: greatest,
        temporal_id_start: first_id as u8,
        temporal_id_end: last_id as u8,
        no_sei_nal_unit_present: no_sei == 1,
        no_prefix_nal_unit_present: no_prefix == 1,
    }
}
