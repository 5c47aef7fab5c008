// One operation point laid into a buffer, from a row of numbers and two lists of bytes (point_fields): its two lists with their counts, and its rates.
#![tactic(auto)]

ghost use Rattle.std.specs.Prelude.{◌≡◌, false, length};
ghost use Rattle.combinators.specs.Lists.{any, gather};
ghost use Rattle.buffers.specs.Buffers.{Laid};
ghost use Rattle.point_fields.specs.Fields.{reference_bytes, list_bytes, point_bytes, row_too_wide, reference_too_wide};

use point_fields::{flags_count, point_head, put_rates};

// The one reserved bit, 128, is 1.
fn reference_byte(byte: u8) -> [u8; 1]
    requires { reference_too_wide byte ≡ false }
    ensures { result ≡ reference_bytes byte }
{
    [128 + byte % 128]
}

// The references, one byte each.
fn put_references(out: &mut [u8], at: usize, references: &[u8]) -> usize
    requires { any reference_too_wide references.now ≡ false }
    ensures { Laid out.old at (gather reference_bytes references.now) result out.new }
{
    let mut place = buffers::put(out, at, b"");
    for reference in references {
        let byte = reference_byte(*reference);
        place = buffers::put(out, place, &byte);
    }
    place
}

// The first half of a point: its two lists with their counts.
fn put_lists(out: &mut [u8], at: usize, row: &[u32], references: &[u8], layers: &[u8]) -> usize
    requires { (length row.now ≡ 12) × (row_too_wide row.now ≡ false) × (any reference_too_wide references.now ≡ false) }
    ensures { Laid out.old at (list_bytes row.now references.now layers.now) result out.new }
{
    let head = point_head(row[0], row[1]);
    let count = flags_count(row[2]);
    let first = buffers::put(out, at, &head);
    let second = put_references(out, first, references);
    let third = buffers::put(out, second, &count);
    one_by_one::put(out, third, layers)
}

// THE POINT laid into `out` from place `at` on.
pub fn put_point(out: &mut [u8], at: usize, row: &[u32], references: &[u8], layers: &[u8]) -> usize
    requires { (length row.now ≡ 12) × (row_too_wide row.now ≡ false) × (any reference_too_wide references.now ≡ false) }
    ensures { Laid out.old at (point_bytes row.now references.now layers.now) result out.new }
{
    let place = put_lists(out, at, row, references, layers);
    put_rates(out, place, row)
}
