// The bytes of a row that is to be written, laid by its numbers where there is room for them: no entry is made of it.
#![tactic(auto)]

ghost use Rattle.std.specs.Prelude.{◌≡◌, false, ◌++◌, map, ◌≢◌, ◌+◌, ◌≤◌, length, get_or};
ghost use Rattle.combinators.specs.Lists.{any};
ghost use Rattle.buffers.specs.Buffers.{Laid};
ghost use Rattle.syntax.specs.Table.{write_table};
ghost use Rattle.syntax.specs.Filled.{bytes_in};
ghost use Rattle.descriptor_heads.specs.Head.{head_table};
ghost use Rattle.extension.specs.Extension.{extension_head};
ghost use Rattle.loop_writer.specs.Layout.{entry_head_table, entry_bytes};
ghost use Rattle.entry_rows.specs.Rows.{fields_in, layer_too_wide, row_too_wide, entry_in};

use buffers::put_whole;
use loop_writer::entry_head;

// An entry without a descriptor: its head.
fn fieldless_bytes(row: &[u16]) -> [u8; 5]
    requires { (80 ≤ length row.now) × (row_too_wide row.now ≡ false) × (get_or row.now 2 0 ≢ 1) × (get_or row.now 2 0 ≢ 2) }
    ensures { result ≡ entry_bytes (entry_in row.now) }
{
    entry_head(row[0] as u8, row[1], 0)
}

// One with a hierarchy descriptor, 6 bytes with its head. Reserved bits are 1: 192 is two of them before six bits, 64 the one after the flag.
fn hierarchy_bytes(row: &[u16]) -> [u8; 11]
    requires { (80 ≤ length row.now) × (row_too_wide row.now ≡ false) × (get_or row.now 2 0 ≡ 1) }
    ensures { result ≡ entry_bytes (entry_in row.now) }
{
    let flags = row[3] * 128 + row[4] * 64 + row[5] * 32 + row[6] * 16;
    [
        row[0] as u8,
        (224 + row[1] / 256) as u8,
        (row[1] % 256) as u8,
        240,
        6,
        4,
        4,
        (flags + row[7]) as u8,
        (192 + row[8]) as u8,
        (row[9] * 128 + 64 + row[10]) as u8,
        (192 + row[11]) as u8,
    ]
}

// One with an extension, as far as its list.
fn extension_bytes(row: &[u16]) -> [u8; 14]
    requires { (80 ≤ length row.now) × (row_too_wide row.now ≡ false) × (get_or row.now 2 0 ≡ 2) }
    ensures { result ≡ bytes_in (entry_head_table (get_or row.now 0 0) (get_or row.now 1 0) (9 + get_or row.now 15 0)) ++ bytes_in (head_table 63 (7 + get_or row.now 15 0)) ++ write_table extension_head (fields_in extension_head row.now) }
{
    let count = row[15];
    [
        row[0] as u8,
        (224 + row[1] / 256) as u8,
        (row[1] % 256) as u8,
        240,
        (9 + count) as u8,
        63,
        (7 + count) as u8,
        0x06,
        (row[12] / 256) as u8,
        (row[12] % 256) as u8,
        (row[8] * 4 + row[13] / 2) as u8,
        (row[13] % 2 * 128 + row[14] * 2 + row[9]) as u8,
        (192 + count) as u8,
        (192 + row[11]) as u8,
    ]
}

// The list of an extension, a byte for each layer.
fn put_numbers(out: &mut [u8], at: usize, list: &[u16]) -> usize
    requires { (at + length list.now ≤ length out.old) × (any layer_too_wide list.now ≡ false) }
    ensures { Laid out.old at (map (λ n. 192 + n) list.now) result out.new }
{
    for (i, number) in list.iter().enumerate() {
        out[at + i] = (192 + *number) as u8;
    }
    at + list.len()
}

// The bytes of a row's entry, from place `at` on, where there is room for all of them.
pub fn put_row(out: &mut [u8], at: usize, row: &[u16]) -> usize
    requires { (80 ≤ length row.now) × (row_too_wide row.now ≡ false) × (at + length (entry_bytes (entry_in row.now)) ≤ length out.old) }
    ensures { Laid out.old at (entry_bytes (entry_in row.now)) result out.new }
{
    let kind = row[2];
    if kind == 1 {
        let bytes = hierarchy_bytes(row);
        return put_whole(out, at, &bytes);
    }
    if kind == 2 {
        let bytes = extension_bytes(row);
        let next = put_whole(out, at, &bytes);
        let end = 16 + row[15] as usize;
        return put_numbers(out, next, &row[16..end]);
    }
    let bytes = fieldless_bytes(row);
    put_whole(out, at, &bytes)
}
