// Whether buffers hold a set: rows that are layers at their index, or nothing, in the shape in which entries are laid out, with no PID twice; and stored numbers that are
// what would be worked out afresh.
ghost use Rattle.std.specs.Prelude.{◌≡◌, false, ◌<◌, ◌≤◌, length};
ghost use Rattle.entry_rows.specs.Rows.{row_too_wide, some_too_wide, row_of};
ghost use Rattle.layer_set_rows.specs.Buffers.{wrong_at, right_at, same_numbers, row_right, layer_with, pid_again, row_fine, rows_right, rows_hold, stored_holds};

use super::laying::stored_number;
use es_loop::Entry;
use kept_closures::Columns;

// Whether a layer may not stand at an index: it is one of another index, or 6, 7 or 9 applies to it. The mark of two views is right on either.
fn wrong_at(index: usize, entry: Entry) -> bool
    ensures { result ≡ wrong_at index entry }
{
    let stream_type = entry.stream_type;
    let record = entry.record;
    let embedded = entry.embedded;
    if es_loop::slot_of(stream_type, record) != index {
        return true;
    }
    if judging::type_not_allowed(implied::gives(true, stream_type), stream_type, record) {
        return true;
    }
    if judging::wrong_flags(record) {
        return true;
    }
    judging::wrong_embedded(record, embedded)
}

// Whether an entry may stand at an index: a layer, or nothing.
fn right_at(index: usize, entry: Entry) -> bool
    ensures { result ≡ right_at index entry }
{
    let record = entry.record;
    if descriptors::is_layer(record) {
        return !wrong_at(index, entry);
    }
    (entry.stream_type == 0) & (entry.pid == 0)
}

// Whether the first 80 numbers of two rows are the same.
fn same_numbers(row: &[u16], other: &[u16; 80]) -> bool
    requires { 80 ≤ length row.now }
    ensures { result ≡ same_numbers row.now other.now }
{
    for i in 0..80 {
        if row[i] != other[i] {
            return false;
        }
    }
    true
}

// The row of an entry.
fn row_of(entry: Entry) -> [u16; 80]
    ensures { result ≡ row_of entry }
{
    let mut row = [0u16; 80];
    row_laying::lay_row(&mut row, entry);
    row
}

// Whether a row has an entry that may stand at its index, and is the row of that entry.
fn row_right(index: usize, row: &[u16]) -> bool
    requires { (80 ≤ length row.now) × (row_too_wide row.now ≡ false) }
    ensures { result ≡ row_right index row.now }
{
    let entry = row_taking::entry_in(row);
    if right_at(index, entry) {
        let own = row_of(entry);
        return same_numbers(row, &own);
    }
    false
}

// Whether a row with this record is a layer, and has the other PID.
fn layer_with(kind: u16, pid: u16, other: u16) -> bool
    ensures { result ≡ layer_with kind pid other }
{
    (kind != 0) & (pid == other)
}

// Whether a lower index has a layer with the PID of this row.
fn pid_again(rows: &[u16], index: usize) -> bool
    requires { (length rows.now ≡ 5120) × (index < 64) }
    ensures { result ≡ pid_again rows.now index }
{
    let pid = rows[index * 80 + 1];
    for lower in 0..index {
        if layer_with(rows[lower * 80 + 2], rows[lower * 80 + 1], pid) {
            return true;
        }
    }
    false
}

// Whether a row and its PID are right.
fn row_fine(rows: &[u16], index: usize) -> bool
    requires { (length rows.now ≡ 5120) × (index < 64) × (some_too_wide rows.now ≡ false) }
    ensures { result ≡ row_fine rows.now index }
{
    let start = index * 80;
    let end = start + 80;
    if row_right(index, &rows[start..end]) {
        if rows[index * 80 + 2] == 0 {
            return true;
        }
        return !pid_again(rows, index);
    }
    false
}

// Whether every row is.
fn rows_right(rows: &[u16]) -> bool
    requires { (length rows.now ≡ 5120) × (some_too_wide rows.now ≡ false) }
    ensures { result ≡ rows_right rows.now }
{
    for index in 0..64 {
        if !row_fine(rows, index) {
            return false;
        }
    }
    true
}

// Whether the rows are those of a set.
pub fn rows_hold(rows: &[u16]) -> bool
    ensures { result ≡ rows_hold rows.now }
{
    if rows.len() != 5120 {
        return false;
    }
    if entry_rows::some_too_wide(rows) {
        return false;
    }
    rows_right(rows)
}

// Whether every stored number is the one that was worked out.
pub fn stored_holds(kept: &Columns, stored: &[u64]) -> bool
    ensures { result ≡ stored_holds kept.now stored.now }
{
    if stored.len() != 192 {
        return false;
    }
    for place in 0..192 {
        if stored[place] != stored_number(kept, place) {
            return false;
        }
    }
    true
}
