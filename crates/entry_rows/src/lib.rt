// The entries of a loop as rows of 80 numbers of 16 bits each, for callers who have numbers and slices alone; include/thoquenry.h has the layout. Here is
// what a row means, and whether one has a value that is too wide (25). Rows are laid out in `row_laying`, an entry is made of one in `row_taking`, and a loop is
// written from them in `row_writer`.
#![tactic(auto)]

ghost use Rattle.std.specs.Prelude.{◌≡◌, ◌≤◌, length, take};
ghost use Rattle.combinators.specs.Lists.{any};
ghost use Rattle.vocabulary.specs.declared.stream_types.Reading.TheVariants.{Edition2015};
ghost use Rattle.hierarchy.specs.Hierarchy.{hierarchy_descriptor};
ghost use Rattle.extension.specs.Extension.{extension_head};
ghost use Rattle.entry_rows.specs.Rows.{too_wide_for, layer_too_wide, row_too_wide, some_too_wide};

// Flags of 1 bit, type of 4 bits, the indices and the channel of 6 bits each.
fn hierarchy_too_wide(row: &[u16]) -> bool
    requires { 80 ≤ length row.now }
    ensures { result ≡ too_wide_for (hierarchy_descriptor Edition2015) row.now }
{
    !((row[3] < 2)
        & (row[4] < 2)
        & (row[5] < 2)
        & (row[6] < 2)
        & (row[7] < 16)
        & (row[8] < 64)
        & (row[9] < 2)
        & (row[10] < 64)
        & (row[11] < 64))
}

// The index of 6 bits, temporal_id of 3, nuh_layer_id of 6, the flag of 1, the count and the channel of 6 bits each.
fn extension_too_wide(row: &[u16]) -> bool
    requires { 80 ≤ length row.now }
    ensures { result ≡ too_wide_for extension_head row.now }
{
    !((row[8] < 64)
        & (row[13] < 8)
        & (row[14] < 64)
        & (row[9] < 2)
        & (row[15] < 64)
        & (row[11] < 64))
}

// Whether one of the first `count` embedded layers is too wide.
fn list_too_wide(list: &[u16], count: usize) -> bool
    requires { count ≤ length list.now }
    ensures { result ≡ any layer_too_wide (take count list.now) }
{
    for number in &list[..count] {
        if 63 < *number {
            return true;
        }
    }
    false
}

// All that refusal 25 asks of a row.
fn row_too_wide(row: &[u16]) -> bool
    requires { 80 ≤ length row.now }
    ensures { result ≡ row_too_wide row.now }
{
    let kind = row[2];
    if 3 < kind {
        return true;
    }
    if 255 < row[0] {
        return true;
    }
    if 8191 < row[1] {
        return true;
    }
    if kind == 1 {
        return hierarchy_too_wide(row);
    }
    if kind == 2 {
        if extension_too_wide(row) {
            return true;
        }
        return list_too_wide(&row[16..], usize::from(row[15]));
    }
    false
}

// Whether some row has a value that is too wide. Every row is judged, also those past the 201 entries that a loop can have.
pub fn some_too_wide(numbers: &[u16]) -> bool
    ensures { result ≡ some_too_wide numbers.now }
{
    let count = numbers.len() / 80;
    for i in 0..count {
        let start = i * 80;
        let end = start + 80;
        if row_too_wide(&numbers[start..end]) {
            return true;
        }
    }
    false
}
