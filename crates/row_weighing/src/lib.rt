// A row that is to be written, judged and sized by its numbers: no entry is made of it, and its embedded layers stay where they are.
#![tactic(auto)]

ghost use Rattle.std.specs.Prelude.{◌≡◌, true, false, ◌≢◌, ◌+◌, ◌*◌, ◌≤◌, ◌<◌, length, get_or, set, replicate};
ghost use Rattle.combinators.specs.Lists.{first_true};
ghost use Rattle.records.specs.Records.{index_of};
ghost use Rattle.judging.specs.Judging.{wrong_list};
ghost use Rattle.loop_outlines.specs.Outlines.{outline_of};
ghost use Rattle.loop_faults.specs.Conditions.{fault_at, slot_of};
ghost use Rattle.loop_faults.specs.Outlined.{tests};
ghost use Rattle.loop_writer.specs.Layout.{entry_bytes};
ghost use Rattle.loop_writer.specs.Verdict.{stream_for, given_to};
ghost use Rattle.loop_writer.specs.Weighing.{weighed_next};
ghost use Rattle.entry_rows.specs.Rows.{row_too_wide, entry_in};

use descriptors::Record;
use loop_faults::{NO_FAULT, lower, mark_next, mark_recordless};
use loop_outlines::Outline;
use loop_writer::Weighed;
use row_taking::{extension_in, hierarchy_in};

// A mark for each value of an index's byte, none set.
fn no_marks() -> [bool; 256]
    ensures { result ≡ replicate 256 false }
{
    [false; 256]
}

// Refusal 9: whether a number of the list is not below `own`, or stands there twice.
fn wrong_numbers(own: u16, list: &[u16]) -> bool
    requires { own < 256 }
    ensures { result ≡ wrong_list own list.now }
{
    let mut marks = no_marks();
    for number in list {
        let index = usize::from(*number);
        if own as usize <= index {
            return true;
        }
        if marks[index] {
            return true;
        }
        marks[index] = true;
    }
    false
}

// The lowest number that applies to a row with a hierarchy descriptor, by whether an earlier row has its PID and whether an earlier layer holds its index. It is judged
// where it stands: in an outline it would go through memory.
fn hierarchy_number(given: bool, pid_seen: bool, index_held: bool, row: &[u16]) -> usize
    requires { (80 ≤ length row.now) × (row_too_wide row.now ≡ false) × (get_or row.now 2 0 ≡ 1) }
    ensures { result ≡ first_true (tests given pid_seen index_held (outline_of (stream_for (entry_in row.now)))) }
{
    if pid_seen {
        return 3;
    }
    let hierarchy = hierarchy_in(row);
    let record = Record::Hierarchy(hierarchy);
    if judging::type_not_allowed(given, row[0] as u8, record) {
        return 6;
    }
    if judging::wrong_flags(record) {
        return 7;
    }
    if index_held {
        return 8;
    }
    if judging::wrong_hierarchy_index(hierarchy) {
        return 9;
    }
    NO_FAULT
}

// The same with the marks, in which its PID and its layer index are set.
fn mark_hierarchy(
    pids: &mut [bool; 8192],
    indices: &mut [bool; 257],
    given: bool,
    row: &[u16],
) -> usize
    requires { (80 ≤ length row.now) × (row_too_wide row.now ≡ false) × (get_or row.now 2 0 ≡ 1) }
    ensures value { (result ≡ fault_at given pids.old indices.old (stream_for (entry_in row.now))) × (index_of (entry_in row.now).stream_type (entry_in row.now).«record» < 256) }
    ensures pids_after { (pids.new ≡ set pids.old (entry_in row.now).pid true) × (indices.new ≡ set indices.old (slot_of (entry_in row.now).stream_type (entry_in row.now).«record») true) }
{
    let pid = row[1] as usize;
    let index = row[8] as usize;
    let number = hierarchy_number(given, pids[pid], indices[index], row);
    pids[pid] = true;
    indices[index] = true;
    number
}

fn extension_outline(row: &[u16]) -> Outline
    requires { (80 ≤ length row.now) × (row_too_wide row.now ≡ false) × (get_or row.now 2 0 ≡ 2) }
    ensures { result ≡ outline_of (stream_for (entry_in row.now)) }
{
    let extension = extension_in(row);
    let end = 16 + row[15] as usize;
    let wrong_embedded = wrong_numbers(row[8], &row[16..end]);
    Outline {
        fits: true,
        stream_type: row[0] as u8,
        pid: row[1],
        wrong_length: false,
        second_record: false,
        record: Record::Extension(extension),
        wrong_embedded,
    }
}

fn implied_outline(row: &[u16]) -> Outline
    requires { (80 ≤ length row.now) × (row_too_wide row.now ≡ false) × (get_or row.now 2 0 ≡ 3) }
    ensures { result ≡ outline_of (stream_for (entry_in row.now)) }
{
    Outline {
        fits: true,
        stream_type: row[0] as u8,
        pid: row[1],
        wrong_length: false,
        second_record: false,
        record: Record::Implied,
        wrong_embedded: false,
    }
}

// A row with an extension, or with the implied mark, as it is judged.
fn outline_in(row: &[u16]) -> Outline
    requires { (80 ≤ length row.now) × (row_too_wide row.now ≡ false) × (get_or row.now 2 0 ≢ 0) × (get_or row.now 2 0 ≢ 1) }
    ensures { result ≡ outline_of (stream_for (entry_in row.now)) }
{
    if row[2] == 2 {
        return extension_outline(row);
    }
    implied_outline(row)
}

// One row more, by whether the rows have the two views without a hierarchy descriptor: the lowest number that applies to it, and the marks with its PID and its
// layer index.
fn mark_row(pids: &mut [bool; 8192], indices: &mut [bool; 257], pair: bool, row: &[u16]) -> usize
    requires { (80 ≤ length row.now) × (row_too_wide row.now ≡ false) }
    ensures value { (result ≡ fault_at (given_to pair (entry_in row.now)) pids.old indices.old (stream_for (entry_in row.now))) × (index_of (entry_in row.now).stream_type (entry_in row.now).«record» < 256) }
    ensures pids_after { (pids.new ≡ set pids.old (entry_in row.now).pid true) × (indices.new ≡ set indices.old (slot_of (entry_in row.now).stream_type (entry_in row.now).«record») true) }
{
    let given = implied::gives(pair, row[0] as u8);
    let kind = row[2];
    if kind == 0 {
        return mark_recordless(pids, indices, given, row[1]);
    }
    if kind == 1 {
        return mark_hierarchy(pids, indices, given, row);
    }
    let outline = outline_in(row);
    mark_next(pids, indices, given, outline)
}

// How many bytes the entry of a row takes.
fn size_in(row: &[u16]) -> usize
    requires { (80 ≤ length row.now) × (row_too_wide row.now ≡ false) }
    ensures { (result ≡ length (entry_bytes (entry_in row.now))) × (result ≤ 77) }
{
    let kind = row[2];
    if kind == 1 {
        return 11;
    }
    if kind == 2 {
        return 14 + row[15] as usize;
    }
    5
}

// One row more of those that are weighed: its bytes, its lowest fault, and the marks.
pub fn weigh_row(
    pids: &mut [bool; 8192],
    indices: &mut [bool; 257],
    so_far: Weighed,
    pair: bool,
    row: &[u16],
    place: usize,
) -> Weighed
    requires { (80 ≤ length row.now) × (row_too_wide row.now ≡ false) × (so_far.size ≤ 77 * place) × (place < 201) }
    ensures value { (result ≡ weighed_next (given_to pair (entry_in row.now)) pids.old indices.old so_far (entry_in row.now) place) × (result.size ≤ 77 * (place + 1)) × (index_of (entry_in row.now).stream_type (entry_in row.now).«record» < 256) }
    ensures pids_after { (pids.new ≡ set pids.old (entry_in row.now).pid true) × (indices.new ≡ set indices.old (slot_of (entry_in row.now).stream_type (entry_in row.now).«record») true) }
{
    let size = so_far.size + size_in(row);
    let number = mark_row(pids, indices, pair, row);
    Weighed {
        size,
        fault: lower(so_far.fault, number, place),
    }
}
