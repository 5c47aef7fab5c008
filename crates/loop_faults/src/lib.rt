// The faults of an entry: the lowest number that applies at it, and the lowest of all entries so far. A loop is read and written by one step, which judges
// an entry more.
#![tactic(auto)]

ghost use Rattle.std.specs.Prelude.{◌≡◌, true, false, ◌+◌, ◌≤◌, ◌<◌, length, get_or, replicate, set};
ghost use Rattle.combinators.specs.Lists.{first_true};
ghost use Rattle.records.specs.Records.{index_of};
ghost use Rattle.implied.specs.Rule.{given};
ghost use Rattle.loop_faults.specs.Conditions.{lower_of, refusal_of, slot_of, fault_at, stream_in};
ghost use Rattle.loop_faults.specs.Outlined.{record_tests, tests, fault_on, fault_without};

use descriptors::Record;
use loop_entries::elementary_pid;
use loop_outlines::{Outline, read_outline};
use vocabulary::{Reading, Refusal};

// Past all numbers that are judged at an entry.
pub const NO_FAULT: usize = 10;

// Where the mark of streams that are no layer stands, past all values of an index's byte.
const RECORDLESS: usize = 256;

// A number that applies, and the entry at which it does. Both are words, so that a walk that keeps the lowest copies no room between them.
#[derive(Clone, Copy)]
pub struct Fault {
    pub number: usize,
    pub place: usize,
}

// The lowest number, from 2 to 9, that applies at an entry, or 10 where none does. The caller says whether it is given the implied mark,
// whether an earlier entry has its PID, and whether an earlier layer holds its index.
pub fn lowest_fault(given: bool, pid_seen: bool, index_held: bool, outline: Outline) -> usize
    ensures { result ≡ first_true (tests given pid_seen index_held outline) }
{
    if !outline.fits {
        return 2;
    }
    if pid_seen {
        return 3;
    }
    if outline.wrong_length {
        return 4;
    }
    if outline.second_record {
        return 5;
    }
    judged_fault(given, index_held, outline)
}

// The same of what is judged on the record alone, and of its index: 6 to 9.
fn judged_fault(given: bool, index_held: bool, outline: Outline) -> usize
    ensures { result ≡ 6 + first_true (record_tests given index_held outline) }
{
    let record = outline.record;
    if judging::type_not_allowed(given, outline.stream_type, record) {
        return 6;
    }
    if judging::wrong_flags(record) {
        return 7;
    }
    if index_held {
        return 8;
    }
    if outline.wrong_embedded {
        return 9;
    }
    NO_FAULT
}

// Where the mark of a record's index stands: at the index, and past all of them for a stream that is no layer.
pub fn slot_of(stream_type: u8, record: Record) -> usize
    ensures { (result ≡ slot_of stream_type «record») × (index_of stream_type «record» < 256) }
{
    let index = descriptors::layer_index(stream_type, record);
    if descriptors::is_layer(record) {
        return usize::from(index.0);
    }
    RECORDLESS
}

// The lower of two faults, the earlier where their numbers are the same.
pub fn lower(so_far: Fault, number: usize, place: usize) -> Fault
    ensures { result ≡ lower_of so_far number place }
{
    if number < so_far.number {
        return Fault { number, place };
    }
    so_far
}

// A fault as a refusal.
pub fn refusal_of(number: usize, place: usize) -> Refusal
    ensures { result ≡ refusal_of number place }
{
    match number {
        2 => Refusal::DoesNotFit(place),
        3 => Refusal::RepeatedPid(place),
        4 => Refusal::WrongLength(place),
        5 => Refusal::SecondRecord(place),
        6 => Refusal::TypeNotAllowed(place),
        7 => Refusal::WrongFlags(place),
        8 => Refusal::RepeatedLayerIndex(place),
        9 => Refusal::WrongEmbeddedIndex(place),
        _ => Refusal::LoopTooLong,
    }
}

// A mark for each of the 8,192 PIDs, none set.
pub fn no_pids() -> [bool; 8192]
    ensures { result ≡ replicate 8192 false }
{
    [false; 8192]
}

// A mark for each value of an index's byte, and one for streams that are no layer, none set.
pub fn no_indices() -> [bool; 257]
    ensures { result ≡ replicate 257 false }
{
    [false; 257]
}

// Before any stream: a number past all that are judged.
pub fn no_fault() -> Fault
    ensures { result ≡ record { number = 10; place = 0 } }
{
    Fault {
        number: NO_FAULT,
        place: 0,
    }
}

// One stream more, and whether it is given the implied mark: its lowest number, and the marks with its PID and its layer index. The number goes from hand to
// hand and not the lowest fault so far, which stays with whoever walks.
pub fn mark_next(
    pids: &mut [bool; 8192],
    indices: &mut [bool; 257],
    given: bool,
    outline: Outline,
) -> usize
    requires { outline.pid < 8192 }
    ensures value { (result ≡ fault_on given pids.old indices.old outline) × (index_of outline.stream_type outline.«record» < 256) }
    ensures pids_after { (pids.new ≡ set pids.old outline.pid true) × (indices.new ≡ set indices.old (slot_of outline.stream_type outline.«record») true) }
{
    let record = outline.record;
    let pid = usize::from(outline.pid);
    let slot = slot_of(outline.stream_type, record);
    let index_held = descriptors::is_layer(record) & indices[slot];
    let number = lowest_fault(given, pids[pid], index_held, outline);
    pids[pid] = true;
    indices[slot] = true;
    number
}

// The same of a stream without a record, which needs no outline.
pub fn mark_recordless(
    pids: &mut [bool; 8192],
    indices: &mut [bool; 257],
    given: bool,
    pid: u16,
) -> usize
    requires { pid < 8192 }
    ensures value { result ≡ fault_without given (get_or pids.old pid false) }
    ensures pids_after { (pids.new ≡ set pids.old pid true) × (indices.new ≡ set indices.old 256 true) }
{
    let place = usize::from(pid);
    let seen = pids[place];
    pids[place] = true;
    indices[RECORDLESS] = true;
    if seen {
        return 3;
    }
    if given {
        return 6;
    }
    NO_FAULT
}

// One whole entry more of a loop that has the two views without a hierarchy descriptor or has not. Where the reading does not know its type there is nothing
// to look for in its descriptors, and no outline is taken.
pub fn judge_entry(
    pids: &mut [bool; 8192],
    indices: &mut [bool; 257],
    reading: Reading,
    pair: bool,
    entry: &[u8],
) -> usize
    requires { 5 ≤ length entry.now }
    ensures value { (result ≡ fault_at (given pair (stream_in reading pair entry.now).stream_type) pids.old indices.old (stream_in reading pair entry.now)) × (index_of (stream_in reading pair entry.now).stream_type (stream_in reading pair entry.now).seen.«record» < 256) }
    ensures pids_after { (pids.new ≡ set pids.old (stream_in reading pair entry.now).pid true) × (indices.new ≡ set indices.old (slot_of (stream_in reading pair entry.now).stream_type (stream_in reading pair entry.now).seen.«record») true) }
{
    let stream_type = entry[0];
    if vocabulary::knows(reading, stream_type) {
        let outline = read_outline(reading, pair, entry);
        let given = implied::gives(pair, outline.stream_type);
        return mark_next(pids, indices, given, outline);
    }
    let pid = elementary_pid(entry[1], entry[2]);
    mark_recordless(pids, indices, false, pid)
}
