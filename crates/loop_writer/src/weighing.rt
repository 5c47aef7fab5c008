// What entries that are to be written come to: how many bytes they take, and the lowest of 3 and 6 to 9 that applies to them, at its earliest place.
// They are weighed one at a time, so that nobody has to hold them all, and judged by the step by which a loop is read.
ghost use Rattle.std.specs.Prelude.{◌≡◌, true, false, ◌+◌, ◌*◌, ◌≤◌, ◌<◌, set};
ghost use Rattle.records.specs.Records.{index_of};
ghost use Rattle.loop_faults.specs.Conditions.{slot_of};
ghost use Rattle.loop_outlines.specs.Outlines.{outline_of};
ghost use Rattle.loop_writer.specs.Layout.{too_wide};
ghost use Rattle.loop_writer.specs.Verdict.{stream_for};
ghost use Rattle.loop_writer.specs.Weighing.{nothing_weighed, weighed_next};

use super::entry::entry_size;
use es_loop::{Entry, Fault, lower, mark_next, no_fault};
use loop_outlines::Outline;

// Number 10 of the fault says that none applies.
#[derive(Clone, Copy)]
pub struct Weighed {
    pub size: usize,
    pub fault: Fault,
}

// Before any entry.
pub fn nothing_weighed() -> Weighed
    ensures { result ≡ nothing_weighed }
{
    Weighed {
        size: 0,
        fault: no_fault(),
    }
}

// An entry as it is judged.
pub fn outline_for(entry: Entry) -> Outline
    ensures { result ≡ outline_of (stream_for entry) }
{
    let record = entry.record;
    let embedded = entry.embedded;
    Outline {
        fits: true,
        stream_type: entry.stream_type,
        pid: entry.pid,
        wrong_length: false,
        second_record: false,
        record,
        wrong_embedded: judging::wrong_embedded(record, embedded),
    }
}

// One entry more, with no value that is too wide, and whether it is given the implied mark: its bytes, its lowest fault, and the marks with its PID and its layer index.
pub fn weigh_next(
    pids: &mut [bool; 8192],
    indices: &mut [bool; 257],
    so_far: Weighed,
    given: bool,
    entry: Entry,
    place: usize,
) -> Weighed
    requires { (too_wide entry ≡ false) × (so_far.size ≤ 77 * place) × (place < 201) }
    ensures value { (result ≡ weighed_next given pids.old indices.old so_far entry place) × (result.size ≤ 77 * (place + 1)) × (index_of entry.stream_type entry.«record» < 256) }
    ensures pids_after { (pids.new ≡ set pids.old entry.pid true) × (indices.new ≡ set indices.old (slot_of entry.stream_type entry.«record») true) }
{
    let size = so_far.size + entry_size(entry);
    let number = mark_next(pids, indices, given, outline_for(entry));
    Weighed {
        size,
        fault: lower(so_far.fault, number, place),
    }
}
