// A loop read and written as rows of numbers, and the closure of a target.
ghost use Rattle.std.specs.Prelude.{◌≡◌, map};
ghost use Rattle.es_loop.specs.Answer.{entries_judged};
ghost use Rattle.loop_entries.specs.Entries.{streams_of, entry_of};
ghost use Rattle.es_loop.specs.Reading.{verdict_of, loop_read};
ghost use Rattle.thoquenry.specs.Loops.{entries_laid, rows_read, read_loop, write_loop, closure_laid, closure_call};

use c_answers::{accepted, not_a_call, reading_of, refused};
use vocabulary::{Reading, Refusal};

// The numbers of an entry.
const ENTRY_NUMBERS: usize = 80;

// The rows of a loop that was judged, and accepted with so many entries and with the two views implied or not, where there is room for them.
fn lay_accepted(
    reading: Reading,
    bytes: &[u8],
    count: usize,
    pair: bool,
    entries: &mut [u16],
) -> u64
    requires { verdict_of reading bytes.now ≡ entries_judged count pair }
    ensures answer { result ≡ (entries_laid count (map entry_of (streams_of reading bytes.now)) entries.old).answer }
    ensures content { entries.new ≡ (entries_laid count (map entry_of (streams_of reading bytes.now)) entries.old).buffer }
{
    if entries.len() < count * ENTRY_NUMBERS {
        return refused(Refusal::NoRoom);
    }
    row_laying::put_rows(reading, pair, bytes, entries);
    accepted(count)
}

// The loop judged, and its rows laid into the buffer.
fn lay_rows(reading: Reading, bytes: &[u8], entries: &mut [u16]) -> u64
    ensures answer { result ≡ (rows_read (loop_read reading bytes.now) entries.old).answer }
    ensures content { entries.new ≡ (rows_read (loop_read reading bytes.now) entries.old).buffer }
{
    match es_loop::judge(reading, bytes) {
        Err(refusal) => refused(refusal),
        Ok(judged) => lay_accepted(reading, bytes, judged.count, judged.pair, entries),
    }
}

pub fn thq_read_loop(reading: u64, bytes: &[u8], entries: &mut [u16]) -> u64
    ensures answer { result ≡ (read_loop reading bytes.now entries.old).answer }
    ensures content { entries.new ≡ (read_loop reading bytes.now entries.old).buffer }
{
    let asked = reading_of(reading);
    match asked {
        Some(known) => lay_rows(known, bytes, entries),
        None => not_a_call(),
    }
}

pub fn thq_write_loop(entries: &[u16], out: &mut [u8]) -> u64
    ensures answer { result ≡ (write_loop entries.now out.old).answer }
    ensures content { out.new ≡ (write_loop entries.now out.old).buffer }
{
    if entry_rows::some_too_wide(entries) {
        return refused(Refusal::TooWide);
    }
    let written = row_writer::write_rows(entries, out);
    match written {
        Ok(count) => accepted(count),
        Err(refusal) => refused(refusal),
    }
}

// The members of a closure, laid into the buffer.
fn lay_closure(found: Result<u64, Refusal>, set: &mut [u64]) -> u64
    ensures answer { result ≡ (closure_laid found set.old).answer }
    ensures content { set.new ≡ (closure_laid found set.old).buffer }
{
    match found {
        Ok(members) => {
            if set.len() < 1 {
                return refused(Refusal::NoRoom);
            }
            set[0] = members;
            accepted(sets::size(members))
        }
        Err(refusal) => refused(refusal),
    }
}

pub fn thq_closure(reading: u64, bytes: &[u8], target: u64, set: &mut [u64]) -> u64
    ensures answer { result ≡ (closure_call reading bytes.now target set.old).answer }
    ensures content { set.new ≡ (closure_call reading bytes.now target set.old).buffer }
{
    let asked = reading_of(reading);
    match asked {
        Some(known) => lay_closure(loop_layers::closure_of_loop(known, bytes, target), set),
        None => not_a_call(),
    }
}
