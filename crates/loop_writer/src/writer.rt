// The call: judged first, and written only where nothing refuses it.
ghost use Rattle.std.specs.Prelude.{◌≡◌, length};
ghost use Rattle.loop_writer.specs.Writing.{answer, content};
ghost use Rattle.loop_writer.specs.Weighing.{decided_by};

use super::passes::{implied_pair, put_entries, some_too_wide, weigh};
use super::weighing::Weighed;
use es_loop::{Entry, MOST_BYTES, MOST_ENTRIES, NO_FAULT, refusal_of};
use vocabulary::Refusal;

// The answer for entries that come to this, in a buffer of so many bytes.
pub fn decide(weighed: Weighed, room: usize) -> Result<usize, Refusal>
    ensures { result ≡ decided_by weighed room }
{
    let size = weighed.size;
    let fault = weighed.fault;
    if MOST_BYTES < size {
        return Err(Refusal::LoopTooLong);
    }
    if fault.number < NO_FAULT {
        return Err(refusal_of(fault.number, fault.place));
    }
    if room < size {
        return Err(Refusal::NoRoom);
    }
    Ok(size)
}

// Writes the first `count` entries into `out`, from its front on.
pub fn write_loop(
    count: usize,
    entries: [Entry; MOST_ENTRIES],
    out: &mut [u8],
) -> Result<usize, Refusal>
    ensures { (result ≡ answer (length out.old) count entries) × (out.new ≡ content count entries out.old) }
{
    let given = count.min(MOST_ENTRIES);
    if some_too_wide(given, entries) {
        return Err(Refusal::TooWide);
    }
    if MOST_ENTRIES < count {
        return Err(Refusal::LoopTooLong);
    }
    let pair = implied_pair(given, entries);
    let size = decide(weigh(pair, given, entries), out.len())?;
    put_entries(out, given, entries);
    Ok(size)
}
