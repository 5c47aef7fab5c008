// The one walk that judges a loop: each entry is framed, looked into and judged, the lowest fault so far is kept, and no entry is. Every call that
// is handed a loop's bytes begins with it. The writer of a loop judges by the same step.
ghost use Rattle.std.specs.Prelude.{◌≡◌, ◌≤◌, length};
ghost use Rattle.loop_entries.specs.Entries.{pair_of, streams_alone, streams_of};
ghost use Rattle.es_loop.specs.Reading.{judged, verdict_of};

use loop_entries::{MOST_BYTES, entry_size};
use loop_faults::{NO_FAULT, judge_entry, lower, no_fault, no_indices, no_pids, refusal_of};
use loop_views::implied_pair;
use vocabulary::{Reading, Refusal};

// The number of an entry that does not fit, or one of whose descriptors does not: behind it there is nothing to judge.
const DOES_NOT_FIT: usize = 2;

// How many entries an accepted loop has, and whether it has the two views without a hierarchy descriptor; or the refusal.
#[derive(Clone, Copy)]
pub struct Judged {
    pub count: usize,
    pub pair: bool,
}

// A loop of at most 1,008 bytes, by whether it has the two views.
fn judge_entries(reading: Reading, pair: bool, bytes: &[u8]) -> Result<Judged, Refusal>
    requires { (length bytes.now ≤ 1008) × (pair ≡ pair_of (streams_alone reading bytes.now)) }
    ensures { result ≡ judged (streams_of reading bytes.now) }
{
    let mut pids = no_pids();
    let mut indices = no_indices();
    let mut fault = no_fault();
    let mut count = 0;
    let mut at = 0;
    while at < bytes.len() {
        let left = &bytes[at..];
        let size = entry_size(left);
        if left.len() < size {
            return Err(Refusal::DoesNotFit(count));
        }
        let number = judge_entry(&mut pids, &mut indices, reading, pair, &left[..size]);
        if number == DOES_NOT_FIT {
            return Err(Refusal::DoesNotFit(count));
        }
        fault = lower(fault, number, count);
        count += 1;
        at += size;
    }
    if fault.number < NO_FAULT {
        return Err(refusal_of(fault.number, fault.place));
    }
    Ok(Judged { count, pair })
}

// The loop of a program map section, any bytes at all.
pub fn judge(reading: Reading, bytes: &[u8]) -> Result<Judged, Refusal>
    ensures { result ≡ verdict_of reading bytes.now }
{
    if MOST_BYTES < bytes.len() {
        return Err(Refusal::LoopTooLong);
    }
    judge_entries(reading, implied_pair(reading, bytes), bytes)
}
