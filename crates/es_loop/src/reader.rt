// The loop with every entry by value: judged first, and laid out where it is accepted.
ghost use Rattle.std.specs.Prelude.{◌≡◌, length};
ghost use Rattle.es_loop.specs.Answer.{entries_judged};
ghost use Rattle.loop_entries.specs.Entries.{streams_of, entries_of};
ghost use Rattle.es_loop.specs.Reading.{refused_with, verdict_of, loop_read};

use super::verdict::judge;
use loop_entries::{Entry, MOST_ENTRIES, blank_entries, entry_of, entry_size, read_stream};
use vocabulary::{Reading, Refusal};

// What reading a loop answers: the outcome and, where it is accepted, the number of entries and each entry in loop order.
#[derive(Clone, Copy)]
pub struct LoopRead {
    pub outcome: Result<(), Refusal>,
    pub count: usize,
    pub entries: [Entry; MOST_ENTRIES],
}

fn refused(refusal: Refusal) -> LoopRead
    ensures { result ≡ refused_with refusal }
{
    LoopRead {
        outcome: Err(refusal),
        count: 0,
        entries: blank_entries(),
    }
}

// The entries of a loop that was judged and accepted.
fn entries_in(reading: Reading, pair: bool, bytes: &[u8]) -> [Entry; MOST_ENTRIES]
    requires { verdict_of reading bytes.now ≡ entries_judged (length (streams_of reading bytes.now)) pair }
    ensures { result ≡ entries_of (streams_of reading bytes.now) }
{
    let mut entries = blank_entries();
    let mut count = 0;
    let mut at = 0;
    while at < bytes.len() {
        let left = &bytes[at..];
        let size = entry_size(left);
        entries[count] = entry_of(read_stream(reading, pair, &left[..size]));
        count += 1;
        at += size;
    }
    entries
}

// The loop of a program map section, any bytes at all.
pub fn read_loop(reading: Reading, bytes: &[u8]) -> LoopRead
    ensures { result ≡ loop_read reading bytes.now }
{
    match judge(reading, bytes) {
        Err(refusal) => refused(refusal),
        Ok(judged) => LoopRead {
            outcome: Ok(()),
            count: judged.count,
            entries: entries_in(reading, judged.pair, bytes),
        },
    }
}
