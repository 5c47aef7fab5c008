// The set of the layers of a loop, straight from its bytes: these are judged first, and where they are accepted walked once more for the layers.
ghost use Rattle.std.specs.Prelude.{◌≡◌, map, length};
ghost use Rattle.es_loop.specs.Answer.{entries_judged};
ghost use Rattle.loop_entries.specs.Entries.{streams_of, entry_of};
ghost use Rattle.es_loop.specs.Reading.{verdict_of};
ghost use Rattle.layer_set.specs.Sets.{placed_of, loop_set};

use super::set::{LayerSet, Placed, empty, nothing_placed, place, work};
use es_loop::Judged;
use vocabulary::{Reading, Refusal};

// What is answered of a loop's bytes: the outcome and, where it is accepted, the set of its layers.
#[derive(Clone, Copy)]
pub struct SetRead {
    pub outcome: Result<(), Refusal>,
    pub set: LayerSet,
}

// The entries of a loop that was judged and accepted, each at its place.
fn placed_in(reading: Reading, pair: bool, bytes: &[u8]) -> Placed
    requires { verdict_of reading bytes.now ≡ entries_judged (length (streams_of reading bytes.now)) pair }
    ensures { result ≡ placed_of (map entry_of (streams_of reading bytes.now)) }
{
    let mut placed = nothing_placed();
    let mut at = 0;
    while at < bytes.len() {
        let left = &bytes[at..];
        let size = es_loop::entry_size(left);
        let stream = es_loop::read_stream(reading, pair, &left[..size]);
        placed = place(placed, es_loop::entry_of(stream));
        at += size;
    }
    placed
}

// THE SET OF A LOOP, implied layers included, or the refusal, 1 to 9.
pub fn read_set(reading: Reading, bytes: &[u8]) -> SetRead
    ensures { result ≡ loop_set reading bytes.now }
{
    match es_loop::judge(reading, bytes) {
        Ok(Judged { count: _, pair }) => {
            let set = work(placed_in(reading, pair, bytes));
            SetRead {
                outcome: Ok(()),
                set,
            }
        }
        Err(refusal) => {
            let set = empty();
            SetRead {
                outcome: Err(refusal),
                set,
            }
        }
    }
}
