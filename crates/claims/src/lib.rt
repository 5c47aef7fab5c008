// The rows that are claimed, as W-204 of document 02 has it: a closure row is claimed if a row of a closure layer that embeds its layer has a match time
// equal to its decoding time. Each closure row that is not claimed heads a unit.
// specs/Claims.antt has this as a definition that computes, specs/Meaning.antt in the request's words, and proofs/Meant.antt the proof that the two are one.
#![tactic(auto)]

ghost use Rattle.std.specs.Prelude.{false, ◌||◌, [], ◌≡◌, ◌≤◌, length, get_or};
ghost use Rattle.rows.specs.Table.{table};
ghost use Rattle.claims.specs.Claims.{claimed as claimed_of};
ghost use Rattle.claims.specs.Marks.{Stands, marked_at, timed_in, Sought, Claimable};

use closure::Layers;
use row_index::row_at;

// Takes away what stands at the first `count` places.
pub fn clear(marks: &mut [bool], count: usize)
    requires { count ≤ length marks.old }
    ensures { Stands count (λ _. false) marks.old marks.new }
{
    marks[..count].fill(false);
}

// Marks a row, where it is one of the first `count`.
fn mark(marks: &mut [bool], count: usize, row: usize)
    requires { count ≤ length marks.old }
    ensures { marks.new ≡ marked_at count row marks.old }
{
    if row < count {
        marks[row] = true;
    }
}

// Marks the rows of some layers that have a decoding time: at most one of each layer, found by the index of the rows. In `next` stands for each layer where
// to look first: whatever it is, the marks are the same.
fn mark_timed(
    indices: &[u8],
    decodings: &[u64],
    starts: &[usize; 65],
    order: &[usize],
    layers: u64,
    time: u64,
    next: &mut [usize; 64],
    marks: &mut [bool],
)
    requires { Sought (table indices.now decodings.now []) layers starts.now order.now × (length indices.now ≤ length marks.old) }
    ensures { Stands (length indices.now)
        (λ k. get_or marks.old k false || timed_in (table indices.now decodings.now []) layers time k)
        marks.old marks.new }
{
    let mut left = layers;
    while left != 0 {
        let layer = usize::from(sets::lowest(left));
        let row = row_at(indices, decodings, starts, order, layer, time, next);
        mark(marks, indices.len(), row);
        left = sets::rest(left);
    }
}

// THE CALL. The layers of a loop, the set of a closure's layer indices, the three columns of a table, and the index of its rows by layer: marks in `claimed`
// the rows that are claimed and no other. Beyond the rows it is as it was.
pub fn mark_claimed(
    layers: Layers,
    closure: u64,
    indices: &[u8],
    decodings: &[u64],
    matches: &[u64],
    starts: &[usize; 65],
    order: &[usize],
    claimed: &mut [bool],
)
    requires { Claimable layers closure (table indices.now decodings.now matches.now) starts.now order.now
        × (length indices.now ≤ length claimed.old) }
    ensures { Stands (length indices.now)
        (claimed_of layers closure (table indices.now decodings.now matches.now))
        claimed.old claimed.new }
{
    clear(claimed, indices.len());
    let mut next = [0usize; 64];
    for (row, &index) in indices.iter().enumerate() {
        let layer = usize::from(index);
        mark_timed(
            indices,
            decodings,
            starts,
            order,
            closure::named(closure, layers.embedded[layer], layer),
            matches[row],
            &mut next,
            claimed,
        );
    }
}
