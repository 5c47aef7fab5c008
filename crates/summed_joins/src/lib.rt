// Rows joined for C, as far as they were read: the units with their summary, or the refusal, as one number of 64 bits.
#![tactic(auto)]

ghost use Rattle.std.specs.Prelude.{◌≡◌, length};
ghost use Rattle.rows.specs.Table.{table};
ghost use Rattle.unit_lists.specs.Sequence.{lists};
ghost use Rattle.join_answers.specs.Joining.{most_long};
ghost use Rattle.join_answers.specs.Steps.{spaces};
ghost use Rattle.summed_joins.specs.Replies.{held_reply};

use closure::Layers;
use import_summaries::{summarise, without_summary};
use long_imports::join_held;
use recording_imports::Unread;

// Without room for the summary the units are found all the same, since every other number comes before 17, with lists of this function's own, so that the caller's are as
// they were.
pub fn join_summed(
    rows: Result<usize, Unread>,
    layers: Layers,
    target: u64,
    indices: &[u8],
    decodings: &[u64],
    matches: &[u64],
    order: &mut [usize],
    keys: &mut [u64],
    kept: &mut [usize],
    places: &mut [usize],
    heads: &mut [usize],
    claimed: &mut [bool],
    used: &mut [bool],
    numbers: &mut [u64],
    lags: &mut [i64],
    sizes: &mut [u64],
    summary: &mut [u64],
) -> u64
    ensures answer { result ≡ (held_reply (most_long (spaces (length order.old) (length keys.old) (length kept.old) (length places.old) (length heads.old) (length claimed.old) (length used.old))) layers target (table indices.now decodings.now matches.now) rows (lists numbers.old lags.old sizes.old) summary.old).answer }
    ensures content { lists numbers.new lags.new sizes.new ≡ (held_reply (most_long (spaces (length order.old) (length keys.old) (length kept.old) (length places.old) (length heads.old) (length claimed.old) (length used.old))) layers target (table indices.now decodings.now matches.now) rows (lists numbers.old lags.old sizes.old) summary.old).after }
    ensures summed { summary.new ≡ (held_reply (most_long (spaces (length order.old) (length keys.old) (length kept.old) (length places.old) (length heads.old) (length claimed.old) (length used.old))) layers target (table indices.now decodings.now matches.now) rows (lists numbers.old lags.old sizes.old) summary.old).summary }
{
    if summary.len() < 2 {
        let mut own_numbers = [0u64; 1];
        let mut own_lags = [0i64; 1];
        let mut own_sizes = [0u64; 1];
        let imported = join_held(
            rows,
            layers,
            target,
            indices,
            decodings,
            matches,
            order,
            keys,
            kept,
            places,
            heads,
            claimed,
            used,
            &mut own_numbers,
            &mut own_lags,
            &mut own_sizes,
        );
        return without_summary(imported);
    }
    let imported = join_held(
        rows, layers, target, indices, decodings, matches, order, keys, kept, places, heads,
        claimed, used, numbers, lags, sizes,
    );
    summarise(imported, summary)
}
