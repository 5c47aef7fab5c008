// The units of a recording that was fed, for C: the last step over the columns into which its pieces were fed. include/thoquenry.h documents the function; specs/ has
// one definition of its answer and of what its lists hold afterwards.
#![tactic(auto)]

ghost use Rattle.std.specs.Prelude.{◌≡◌, length};
ghost use Rattle.rows.specs.Table.{table};
ghost use Rattle.unit_lists.specs.Sequence.{lists};
ghost use Rattle.join_answers.specs.Joining.{most_long};
ghost use Rattle.join_answers.specs.Steps.{spaces};
ghost use Rattle.thoquenry_units.specs.Units.{units_told, units_call};

use c_answers::not_a_call;
use import_summaries::{summarise, without_summary};
use long_imports::import_told;
use recordings::RecordingFault;

// The units of a recording with its answer. Without room for the summary they are found all the same, since every other number comes before 17, with lists of this
// function's own, so that the caller's are as they were.
fn units_told(
    bytes: &[u8],
    target: u64,
    recording: Result<usize, RecordingFault>,
    indices: &[u8],
    decodings: &[u64],
    matches: &[u64],
    order: &mut [usize],
    keys: &mut [u64],
    kept: &mut [usize],
    places: &mut [usize],
    heads: &mut [usize],
    claimed: &mut [bool],
    used: &mut [bool],
    numbers: &mut [u64],
    lags: &mut [i64],
    sizes: &mut [u64],
    summary: &mut [u64],
) -> u64
    ensures answer { result ≡ (units_told (most_long (spaces (length order.old) (length keys.old) (length kept.old) (length places.old) (length heads.old) (length claimed.old) (length used.old))) bytes.now target recording (table indices.now decodings.now matches.now) (lists numbers.old lags.old sizes.old) summary.old).answer }
    ensures content { lists numbers.new lags.new sizes.new ≡ (units_told (most_long (spaces (length order.old) (length keys.old) (length kept.old) (length places.old) (length heads.old) (length claimed.old) (length used.old))) bytes.now target recording (table indices.now decodings.now matches.now) (lists numbers.old lags.old sizes.old) summary.old).after }
    ensures summed { summary.new ≡ (units_told (most_long (spaces (length order.old) (length keys.old) (length kept.old) (length places.old) (length heads.old) (length claimed.old) (length used.old))) bytes.now target recording (table indices.now decodings.now matches.now) (lists numbers.old lags.old sizes.old) summary.old).summary }
{
    if summary.len() < 2 {
        let mut own_numbers = [0u64; 1];
        let mut own_lags = [0i64; 1];
        let mut own_sizes = [0u64; 1];
        let imported = import_told(
            bytes,
            target,
            recording,
            indices,
            decodings,
            matches,
            order,
            keys,
            kept,
            places,
            heads,
            claimed,
            used,
            &mut own_numbers,
            &mut own_lags,
            &mut own_sizes,
        );
        return without_summary(imported);
    }
    let imported = import_told(
        bytes, target, recording, indices, decodings, matches, order, keys, kept, places, heads,
        claimed, used, numbers, lags, sizes,
    );
    summarise(imported, summary)
}

pub fn thq_packets_units(
    bytes: &[u8],
    target: u64,
    state: &[u8],
    counts: &[u64],
    indices: &[u8],
    decodings: &[u64],
    matches: &[u64],
    order: &mut [usize],
    keys: &mut [u64],
    kept: &mut [usize],
    places: &mut [usize],
    heads: &mut [usize],
    claimed: &mut [bool],
    used: &mut [bool],
    numbers: &mut [u64],
    lags: &mut [i64],
    sizes: &mut [u64],
    summary: &mut [u64],
) -> u64
    ensures answer { result ≡ (units_call (most_long (spaces (length order.old) (length keys.old) (length kept.old) (length places.old) (length heads.old) (length claimed.old) (length used.old))) bytes.now target state.now counts.now (table indices.now decodings.now matches.now) (lists numbers.old lags.old sizes.old) summary.old).answer }
    ensures content { lists numbers.new lags.new sizes.new ≡ (units_call (most_long (spaces (length order.old) (length keys.old) (length kept.old) (length places.old) (length heads.old) (length claimed.old) (length used.old))) bytes.now target state.now counts.now (table indices.now decodings.now matches.now) (lists numbers.old lags.old sizes.old) summary.old).after }
    ensures summed { summary.new ≡ (units_call (most_long (spaces (length order.old) (length keys.old) (length kept.old) (length places.old) (length heads.old) (length claimed.old) (length used.old))) bytes.now target state.now counts.now (table indices.now decodings.now matches.now) (lists numbers.old lags.old sizes.old) summary.old).summary }
{
    if !packet_states::is_state(state, counts) {
        return not_a_call();
    }
    let recording = thoquenry_pieces::told(state, counts);
    units_told(
        bytes, target, recording, indices, decodings, matches, order, keys, kept, places, heads,
        claimed, used, numbers, lags, sizes, summary,
    )
}
