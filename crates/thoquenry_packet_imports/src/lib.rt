// The whole import of a loop, a target and the packets of a recording for C, and for whatever calls C. include/thoquenry.h documents each function; the definitions of their
// answers, and of what their lists hold afterwards, are `import_placed` of the crate `summed_joins` and `import_columns` of `recording_imports`. The loop is read by the 2015
// reading. The call takes the steps of `long_imports::import_long` itself: what a step promises is of values at hand.
#![tactic(auto)]

ghost use Rattle.std.specs.Prelude.{◌≡◌, length};
ghost use Rattle.rows.specs.Table.{most_rows};
ghost use Rattle.unit_lists.specs.Sequence.{lists};
ghost use Rattle.join_answers.specs.Joining.{most_long};
ghost use Rattle.join_answers.specs.Steps.{spaces};
ghost use Rattle.recording_rows.specs.Columns.{columns};
ghost use Rattle.recording_imports.specs.Imports.{places_for, import_columns};
ghost use Rattle.summed_joins.specs.Replies.{import_placed};

use join_answers::most_long;
use recording_imports::{ask, pid_table, read_for};
use rows::MOST_ROWS;
use summed_joins::join_summed;

pub fn thq_packets_import_long(
    bytes: &[u8],
    target: u64,
    packets: &[u8],
    indices: &mut [u8],
    decodings: &mut [u64],
    matches: &mut [u64],
    trefs: &mut [u8],
    packet_numbers: &mut [u64],
    order: &mut [usize],
    keys: &mut [u64],
    kept: &mut [usize],
    places: &mut [usize],
    heads: &mut [usize],
    claimed: &mut [bool],
    used: &mut [bool],
    numbers: &mut [u64],
    lags: &mut [i64],
    sizes: &mut [u64],
    summary: &mut [u64],
) -> u64
    ensures answer { result ≡ (import_placed (places_for (most_long (spaces (length order.old) (length keys.old) (length kept.old) (length places.old) (length heads.old) (length claimed.old) (length used.old))) (columns indices.old decodings.old matches.old trefs.old packet_numbers.old)) bytes.now target packets.now (lists numbers.old lags.old sizes.old) summary.old).answer }
    ensures rows { columns indices.new decodings.new matches.new trefs.new packet_numbers.new ≡ import_columns (places_for (most_long (spaces (length order.old) (length keys.old) (length kept.old) (length places.old) (length heads.old) (length claimed.old) (length used.old))) (columns indices.old decodings.old matches.old trefs.old packet_numbers.old)) bytes.now target packets.now (columns indices.old decodings.old matches.old trefs.old packet_numbers.old) }
    ensures content { lists numbers.new lags.new sizes.new ≡ (import_placed (places_for (most_long (spaces (length order.old) (length keys.old) (length kept.old) (length places.old) (length heads.old) (length claimed.old) (length used.old))) (columns indices.old decodings.old matches.old trefs.old packet_numbers.old)) bytes.now target packets.now (lists numbers.old lags.old sizes.old) summary.old).after }
    ensures summed { summary.new ≡ (import_placed (places_for (most_long (spaces (length order.old) (length keys.old) (length kept.old) (length places.old) (length heads.old) (length claimed.old) (length used.old))) (columns indices.old decodings.old matches.old trefs.old packet_numbers.old)) bytes.now target packets.now (lists numbers.old lags.old sizes.old) summary.old).summary }
{
    let asked = ask(bytes, target);
    let outcome = asked.outcome;
    let layer_table = asked.table;
    let layers = layer_table.layers;
    let pids = pid_table(layer_table);
    let most = most_long(
        order.len(),
        keys.len(),
        kept.len(),
        places.len(),
        heads.len(),
        claimed.len(),
        used.len(),
    );
    let rows = read_for(
        outcome,
        &pids,
        packets,
        &mut keys[..most],
        indices,
        decodings,
        matches,
        trefs,
        packet_numbers,
    );
    join_summed(
        rows, layers, target, indices, decodings, matches, order, keys, kept, places, heads,
        claimed, used, numbers, lags, sizes, summary,
    )
}

// At most 512 rows, in columns and work space of its own.
pub fn thq_packets_import(
    bytes: &[u8],
    target: u64,
    packets: &[u8],
    numbers: &mut [u64],
    lags: &mut [i64],
    sizes: &mut [u64],
    summary: &mut [u64],
) -> u64
    ensures answer { result ≡ (import_placed most_rows bytes.now target packets.now (lists numbers.old lags.old sizes.old) summary.old).answer }
    ensures content { lists numbers.new lags.new sizes.new ≡ (import_placed most_rows bytes.now target packets.now (lists numbers.old lags.old sizes.old) summary.old).after }
    ensures summed { summary.new ≡ (import_placed most_rows bytes.now target packets.now (lists numbers.old lags.old sizes.old) summary.old).summary }
{
    let mut indices = [0u8; MOST_ROWS];
    let mut decodings = [0u64; MOST_ROWS];
    let mut matches = [0u64; MOST_ROWS];
    let mut trefs = [0u8; MOST_ROWS];
    let mut packet_numbers = [0u64; MOST_ROWS];
    let mut order = [0usize; MOST_ROWS];
    let mut keys = [0u64; MOST_ROWS];
    let mut kept = [0usize; MOST_ROWS];
    let mut places = [0usize; MOST_ROWS];
    let mut heads = [0usize; MOST_ROWS];
    let mut claimed = [false; MOST_ROWS];
    let mut used = [false; MOST_ROWS];
    thq_packets_import_long(
        bytes,
        target,
        packets,
        &mut indices,
        &mut decodings,
        &mut matches,
        &mut trefs,
        &mut packet_numbers,
        &mut order,
        &mut keys,
        &mut kept,
        &mut places,
        &mut heads,
        &mut claimed,
        &mut used,
        numbers,
        lags,
        sizes,
        summary,
    )
}
