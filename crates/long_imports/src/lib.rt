// The whole import of a loop, a target and the packets of a recording, of any length, in columns and work space that the caller lends; the same for at most 512 rows, with
// columns of its own; and the last step alone, for a recording that was read already. The crate `recording_imports` has the definitions, and the crate `recording_meaning` what is right.
#![tactic(auto)]

ghost use Rattle.std.specs.Prelude.{◌≡◌, min, length};
ghost use Rattle.rows.specs.Table.{table, most_rows};
ghost use Rattle.unit_lists.specs.Sequence.{lists};
ghost use Rattle.join_answers.specs.Joining.{room_of, most_long};
ghost use Rattle.join_answers.specs.Steps.{spaces};
ghost use Rattle.recording_rows.specs.Columns.{columns};
ghost use Rattle.recording_imports.specs.Imports.{held_rows, rows_held, join_held, lists_held, import_told, lists_told, places_for, import_of, import_columns, import_lists};

use closure::Layers;
use join_answers::{Units, most_long};
use recording_imports::{Unread, ask, held_rows, imported_of, pid_table, read_for, rows_for};
use recordings::RecordingFault;
use rows::MOST_ROWS;

// 13 where there are more rows than the work space or a column holds.
fn held_in(
    rows: Result<usize, Unread>,
    most: usize,
    indices: usize,
    decodings: usize,
    matches: usize,
) -> Result<usize, Unread>
    ensures { result ≡ held_rows (min most (min indices (min decodings matches))) rows }
{
    held_rows(most.min(indices.min(decodings.min(matches))), rows)
}

// THE LAST STEP: the first rows of the columns, as many as were read, joined; or why there are none. What the work space holds afterwards says nothing.
pub fn join_held(
    rows: Result<usize, Unread>,
    layers: Layers,
    target: u64,
    indices: &[u8],
    decodings: &[u64],
    matches: &[u64],
    order: &mut [usize],
    keys: &mut [u64],
    kept: &mut [usize],
    places: &mut [usize],
    heads: &mut [usize],
    claimed: &mut [bool],
    used: &mut [bool],
    numbers: &mut [u64],
    lags: &mut [i64],
    sizes: &mut [u64],
) -> Result<Units, Unread>
    ensures answer { result
        ≡ join_held (most_long (spaces (length order.old) (length keys.old) (length kept.old) (length places.old)
        (length heads.old) (length claimed.old) (length used.old))) layers target
        (table indices.now decodings.now matches.now)
        (room_of (lists numbers.old lags.old sizes.old))
        (rows_held (most_long (spaces (length order.old) (length keys.old) (length kept.old) (length places.old)
        (length heads.old) (length claimed.old) (length used.old)))
        (table indices.now decodings.now matches.now) rows) }
    ensures content { lists numbers.new lags.new sizes.new
        ≡ lists_held layers (table indices.now decodings.now matches.now)
        (rows_held (most_long (spaces (length order.old) (length keys.old) (length kept.old) (length places.old)
        (length heads.old) (length claimed.old) (length used.old)))
        (table indices.now decodings.now matches.now) rows) result
        (lists numbers.old lags.old sizes.old) }
{
    let most = most_long(
        order.len(),
        keys.len(),
        kept.len(),
        places.len(),
        heads.len(),
        claimed.len(),
        used.len(),
    );
    let held = held_in(rows, most, indices.len(), decodings.len(), matches.len());
    let count = held?;
    imported_of(joining::join_long(
        layers,
        target,
        &indices[..count],
        &decodings[..count],
        &matches[..count],
        order,
        keys,
        kept,
        places,
        heads,
        claimed,
        used,
        numbers,
        lags,
        sizes,
    ))
}

// THE SAME FOR A RECORDING THAT WAS READ ALREADY, of which its answer is known and its rows lie in the columns: the loop is read and its target asked, and then the rows are
// joined. It answers the loop's numbers, 11, 12, what the recording answered, 13 where a column or the work space does not hold its rows, and then joining's.
pub fn import_told(
    bytes: &[u8],
    target: u64,
    recording: Result<usize, RecordingFault>,
    indices: &[u8],
    decodings: &[u64],
    matches: &[u64],
    order: &mut [usize],
    keys: &mut [u64],
    kept: &mut [usize],
    places: &mut [usize],
    heads: &mut [usize],
    claimed: &mut [bool],
    used: &mut [bool],
    numbers: &mut [u64],
    lags: &mut [i64],
    sizes: &mut [u64],
) -> Result<Units, Unread>
    ensures answer { result
        ≡ import_told (most_long (spaces (length order.old) (length keys.old) (length kept.old) (length places.old)
        (length heads.old) (length claimed.old) (length used.old))) bytes.now target recording
        (table indices.now decodings.now matches.now)
        (room_of (lists numbers.old lags.old sizes.old)) }
    ensures content { lists numbers.new lags.new sizes.new
        ≡ lists_told (most_long (spaces (length order.old) (length keys.old) (length kept.old) (length places.old)
        (length heads.old) (length claimed.old) (length used.old))) bytes.now target recording
        (table indices.now decodings.now matches.now) result
        (lists numbers.old lags.old sizes.old) }
{
    let asked = ask(bytes, target);
    let outcome = asked.outcome;
    let layer_table = asked.table;
    let layers = layer_table.layers;
    let rows = rows_for(outcome, recording);
    join_held(
        rows, layers, target, indices, decodings, matches, order, keys, kept, places, heads,
        claimed, used, numbers, lags, sizes,
    )
}

// THE CALL FOR RECORDINGS OF ANY LENGTH: the bytes of a loop, a target, the bytes of a recording, five columns for its rows, seven lists for the work, and three for the
// answer, all of any lengths. Columns and work space say together how many rows there may be. The columns hold the rows as soon as these are accepted, so that a refusal of joining
// can be looked up in them; after any lower number they are as they were, and after a refusal so are the three lists. What the work space holds afterwards says nothing.
pub fn import_long(
    bytes: &[u8],
    target: u64,
    packets: &[u8],
    indices: &mut [u8],
    decodings: &mut [u64],
    matches: &mut [u64],
    trefs: &mut [u8],
    packet_numbers: &mut [u64],
    order: &mut [usize],
    keys: &mut [u64],
    kept: &mut [usize],
    places: &mut [usize],
    heads: &mut [usize],
    claimed: &mut [bool],
    used: &mut [bool],
    numbers: &mut [u64],
    lags: &mut [i64],
    sizes: &mut [u64],
) -> Result<Units, Unread>
    ensures answer { result
        ≡ import_of (places_for (most_long (spaces (length order.old) (length keys.old) (length kept.old) (length places.old)
        (length heads.old) (length claimed.old) (length used.old)))
        (columns indices.old decodings.old matches.old trefs.old packet_numbers.old))
        bytes.now target packets.now (room_of (lists numbers.old lags.old sizes.old)) }
    ensures rows { columns indices.new decodings.new matches.new trefs.new packet_numbers.new
        ≡ import_columns (places_for (most_long (spaces (length order.old) (length keys.old) (length kept.old) (length places.old)
        (length heads.old) (length claimed.old) (length used.old)))
        (columns indices.old decodings.old matches.old trefs.old packet_numbers.old))
        bytes.now target packets.now
        (columns indices.old decodings.old matches.old trefs.old packet_numbers.old) }
    ensures content { lists numbers.new lags.new sizes.new
        ≡ import_lists bytes.now packets.now result (lists numbers.old lags.old sizes.old) }
{
    let asked = ask(bytes, target);
    let outcome = asked.outcome;
    let layer_table = asked.table;
    let layers = layer_table.layers;
    let pids = pid_table(layer_table);
    let most = most_long(
        order.len(),
        keys.len(),
        kept.len(),
        places.len(),
        heads.len(),
        claimed.len(),
        used.len(),
    );
    let rows = read_for(
        outcome,
        &pids,
        packets,
        &mut keys[..most],
        indices,
        decodings,
        matches,
        trefs,
        packet_numbers,
    );
    join_held(
        rows, layers, target, indices, decodings, matches, order, keys, kept, places, heads,
        claimed, used, numbers, lags, sizes,
    )
}

// THE CALL for recordings of at most 512 rows, with columns and work space of its own.
pub fn import(
    bytes: &[u8],
    target: u64,
    packets: &[u8],
    numbers: &mut [u64],
    lags: &mut [i64],
    sizes: &mut [u64],
) -> Result<Units, Unread>
    ensures answer { result
        ≡ import_of most_rows bytes.now target packets.now
        (room_of (lists numbers.old lags.old sizes.old)) }
    ensures content { lists numbers.new lags.new sizes.new
        ≡ import_lists bytes.now packets.now result (lists numbers.old lags.old sizes.old) }
{
    let mut indices = [0u8; MOST_ROWS];
    let mut decodings = [0u64; MOST_ROWS];
    let mut matches = [0u64; MOST_ROWS];
    let mut trefs = [0u8; MOST_ROWS];
    let mut packet_numbers = [0u64; MOST_ROWS];
    let mut order = [0usize; MOST_ROWS];
    let mut keys = [0u64; MOST_ROWS];
    let mut kept = [0usize; MOST_ROWS];
    let mut places = [0usize; MOST_ROWS];
    let mut heads = [0usize; MOST_ROWS];
    let mut claimed = [false; MOST_ROWS];
    let mut used = [false; MOST_ROWS];
    import_long(
        bytes,
        target,
        packets,
        &mut indices,
        &mut decodings,
        &mut matches,
        &mut trefs,
        &mut packet_numbers,
        &mut order,
        &mut keys,
        &mut kept,
        &mut places,
        &mut heads,
        &mut claimed,
        &mut used,
        numbers,
        lags,
        sizes,
    )
}
