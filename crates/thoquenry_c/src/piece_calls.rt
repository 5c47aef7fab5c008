// A recording in pieces: begun, fed, asked, and its units.
ghost use Rattle.std.specs.Prelude.{◌≡◌, length};
ghost use Rattle.thoquenry_pieces.specs.Calls.{state_reply, start_call, FeedCall, told_call};
ghost use Rattle.recording_rows.specs.Columns.{columns};
ghost use Rattle.rows.specs.Table.{table};
ghost use Rattle.unit_lists.specs.Sequence.{lists};
ghost use Rattle.join_answers.specs.Joining.{most_long};
ghost use Rattle.join_answers.specs.Steps.{spaces};
ghost use Rattle.thoquenry_units.specs.Units.{units_call};

#[unsafe(no_mangle)]
pub extern "C" fn thq_packets_start(bytes: &[u8], state: &mut [u8], counts: &mut [u64]) -> u64
    ensures { state_reply result state.new counts.new ≡ start_call bytes.now state.old counts.old }
{
    thoquenry_pieces::thq_packets_start(bytes, state, counts)
}

#[unsafe(no_mangle)]
pub extern "C" fn thq_packets_feed(
    piece: &[u8],
    state: &mut [u8],
    counts: &mut [u64],
    indices: &mut [u8],
    decodings: &mut [u64],
    matches: &mut [u64],
    trefs: &mut [u8],
    numbers: &mut [u64],
) -> u64
    ensures { FeedCall piece.now state.old counts.old
        (columns indices.old decodings.old matches.old trefs.old numbers.old)
        result state.new counts.new
        (columns indices.new decodings.new matches.new trefs.new numbers.new) }
{
    thoquenry_pieces::thq_packets_feed(
        piece, state, counts, indices, decodings, matches, trefs, numbers,
    )
}

#[unsafe(no_mangle)]
pub extern "C" fn thq_packets_told(state: &[u8], counts: &[u64]) -> u64
    ensures { result ≡ told_call state.now counts.now }
{
    thoquenry_pieces::thq_packets_told(state, counts)
}

#[unsafe(no_mangle)]
pub extern "C" fn thq_packets_units(
    bytes: &[u8],
    target: u64,
    state: &[u8],
    counts: &[u64],
    indices: &[u8],
    decodings: &[u64],
    matches: &[u64],
    order: &mut [usize],
    keys: &mut [u64],
    kept: &mut [usize],
    places: &mut [usize],
    heads: &mut [usize],
    claimed: &mut [bool],
    used: &mut [bool],
    numbers: &mut [u64],
    lags: &mut [i64],
    sizes: &mut [u64],
    summary: &mut [u64],
) -> u64
    ensures answer { result ≡ (units_call (most_long (spaces (length order.old) (length keys.old) (length kept.old) (length places.old) (length heads.old) (length claimed.old) (length used.old))) bytes.now target state.now counts.now (table indices.now decodings.now matches.now) (lists numbers.old lags.old sizes.old) summary.old).answer }
    ensures content { lists numbers.new lags.new sizes.new ≡ (units_call (most_long (spaces (length order.old) (length keys.old) (length kept.old) (length places.old) (length heads.old) (length claimed.old) (length used.old))) bytes.now target state.now counts.now (table indices.now decodings.now matches.now) (lists numbers.old lags.old sizes.old) summary.old).after }
    ensures summed { summary.new ≡ (units_call (most_long (spaces (length order.old) (length keys.old) (length kept.old) (length places.old) (length heads.old) (length claimed.old) (length used.old))) bytes.now target state.now counts.now (table indices.now decodings.now matches.now) (lists numbers.old lags.old sizes.old) summary.old).summary }
{
    thoquenry_units::thq_packets_units(
        bytes, target, state, counts, indices, decodings, matches, order, keys, kept, places,
        heads, claimed, used, numbers, lags, sizes, summary,
    )
}
