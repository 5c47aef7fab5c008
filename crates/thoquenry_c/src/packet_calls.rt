// A recording in one call: its rows, and the whole import of a loop, a target and its packets.
ghost use Rattle.std.specs.Prelude.{◌≡◌, length};
ghost use Rattle.recording_rows.specs.Columns.{columns};
ghost use Rattle.thoquenry_packets.specs.Calls.{rows_call};
ghost use Rattle.unit_lists.specs.Sequence.{lists};
ghost use Rattle.join_answers.specs.Joining.{most_long};
ghost use Rattle.join_answers.specs.Steps.{spaces};
ghost use Rattle.recording_imports.specs.Imports.{places_for, import_columns};
ghost use Rattle.summed_joins.specs.Replies.{import_placed};
ghost use Rattle.rows.specs.Table.{most_rows};

#[unsafe(no_mangle)]
pub extern "C" fn thq_packets_rows(
    bytes: &[u8],
    packets: &[u8],
    starts: &mut [u64],
    indices: &mut [u8],
    decodings: &mut [u64],
    matches: &mut [u64],
    trefs: &mut [u8],
    numbers: &mut [u64],
) -> u64
    ensures answer { result ≡ (rows_call bytes.now packets.now (length starts.old) (columns indices.old decodings.old matches.old trefs.old numbers.old)).answer }
    ensures content { columns indices.new decodings.new matches.new trefs.new numbers.new ≡ (rows_call bytes.now packets.now (length starts.old) (columns indices.old decodings.old matches.old trefs.old numbers.old)).after }
{
    thoquenry_packets::thq_packets_rows(
        bytes, packets, starts, indices, decodings, matches, trefs, numbers,
    )
}

#[unsafe(no_mangle)]
pub extern "C" fn thq_packets_import_long(
    bytes: &[u8],
    target: u64,
    packets: &[u8],
    indices: &mut [u8],
    decodings: &mut [u64],
    matches: &mut [u64],
    trefs: &mut [u8],
    packet_numbers: &mut [u64],
    order: &mut [usize],
    keys: &mut [u64],
    kept: &mut [usize],
    places: &mut [usize],
    heads: &mut [usize],
    claimed: &mut [bool],
    used: &mut [bool],
    numbers: &mut [u64],
    lags: &mut [i64],
    sizes: &mut [u64],
    summary: &mut [u64],
) -> u64
    ensures answer { result ≡ (import_placed (places_for (most_long (spaces (length order.old) (length keys.old) (length kept.old) (length places.old) (length heads.old) (length claimed.old) (length used.old))) (columns indices.old decodings.old matches.old trefs.old packet_numbers.old)) bytes.now target packets.now (lists numbers.old lags.old sizes.old) summary.old).answer }
    ensures rows { columns indices.new decodings.new matches.new trefs.new packet_numbers.new ≡ import_columns (places_for (most_long (spaces (length order.old) (length keys.old) (length kept.old) (length places.old) (length heads.old) (length claimed.old) (length used.old))) (columns indices.old decodings.old matches.old trefs.old packet_numbers.old)) bytes.now target packets.now (columns indices.old decodings.old matches.old trefs.old packet_numbers.old) }
    ensures content { lists numbers.new lags.new sizes.new ≡ (import_placed (places_for (most_long (spaces (length order.old) (length keys.old) (length kept.old) (length places.old) (length heads.old) (length claimed.old) (length used.old))) (columns indices.old decodings.old matches.old trefs.old packet_numbers.old)) bytes.now target packets.now (lists numbers.old lags.old sizes.old) summary.old).after }
    ensures summed { summary.new ≡ (import_placed (places_for (most_long (spaces (length order.old) (length keys.old) (length kept.old) (length places.old) (length heads.old) (length claimed.old) (length used.old))) (columns indices.old decodings.old matches.old trefs.old packet_numbers.old)) bytes.now target packets.now (lists numbers.old lags.old sizes.old) summary.old).summary }
{
    thoquenry_packet_imports::thq_packets_import_long(
        bytes,
        target,
        packets,
        indices,
        decodings,
        matches,
        trefs,
        packet_numbers,
        order,
        keys,
        kept,
        places,
        heads,
        claimed,
        used,
        numbers,
        lags,
        sizes,
        summary,
    )
}

#[unsafe(no_mangle)]
pub extern "C" fn thq_packets_import(
    bytes: &[u8],
    target: u64,
    packets: &[u8],
    numbers: &mut [u64],
    lags: &mut [i64],
    sizes: &mut [u64],
    summary: &mut [u64],
) -> u64
    ensures answer { result ≡ (import_placed most_rows bytes.now target packets.now (lists numbers.old lags.old sizes.old) summary.old).answer }
    ensures content { lists numbers.new lags.new sizes.new ≡ (import_placed most_rows bytes.now target packets.now (lists numbers.old lags.old sizes.old) summary.old).after }
    ensures summed { summary.new ≡ (import_placed most_rows bytes.now target packets.now (lists numbers.old lags.old sizes.old) summary.old).summary }
{
    thoquenry_packet_imports::thq_packets_import(
        bytes, target, packets, numbers, lags, sizes, summary,
    )
}
