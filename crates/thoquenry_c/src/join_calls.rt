// Rows joined to units: over layers that the caller gives, with work space of the caller's, and over the layers of a loop's bytes.
ghost use Rattle.std.specs.Prelude.{◌≡◌, length};
ghost use Rattle.rows.specs.Table.{table};
ghost use Rattle.unit_lists.specs.Sequence.{lists};
ghost use Rattle.thoquenry_joins.specs.Joins.{join_call, join_long_call, import_call};
ghost use Rattle.join_answers.specs.Joining.{most_long};
ghost use Rattle.join_answers.specs.Steps.{spaces};

#[unsafe(no_mangle)]
pub extern "C" fn thq_join(
    present: u64,
    embedded: &[u64],
    target: u64,
    indices: &[u8],
    decodings: &[u64],
    matches: &[u64],
    numbers: &mut [u64],
    lags: &mut [i64],
    sizes: &mut [u64],
    summary: &mut [u64],
) -> u64
    ensures answer { result ≡ (join_call present embedded.now target (table indices.now decodings.now matches.now) (lists numbers.old lags.old sizes.old) summary.old).answer }
    ensures content { lists numbers.new lags.new sizes.new ≡ (join_call present embedded.now target (table indices.now decodings.now matches.now) (lists numbers.old lags.old sizes.old) summary.old).after }
    ensures summed { summary.new ≡ (join_call present embedded.now target (table indices.now decodings.now matches.now) (lists numbers.old lags.old sizes.old) summary.old).summary }
{
    thoquenry_joins::thq_join(
        present, embedded, target, indices, decodings, matches, numbers, lags, sizes, summary,
    )
}

#[unsafe(no_mangle)]
pub extern "C" fn thq_join_long(
    present: u64,
    embedded: &[u64],
    target: u64,
    indices: &[u8],
    decodings: &[u64],
    matches: &[u64],
    order: &mut [usize],
    keys: &mut [u64],
    kept: &mut [usize],
    places: &mut [usize],
    heads: &mut [usize],
    claimed: &mut [bool],
    used: &mut [bool],
    numbers: &mut [u64],
    lags: &mut [i64],
    sizes: &mut [u64],
    summary: &mut [u64],
) -> u64
    ensures answer { result ≡ (join_long_call (most_long (spaces (length order.old) (length keys.old) (length kept.old) (length places.old) (length heads.old) (length claimed.old) (length used.old))) present embedded.now target (table indices.now decodings.now matches.now) (lists numbers.old lags.old sizes.old) summary.old).answer }
    ensures content { lists numbers.new lags.new sizes.new ≡ (join_long_call (most_long (spaces (length order.old) (length keys.old) (length kept.old) (length places.old) (length heads.old) (length claimed.old) (length used.old))) present embedded.now target (table indices.now decodings.now matches.now) (lists numbers.old lags.old sizes.old) summary.old).after }
    ensures summed { summary.new ≡ (join_long_call (most_long (spaces (length order.old) (length keys.old) (length kept.old) (length places.old) (length heads.old) (length claimed.old) (length used.old))) present embedded.now target (table indices.now decodings.now matches.now) (lists numbers.old lags.old sizes.old) summary.old).summary }
{
    thoquenry_joins::thq_join_long(
        present, embedded, target, indices, decodings, matches, order, keys, kept, places, heads,
        claimed, used, numbers, lags, sizes, summary,
    )
}

#[unsafe(no_mangle)]
pub extern "C" fn thq_import(
    reading: u64,
    bytes: &[u8],
    target: u64,
    indices: &[u8],
    decodings: &[u64],
    matches: &[u64],
    numbers: &mut [u64],
    lags: &mut [i64],
    sizes: &mut [u64],
    summary: &mut [u64],
) -> u64
    ensures answer { result ≡ (import_call reading bytes.now target (table indices.now decodings.now matches.now) (lists numbers.old lags.old sizes.old) summary.old).answer }
    ensures content { lists numbers.new lags.new sizes.new ≡ (import_call reading bytes.now target (table indices.now decodings.now matches.now) (lists numbers.old lags.old sizes.old) summary.old).after }
    ensures summed { summary.new ≡ (import_call reading bytes.now target (table indices.now decodings.now matches.now) (lists numbers.old lags.old sizes.old) summary.old).summary }
{
    thoquenry_joins::thq_import(
        reading, bytes, target, indices, decodings, matches, numbers, lags, sizes, summary,
    )
}
