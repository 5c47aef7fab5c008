// Rows joined to units, for C: over layers that the caller gives, with work space of the caller's, and over the layers of a loop's bytes. include/thoquenry.h
// documents each; specs/Joins.antt has, for each, one definition of its answer and of what its lists hold afterwards.
#![tactic(auto)]

ghost use Rattle.std.specs.Prelude.{◌≡◌, ◌≤◌, length, Some};
ghost use Rattle.rows.specs.Table.{table, most_rows};
ghost use Rattle.unit_lists.specs.Sequence.{lists};
ghost use Rattle.join_answers.specs.Joining.{most_long};
ghost use Rattle.join_answers.specs.Steps.{spaces};
ghost use Rattle.thoquenry_joins.specs.Joins.{layers_given, with_summary, joined_answer, summary_after, join_over, join_call, join_long_call, import_asked, import_call};

use c_answers::{accepted, not_a_call, reading_of, refused};
use closure::Layers;
use joining::Units;
use vocabulary::{Reading, Refusal};

// The layers that a caller gives. A number that is not there is the empty set.
fn layers_given(present: u64, embedded: &[u64]) -> Layers
    ensures { result ≡ layers_given present embedded.now }
{
    let mut named = [0u64; 64];
    let end = embedded.len().min(64);
    for i in 0..end {
        named[i] = embedded[i];
    }
    Layers {
        present,
        embedded: named,
    }
}

// The answer, and the summary where rows were joined.
fn summarise(joined: Result<Units, Refusal>, summary: &mut [u64]) -> u64
    requires { 2 ≤ length summary.old }
    ensures answer { result ≡ joined_answer joined }
    ensures content { summary.new ≡ summary_after joined summary.old }
{
    match joined {
        Ok(found) => {
            summary[0] = found.closure;
            summary[1] = found.units as u64;
            accepted(found.rows)
        }
        Err(refusal) => refused(refusal),
    }
}

// The answer where the summary has no room: 17 in place of the units, and every lower number as it is.
fn without_summary(joined: Result<Units, Refusal>) -> u64
    ensures { result ≡ joined_answer (with_summary 0 joined) }
{
    match joined {
        Ok(_) => refused(Refusal::NoRoom),
        Err(refusal) => refused(refusal),
    }
}

// The rows joined over the layers. Without room for the summary the units are found all the same, since 11 to 16 and 18 come before 17, with lists of
// this function's own, so that the caller's are as they were.
fn join_over(
    layers: Layers,
    target: u64,
    indices: &[u8],
    decodings: &[u64],
    matches: &[u64],
    numbers: &mut [u64],
    lags: &mut [i64],
    sizes: &mut [u64],
    summary: &mut [u64],
) -> u64
    ensures answer { result ≡ (join_over most_rows layers target (table indices.now decodings.now matches.now) (lists numbers.old lags.old sizes.old) summary.old).answer }
    ensures content { lists numbers.new lags.new sizes.new ≡ (join_over most_rows layers target (table indices.now decodings.now matches.now) (lists numbers.old lags.old sizes.old) summary.old).after }
    ensures summed { summary.new ≡ (join_over most_rows layers target (table indices.now decodings.now matches.now) (lists numbers.old lags.old sizes.old) summary.old).summary }
{
    if summary.len() < 2 {
        let mut own_numbers = [0u64; 1];
        let mut own_lags = [0i64; 1];
        let mut own_sizes = [0u64; 1];
        let joined = joining::join(
            layers,
            target,
            indices,
            decodings,
            matches,
            &mut own_numbers,
            &mut own_lags,
            &mut own_sizes,
        );
        return without_summary(joined);
    }
    let joined = joining::join(
        layers, target, indices, decodings, matches, numbers, lags, sizes,
    );
    summarise(joined, summary)
}

pub fn thq_join(
    present: u64,
    embedded: &[u64],
    target: u64,
    indices: &[u8],
    decodings: &[u64],
    matches: &[u64],
    numbers: &mut [u64],
    lags: &mut [i64],
    sizes: &mut [u64],
    summary: &mut [u64],
) -> u64
    ensures answer { result ≡ (join_call present embedded.now target (table indices.now decodings.now matches.now) (lists numbers.old lags.old sizes.old) summary.old).answer }
    ensures content { lists numbers.new lags.new sizes.new ≡ (join_call present embedded.now target (table indices.now decodings.now matches.now) (lists numbers.old lags.old sizes.old) summary.old).after }
    ensures summed { summary.new ≡ (join_call present embedded.now target (table indices.now decodings.now matches.now) (lists numbers.old lags.old sizes.old) summary.old).summary }
{
    let layers = layers_given(present, embedded);
    join_over(
        layers, target, indices, decodings, matches, numbers, lags, sizes, summary,
    )
}

// The same with work space of the caller's.
fn join_long_over(
    layers: Layers,
    target: u64,
    indices: &[u8],
    decodings: &[u64],
    matches: &[u64],
    order: &mut [usize],
    keys: &mut [u64],
    kept: &mut [usize],
    places: &mut [usize],
    heads: &mut [usize],
    claimed: &mut [bool],
    used: &mut [bool],
    numbers: &mut [u64],
    lags: &mut [i64],
    sizes: &mut [u64],
    summary: &mut [u64],
) -> u64
    ensures answer { result ≡ (join_over (most_long (spaces (length order.old) (length keys.old) (length kept.old) (length places.old) (length heads.old) (length claimed.old) (length used.old))) layers target (table indices.now decodings.now matches.now) (lists numbers.old lags.old sizes.old) summary.old).answer }
    ensures content { lists numbers.new lags.new sizes.new ≡ (join_over (most_long (spaces (length order.old) (length keys.old) (length kept.old) (length places.old) (length heads.old) (length claimed.old) (length used.old))) layers target (table indices.now decodings.now matches.now) (lists numbers.old lags.old sizes.old) summary.old).after }
    ensures summed { summary.new ≡ (join_over (most_long (spaces (length order.old) (length keys.old) (length kept.old) (length places.old) (length heads.old) (length claimed.old) (length used.old))) layers target (table indices.now decodings.now matches.now) (lists numbers.old lags.old sizes.old) summary.old).summary }
{
    if summary.len() < 2 {
        let mut own_numbers = [0u64; 1];
        let mut own_lags = [0i64; 1];
        let mut own_sizes = [0u64; 1];
        let joined = joining::join_long(
            layers,
            target,
            indices,
            decodings,
            matches,
            order,
            keys,
            kept,
            places,
            heads,
            claimed,
            used,
            &mut own_numbers,
            &mut own_lags,
            &mut own_sizes,
        );
        return without_summary(joined);
    }
    let joined = joining::join_long(
        layers, target, indices, decodings, matches, order, keys, kept, places, heads, claimed,
        used, numbers, lags, sizes,
    );
    summarise(joined, summary)
}

pub fn thq_join_long(
    present: u64,
    embedded: &[u64],
    target: u64,
    indices: &[u8],
    decodings: &[u64],
    matches: &[u64],
    order: &mut [usize],
    keys: &mut [u64],
    kept: &mut [usize],
    places: &mut [usize],
    heads: &mut [usize],
    claimed: &mut [bool],
    used: &mut [bool],
    numbers: &mut [u64],
    lags: &mut [i64],
    sizes: &mut [u64],
    summary: &mut [u64],
) -> u64
    ensures answer { result ≡ (join_long_call (most_long (spaces (length order.old) (length keys.old) (length kept.old) (length places.old) (length heads.old) (length claimed.old) (length used.old))) present embedded.now target (table indices.now decodings.now matches.now) (lists numbers.old lags.old sizes.old) summary.old).answer }
    ensures content { lists numbers.new lags.new sizes.new ≡ (join_long_call (most_long (spaces (length order.old) (length keys.old) (length kept.old) (length places.old) (length heads.old) (length claimed.old) (length used.old))) present embedded.now target (table indices.now decodings.now matches.now) (lists numbers.old lags.old sizes.old) summary.old).after }
    ensures summed { summary.new ≡ (join_long_call (most_long (spaces (length order.old) (length keys.old) (length kept.old) (length places.old) (length heads.old) (length claimed.old) (length used.old))) present embedded.now target (table indices.now decodings.now matches.now) (lists numbers.old lags.old sizes.old) summary.old).summary }
{
    let layers = layers_given(present, embedded);
    join_long_over(
        layers, target, indices, decodings, matches, order, keys, kept, places, heads, claimed,
        used, numbers, lags, sizes, summary,
    )
}

// The whole import under a reading: the rows joined over the layers of the loop, or the refusal of the loop.
fn import_under(
    reading: Reading,
    bytes: &[u8],
    target: u64,
    indices: &[u8],
    decodings: &[u64],
    matches: &[u64],
    numbers: &mut [u64],
    lags: &mut [i64],
    sizes: &mut [u64],
    summary: &mut [u64],
) -> u64
    ensures answer { result ≡ (import_asked (Some reading) bytes.now target (table indices.now decodings.now matches.now) (lists numbers.old lags.old sizes.old) summary.old).answer }
    ensures content { lists numbers.new lags.new sizes.new ≡ (import_asked (Some reading) bytes.now target (table indices.now decodings.now matches.now) (lists numbers.old lags.old sizes.old) summary.old).after }
    ensures summed { summary.new ≡ (import_asked (Some reading) bytes.now target (table indices.now decodings.now matches.now) (lists numbers.old lags.old sizes.old) summary.old).summary }
{
    let read = loop_layers::read_layers(reading, bytes);
    let outcome = read.outcome;
    let layers = read.layers;
    match outcome {
        Ok(()) => join_over(
            layers, target, indices, decodings, matches, numbers, lags, sizes, summary,
        ),
        Err(refusal) => refused(refusal),
    }
}

pub fn thq_import(
    reading: u64,
    bytes: &[u8],
    target: u64,
    indices: &[u8],
    decodings: &[u64],
    matches: &[u64],
    numbers: &mut [u64],
    lags: &mut [i64],
    sizes: &mut [u64],
    summary: &mut [u64],
) -> u64
    ensures answer { result ≡ (import_call reading bytes.now target (table indices.now decodings.now matches.now) (lists numbers.old lags.old sizes.old) summary.old).answer }
    ensures content { lists numbers.new lags.new sizes.new ≡ (import_call reading bytes.now target (table indices.now decodings.now matches.now) (lists numbers.old lags.old sizes.old) summary.old).after }
    ensures summed { summary.new ≡ (import_call reading bytes.now target (table indices.now decodings.now matches.now) (lists numbers.old lags.old sizes.old) summary.old).summary }
{
    let asked = reading_of(reading);
    match asked {
        Some(known) => import_under(
            known, bytes, target, indices, decodings, matches, numbers, lags, sizes, summary,
        ),
        None => not_a_call(),
    }
}
