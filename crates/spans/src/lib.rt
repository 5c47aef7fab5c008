// How far the rows of a closure lie apart, as document 02 has it under W-204: for each row the signed 33-bit distance of its decoding time from that
// of the first closure row in the table, as a key that orders as it does; and whether the distances of closure rows span 2^32 or more (18).
#![tactic(auto)]

ghost use Rattle.std.specs.Prelude.{[], ◌≡◌, ◌≤◌, length};
ghost use Rattle.buffers.specs.Buffers.{over};
ghost use Rattle.rows.specs.Table.{table};
ghost use Rattle.spans.specs.Spans.{start_of, key_of, keys_of, lowered, raised, wide_span};

use clock::{HALF, TICKS};

// The decoding time of the first closure row, or 0 where the table has none.
fn start_of(closure: u64, indices: &[u8], decodings: &[u64]) -> u64
    requires { length decodings.now ≡ length indices.now }
    ensures { result ≡ start_of (table indices.now decodings.now []) closure }
{
    for (row, &index) in indices.iter().enumerate() {
        if sets::member(closure, usize::from(index)) {
            return decodings[row];
        }
    }
    0
}

// The key of a time: its signed distance from the start, plus 2^32.
fn key_of(start: u64, time: u64) -> u64
    ensures { result ≡ key_of start time }
{
    (clock::distance(start, time) + HALF) % TICKS
}

// The least key so far, with another that counts or not.
fn lower(counts: bool, key: u64, least: u64) -> u64
    ensures { result ≡ lowered counts key least }
{
    if !counts {
        return least;
    }
    if key < least {
        return key;
    }
    least
}

// The greatest key so far, with another that counts or not.
fn raise(counts: bool, key: u64, greatest: u64) -> u64
    ensures { result ≡ raised counts key greatest }
{
    if !counts {
        return greatest;
    }
    if greatest < key {
        return key;
    }
    greatest
}

// THE CALL. The set of a closure's layer indices, and two columns of a table: the keys of all rows laid into the list that the caller lends, and
// whether the distances of closure rows span 2^32 or more.
pub fn measure(closure: u64, indices: &[u8], decodings: &[u64], keys: &mut [u64]) -> bool
    requires { (length decodings.now ≡ length indices.now) × (length indices.now ≤ length keys.old) }
    ensures keyed { keys.new ≡ over (keys_of (table indices.now decodings.now []) closure) keys.old }
    ensures wide { result ≡ wide_span (table indices.now decodings.now []) closure }
{
    let start = start_of(closure, indices, decodings);
    let mut least = TICKS;
    let mut greatest = 0;
    for row in 0..indices.len() {
        let key = key_of(start, decodings[row]);
        let counts = sets::member(closure, usize::from(indices[row]));
        keys[row] = key;
        least = lower(counts, key, least);
        greatest = raise(counts, key, greatest);
    }
    least + HALF <= greatest
}
