// The row table of document 01, 'Rows and units', and what is judged on single rows of it: their shape and range (13), and the time order of
// each closure layer (14).
#![tactic(auto)]

ghost use Rattle.std.specs.Prelude.{false, [], ◌≡◌, ◌≤◌, length};
ghost use Rattle.rows.specs.Table.{table, wrong_shape, outside, first_out_of_range, first_time, first_broken};
ghost use Rattle.rows.specs.Verdicts.{verdict_of};

use clock::{HALF, TICKS};
use vocabulary::Refusal;

// The rows that a table may have, where its caller has no work space for more.
pub const MOST_ROWS: usize = 512;

// Whether the columns are of unequal length or of more rows than there may be.
fn wrong_shape(most: usize, indices: &[u8], decodings: &[u64], matches: &[u64]) -> bool
    ensures { result ≡ wrong_shape most (table indices.now decodings.now matches.now) }
{
    if decodings.len() != indices.len() {
        return true;
    }
    if matches.len() != indices.len() {
        return true;
    }
    most < indices.len()
}

// Whether an index is above 63 or one of the times is 2^33 or more.
fn out_of_range(index: u8, decoding: u64, matching: u64) -> bool
    ensures { result ≡ outside index decoding matching }
{
    if 63 < index {
        return true;
    }
    if TICKS <= decoding {
        return true;
    }
    TICKS <= matching
}

// The first row that is out of range, or the number of rows.
fn first_out_of_range(indices: &[u8], decodings: &[u64], matches: &[u64]) -> usize
    requires { (length decodings.now ≡ length indices.now) × (length matches.now ≡ length indices.now) }
    ensures { result ≡ first_out_of_range (table indices.now decodings.now matches.now) }
{
    for row in 0..indices.len() {
        if out_of_range(indices[row], decodings[row], matches[row]) {
            return row;
        }
    }
    indices.len()
}

// The decoding time of a layer's first row: that of the row at hand where the layer had none before.
fn first_time(least: u64, known: u64, time: u64) -> u64
    ensures { result ≡ first_time least known time }
{
    if least == 0 {
        return time;
    }
    known
}

// The first row that breaks the time order of a closure layer, or the number of rows. For each layer are kept the decoding time of its
// first row, and the least distance from it that the layer's next row may have, 0 where the layer has had no row.
fn first_broken(closure: u64, indices: &[u8], decodings: &[u64]) -> usize
    requires { length decodings.now ≡ length indices.now }
    ensures { result ≡ first_broken (table indices.now decodings.now []) closure }
{
    let mut firsts = [0u64; 64];
    let mut least = [0u64; 64];
    for row in 0..indices.len() {
        let layer = usize::from(indices[row]);
        if sets::member(closure, layer) {
            let time = decodings[row];
            let first = first_time(least[layer], firsts[layer], time);
            let far = clock::distance(first, time);
            if far < least[layer] {
                return row;
            }
            if HALF <= far {
                return row;
            }
            firsts[layer] = first;
            least[layer] = far + 1;
        }
    }
    indices.len()
}

// THE CALL. How many rows there may be, the set of a closure's layer indices, and the three columns of a table, of any lengths. A table in range and in order is
// accepted, and another is refused at the first row that is not; one of the wrong shape is out of range at row 0.
pub fn judge(
    most: usize,
    closure: u64,
    indices: &[u8],
    decodings: &[u64],
    matches: &[u64],
) -> Result<(), Refusal>
    ensures { result ≡ verdict_of most (table indices.now decodings.now matches.now) closure }
{
    if wrong_shape(most, indices, decodings, matches) {
        return Err(Refusal::OutOfRange(0));
    }
    let outside = first_out_of_range(indices, decodings, matches);
    if outside < indices.len() {
        return Err(Refusal::OutOfRange(outside));
    }
    let broken = first_broken(closure, indices, decodings);
    if broken < indices.len() {
        return Err(Refusal::TimeOrderBroken(broken));
    }
    Ok(())
}
