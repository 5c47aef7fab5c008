// The whole import in one call: the loop is read, its layers are taken, and the rows of a table are joined to units over the target's closure.
// specs/Importing.antt has the answer as a definition that computes, specs/Meaning.antt what is right in the document's words, and
// proofs/Meant.antt the proof that the two are one.
#![tactic(auto)]

ghost use Rattle.std.specs.Prelude.{◌≡◌};
ghost use Rattle.rows.specs.Table.{table};
ghost use Rattle.unit_lists.specs.Sequence.{lists};
ghost use Rattle.join_answers.specs.Joining.{room_of};
ghost use Rattle.importing.specs.Importing.{import_of, imported_lists};

use joining::Units;
use vocabulary::{Reading, Refusal};

// THE CALL. A reading, the bytes of a loop, the index of a target layer, the three columns of the row table, and the three lists for the
// answer, of any lengths: the row numbers of the units, the lag beside each, and the sizes. The answer is the closure with the answer of joining, or the
// refusal, 1 to 9 or 11 to 18, with its place. After a refusal the lists are as they were.
pub fn import(
    reading: Reading,
    bytes: &[u8],
    target: u64,
    indices: &[u8],
    decodings: &[u64],
    matches: &[u64],
    numbers: &mut [u64],
    lags: &mut [i64],
    sizes: &mut [u64],
) -> Result<Units, Refusal>
    ensures answer { result
        ≡ import_of reading bytes.now target (table indices.now decodings.now matches.now)
        (room_of (lists numbers.old lags.old sizes.old)) }
    ensures content { lists numbers.new lags.new sizes.new
        ≡ imported_lists reading bytes.now (table indices.now decodings.now matches.now) result
        (lists numbers.old lags.old sizes.old) }
{
    let read = loop_layers::read_layers(reading, bytes);
    let layers = read.layers;
    read.outcome?;
    joining::join(
        layers, target, indices, decodings, matches, numbers, lags, sizes,
    )
}
