// The layers of a loop, straight from its bytes or from the entries that reading it answered; and what a target rests on.
#![tactic(auto)]

ghost use Rattle.std.specs.Prelude.{◌≡◌};
ghost use Rattle.loop_layers.specs.Closures.{loop_closure};

use vocabulary::{Reading, Refusal};

mod layer_sets;
mod table;

pub use layer_sets::{LayersRead, add_layer, no_layers, read_layers};
pub use table::{LayerTable, TableRead, layers_of, read_table, table_of};

// What a target rests on in the loop that these bytes are: its closure, or the refusal, 1 to 9, 11, 12.
pub fn closure_of_loop(reading: Reading, bytes: &[u8], target: u64) -> Result<u64, Refusal>
    ensures { result ≡ loop_closure reading bytes.now target }
{
    let read = read_layers(reading, bytes);
    read.outcome?;
    closure::closure_of(read.layers, target)
}
