// The layers of a loop straight from its bytes: these are judged first, and where they are accepted walked once more for the layers alone.
ghost use Rattle.std.specs.Prelude.{◌≡◌, [], map, length};
ghost use Rattle.es_loop.specs.Answer.{entries_judged};
ghost use Rattle.sets.specs.Sets.{added};
ghost use Rattle.loop_faults.specs.Conditions.{slot_of};
ghost use Rattle.loop_entries.specs.Entries.{streams_of, entry_of};
ghost use Rattle.es_loop.specs.Reading.{verdict_of};
ghost use Rattle.loop_layers.specs.Layers.{layers_of, put_at};
ghost use Rattle.loop_layers.specs.Closures.{loop_layers};

use closure::Layers;
use descriptors::Record;
use es_loop::Judged;
use vocabulary::{Reading, Refusal};

// What is answered of a loop's bytes: the outcome and, where it is accepted, its layers.
#[derive(Clone, Copy)]
pub struct LayersRead {
    pub outcome: Result<(), Refusal>,
    pub layers: Layers,
}

// The layers of no entries.
pub fn no_layers() -> Layers
    ensures { result ≡ layers_of [] }
{
    Layers {
        present: 0,
        embedded: [0; 64],
    }
}

// One entry more among the layers: what its record names is put at its index, and the answer is the set of the indices that are present with its own.
// A stream that is no layer adds nothing.
pub fn add_layer(
    stream_type: u8,
    record: Record,
    names: u64,
    present: u64,
    embedded: &mut [u64; 64],
) -> u64
    ensures value { result ≡ added present (slot_of stream_type «record») }
    ensures embedded_after { embedded.new ≡ put_at embedded.old (slot_of stream_type «record») names }
{
    let index = es_loop::slot_of(stream_type, record);
    if 64 <= index {
        return present;
    }
    embedded[index] = names;
    sets::with(present, index)
}

// The layers of a loop that was judged and accepted.
fn layers_in(reading: Reading, pair: bool, bytes: &[u8]) -> Layers
    requires { verdict_of reading bytes.now ≡ entries_judged (length (streams_of reading bytes.now)) pair }
    ensures { result ≡ layers_of (map entry_of (streams_of reading bytes.now)) }
{
    let none = no_layers();
    let mut present = none.present;
    let mut embedded = none.embedded;
    let mut at = 0;
    while at < bytes.len() {
        let left = &bytes[at..];
        let size = es_loop::entry_size(left);
        let entry = &left[..size];
        let layer = es_loop::read_layer(reading, pair, entry);
        let record = layer.record;
        present = add_layer(entry[0], record, layer.names, present, &mut embedded);
        at += size;
    }
    Layers { present, embedded }
}

// The layers of the loop that these bytes are, or the refusal, 1 to 9.
pub fn read_layers(reading: Reading, bytes: &[u8]) -> LayersRead
    ensures { result ≡ loop_layers reading bytes.now }
{
    match es_loop::judge(reading, bytes) {
        Ok(Judged { count: _, pair }) => LayersRead {
            outcome: Ok(()),
            layers: layers_in(reading, pair, bytes),
        },
        Err(refusal) => LayersRead {
            outcome: Err(refusal),
            layers: no_layers(),
        },
    }
}
