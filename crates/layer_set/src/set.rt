// The set, and how it is worked out afresh: entries are placed by their index, one after another, and then what each layer rests on is found.
ghost use Rattle.std.specs.Prelude.{◌≡◌, [], replicate};
ghost use Rattle.loop_entries.specs.Entries.{blank_entry};
ghost use Rattle.layer_set.specs.Sets.{placed_of, placed_next, worked_set, set_of};

use closure::Layers;
use descriptors::Record;
use es_loop::Entry;
use kept_closures::Columns;

// A LAYER SET. By layer index: the layers as `closure` asks for them, each layer's entry, and the three stored values: its closure, how many indices are in it, and
// whether one of them is absent. Where there is no layer of an index the entry is blank and the values are 0.
#[derive(Clone, Copy)]
pub struct LayerSet {
    pub layers: Layers,
    pub entries: [Entry; 64],
    pub stored: Columns,
}

// The same before what is stored was worked out.
#[derive(Clone, Copy)]
pub struct Placed {
    pub layers: Layers,
    pub entries: [Entry; 64],
}

// What stands where there is no layer.
pub fn blank_entry() -> Entry
    ensures { result ≡ blank_entry }
{
    Entry {
        stream_type: 0,
        pid: 0,
        record: Record::NoRecord,
        embedded: descriptors::no_layers(),
    }
}

fn blank_layers() -> [Entry; 64]
    ensures { result ≡ replicate 64 blank_entry }
{
    let blank = blank_entry();
    [blank; 64]
}

pub fn nothing_placed() -> Placed
    ensures { result ≡ placed_of [] }
{
    let layers = loop_layers::no_layers();
    let entries = blank_layers();
    Placed { layers, entries }
}

// One entry more, at its layer index. A stream that is no layer has no place.
pub fn place(placed: Placed, entry: Entry) -> Placed
    ensures { result ≡ placed_next placed entry }
{
    let record = entry.record;
    let stream_type = entry.stream_type;
    let index = es_loop::slot_of(stream_type, record);
    if 64 <= index {
        return placed;
    }
    let layers = placed.layers;
    let mut embedded = layers.embedded;
    let named = entry.embedded;
    let names = descriptors::names(stream_type, record, named);
    let present = loop_layers::add_layer(stream_type, record, names, layers.present, &mut embedded);
    let mut entries = placed.entries;
    entries[index] = entry;
    Placed {
        layers: Layers { present, embedded },
        entries,
    }
}

// What each layer rests on, worked out afresh.
pub fn work(placed: Placed) -> LayerSet
    ensures { result ≡ worked_set placed }
{
    let layers = placed.layers;
    let entries = placed.entries;
    let stored = Columns::work_out(layers.present, &layers.embedded);
    LayerSet {
        layers,
        entries,
        stored,
    }
}

// The set of no layer.
pub fn empty() -> LayerSet
    ensures { result ≡ set_of [] }
{
    work(nothing_placed())
}
