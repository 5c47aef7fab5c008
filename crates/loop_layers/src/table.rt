// The layers of a loop with what a listing asks of each, straight from its bytes or from the entries that reading it answered.
ghost use Rattle.std.specs.Prelude.{◌≡◌, [], map, min, length, take};
ghost use Rattle.es_loop.specs.Answer.{entries_judged};
ghost use Rattle.loop_entries.specs.Entries.{streams_of, entry_of};
ghost use Rattle.es_loop.specs.Reading.{verdict_of};
ghost use Rattle.loop_layers.specs.Layers.{layers_of, table_of, with_entry};
ghost use Rattle.loop_layers.specs.Closures.{loop_table};

use super::layer_sets::{add_layer, no_layers};
use closure::Layers;
use es_loop::{Entry, Judged, MOST_ENTRIES};
use vocabulary::{HierarchyChannel, Reading, Refusal};

// The layers of a loop, and what else is asked of each, by layer index. Where `layers` has no layer of an index, the columns have 0.
#[derive(Clone, Copy)]
pub struct LayerTable {
    pub layers: Layers,
    pub pids: [u16; 64],
    pub stream_types: [u8; 64],
    pub channels: [HierarchyChannel; 64],
}

// The same with the table of them.
#[derive(Clone, Copy)]
pub struct TableRead {
    pub outcome: Result<(), Refusal>,
    pub table: LayerTable,
}

// The table of no entries.
fn no_table() -> LayerTable
    ensures { result ≡ table_of [] }
{
    LayerTable {
        layers: no_layers(),
        pids: [0; 64],
        stream_types: [0; 64],
        channels: [HierarchyChannel(0); 64],
    }
}

// One entry more in the table of the layers.
fn with_entry(table: LayerTable, entry: Entry) -> LayerTable
    ensures { result ≡ with_entry table entry }
{
    let record = entry.record;
    let stream_type = entry.stream_type;
    let index = es_loop::slot_of(stream_type, record);
    if 64 <= index {
        return table;
    }
    let layers = table.layers;
    let mut embedded = layers.embedded;
    let named = entry.embedded;
    let names = descriptors::names(stream_type, record, named);
    let present = add_layer(stream_type, record, names, layers.present, &mut embedded);
    let mut pids = table.pids;
    let mut stream_types = table.stream_types;
    let mut channels = table.channels;
    pids[index] = entry.pid;
    stream_types[index] = stream_type;
    channels[index] = descriptors::channel(record);
    LayerTable {
        layers: Layers { present, embedded },
        pids,
        stream_types,
        channels,
    }
}

// How many entries of the array count: as many as the caller says, and no more than there are.
fn entry_count(count: usize) -> usize
    ensures { result ≡ min count 201 }
{
    count.min(MOST_ENTRIES)
}

// The layers among the first `count` entries, in one pass.
pub fn table_of(count: usize, entries: [Entry; MOST_ENTRIES]) -> LayerTable
    ensures { result ≡ table_of (take count entries) }
{
    let mut table = no_table();
    let end = entry_count(count);
    for entry in &entries[..end] {
        table = with_entry(table, *entry);
    }
    table
}

// The same without the columns that only a listing asks for.
pub fn layers_of(count: usize, entries: [Entry; MOST_ENTRIES]) -> Layers
    ensures { result ≡ layers_of (take count entries) }
{
    let table = table_of(count, entries);
    table.layers
}

// The table of them.
fn table_in(reading: Reading, pair: bool, bytes: &[u8]) -> LayerTable
    requires { verdict_of reading bytes.now ≡ entries_judged (length (streams_of reading bytes.now)) pair }
    ensures { result ≡ table_of (map entry_of (streams_of reading bytes.now)) }
{
    let mut table = no_table();
    let mut at = 0;
    while at < bytes.len() {
        let left = &bytes[at..];
        let size = es_loop::entry_size(left);
        let stream = es_loop::read_stream(reading, pair, &left[..size]);
        table = with_entry(table, es_loop::entry_of(stream));
        at += size;
    }
    table
}

// The same with the columns that a listing asks for.
pub fn read_table(reading: Reading, bytes: &[u8]) -> TableRead
    ensures { result ≡ loop_table reading bytes.now }
{
    match es_loop::judge(reading, bytes) {
        Ok(Judged { count: _, pair }) => TableRead {
            outcome: Ok(()),
            table: table_in(reading, pair, bytes),
        },
        Err(refusal) => TableRead {
            outcome: Err(refusal),
            table: no_table(),
        },
    }
}
