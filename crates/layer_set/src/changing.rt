// A layer more, a layer less, and the answer to a target. A change is judged before anything is changed.
ghost use Rattle.std.specs.Prelude.{◌≡◌, ◌<◌};
ghost use Rattle.loop_faults.specs.Conditions.{slot_of};
ghost use Rattle.layer_set.specs.Sets.{held_at, pid_held, fault_of, with_layer_of, added_to, without_layer_at, removed_from, closure_in};

use super::set::{LayerSet, blank_entry};
use closure::Layers;
use es_loop::{Entry, NO_FAULT};
use vocabulary::Refusal;

// What a change answers: whether it was made, and the set after it, which is the one before it where it was refused.
#[derive(Clone, Copy)]
pub struct Changed {
    pub outcome: Result<(), Refusal>,
    pub set: LayerSet,
}

// Whether the layer of an index has this PID.
fn held_at(present: u64, entry: Entry, index: usize, pid: u16) -> bool
    ensures { result ≡ held_at present entry index pid }
{
    if sets::member(present, index) {
        return entry.pid == pid;
    }
    false
}

// Whether a layer of the set has this PID.
fn pid_held(present: u64, entries: [Entry; 64], pid: u16) -> bool
    ensures { result ≡ pid_held present entries pid }
{
    for (index, entry) in entries.iter().enumerate() {
        if held_at(present, *entry, index, pid) {
            return true;
        }
    }
    false
}

// The lowest of 3 and 6 to 9 that applies to an entry which is to be added, or 10 where none does: it is judged as a loop is that has the set's layers before it. An
// entry that is no layer, and one with the implied mark, is refused with 6.
fn fault_of(present: u64, entries: [Entry; 64], entry: Entry) -> usize
    ensures { result ≡ fault_of present entries entry }
{
    let record = entry.record;
    let held = pid_held(present, entries, entry.pid);
    let index = es_loop::slot_of(entry.stream_type, record);
    es_loop::lowest_fault(
        !descriptors::is_layer(record),
        held,
        sets::member(present, index),
        loop_writer::outline_for(entry),
    )
}

// The set with the layer that the entry is, at its index.
fn with_layer(set: LayerSet, entry: Entry) -> LayerSet
    requires { slot_of entry.stream_type entry.«record» < 64 }
    ensures { result ≡ with_layer_of set entry }
{
    let record = entry.record;
    let stream_type = entry.stream_type;
    let named = entry.embedded;
    let index = es_loop::slot_of(stream_type, record);
    let names = descriptors::names(stream_type, record, named);
    let layers = set.layers;
    let mut embedded = layers.embedded;
    let mut entries = set.entries;
    let mut stored = set.stored;
    let present = stored.add(layers.present, &mut embedded, index, names);
    entries[index] = entry;
    LayerSet {
        layers: Layers { present, embedded },
        entries,
        stored,
    }
}

// ADDS A LAYER: 25 first, then 3 for a PID that the set holds, then 6 to 9.
pub fn add(set: LayerSet, entry: Entry) -> Changed
    ensures { result ≡ added_to set entry }
{
    if loop_writer::too_wide(entry) {
        return Changed {
            outcome: Err(Refusal::TooWide),
            set,
        };
    }
    let layers = set.layers;
    let entries = set.entries;
    let fault = fault_of(layers.present, entries, entry);
    if fault < NO_FAULT {
        return Changed {
            outcome: Err(es_loop::refusal_of(fault, 0)),
            set,
        };
    }
    let after = with_layer(set, entry);
    Changed {
        outcome: Ok(()),
        set: after,
    }
}

// The set without the layer of an index.
fn without_layer(set: LayerSet, index: usize) -> LayerSet
    requires { index < 64 }
    ensures { result ≡ without_layer_at set index }
{
    let layers = set.layers;
    let mut embedded = layers.embedded;
    let mut entries = set.entries;
    let mut stored = set.stored;
    let present = stored.remove(layers.present, &mut embedded, index);
    entries[index] = blank_entry();
    LayerSet {
        layers: Layers { present, embedded },
        entries,
        stored,
    }
}

// REMOVES THE LAYER of an index: 11 where the set has none, also where another layer names it.
pub fn remove(set: LayerSet, index: u64) -> Changed
    ensures { result ≡ removed_from set index }
{
    let layers = set.layers;
    if 64 <= index {
        return Changed {
            outcome: Err(Refusal::NoSuchLayer),
            set,
        };
    }
    let place = index as usize;
    if !sets::member(layers.present, place) {
        return Changed {
            outcome: Err(Refusal::NoSuchLayer),
            set,
        };
    }
    let after = without_layer(set, place);
    Changed {
        outcome: Ok(()),
        set: after,
    }
}

// THE ANSWER TO A TARGET from what is stored, with nothing to be walked: its closure, or 11, or 12 with the lowest missing index.
pub fn closure(set: LayerSet, target: u64) -> Result<u64, Refusal>
    ensures { result ≡ closure_in set target }
{
    let layers = set.layers;
    let stored = set.stored;
    kept_closures::answer_kept(layers.present, &stored.closures, &stored.absents, target)
}
