// The functions for C on layer sets: read, a layer added, a layer removed, and the answer to a target. include/thoquenry.h documents each; specs/ has, for each, one
// definition of its answer and of what its buffers hold afterwards. Buffers that hold no set are no call.
#![tactic(auto)]

ghost use Rattle.std.specs.Prelude.{◌≡◌, length, Some};
ghost use Rattle.c_answers.specs.Answers.{reply};
ghost use Rattle.layer_set.specs.Sets.{stored_in};
ghost use Rattle.layer_set_rows.specs.Buffers.{stored_holds};
ghost use Rattle.thoquenry_sets.specs.Calls.{set_reply, closure_laid, set_laid, changed_laid, read_into, read_set, add_set, remove_set, closure_set};

use c_answers::{accepted, not_a_call, reading_of, refused};
use layer_set::{Changed, LayerSet};
use vocabulary::{Reading, Refusal};

// The numbers of an entry, and of the two buffers of a set.
const ENTRY_NUMBERS: usize = 80;

const SET_LAYERS: usize = 5120;

const SET_STORED: usize = 192;

// Whether the stored numbers are those of the set. Its columns are taken out first: lent where they stand, they would hold the whole set on the stack once more.
fn stored_right(set: LayerSet, stored: &[u64]) -> bool
    ensures { result ≡ stored_holds (stored_in «set») stored.now }
{
    let kept = set.stored;
    layer_set_rows::stored_holds(&kept, stored)
}

// A set laid into its buffers. Counts its layers.
fn lay_set(set: LayerSet, layers: &mut [u16], stored: &mut [u64]) -> u64
    requires { (length layers.old ≡ 5120) × (length stored.old ≡ 192) }
    ensures { set_reply result layers.new stored.new ≡ set_laid «set» }
{
    let entries = set.entries;
    let kept = set.stored;
    let present = set.layers.present;
    layer_set_rows::lay_entries(entries, layers);
    layer_set_rows::lay_stored(&kept, stored);
    accepted(sets::size(present))
}

// What a change answered: the set after it, laid into its buffers, or the refusal.
fn lay_changed(changed: Changed, layers: &mut [u16], stored: &mut [u64]) -> u64
    requires { (length layers.old ≡ 5120) × (length stored.old ≡ 192) }
    ensures { set_reply result layers.new stored.new ≡ changed_laid changed.outcome changed.«set» layers.old stored.old }
{
    let outcome = changed.outcome;
    let set = changed.set;
    match outcome {
        Ok(()) => lay_set(set, layers, stored),
        Err(refusal) => refused(refusal),
    }
}

// The set of a loop under a reading.
fn read_into(reading: Reading, bytes: &[u8], layers: &mut [u16], stored: &mut [u64]) -> u64
    requires { (length layers.old ≡ 5120) × (length stored.old ≡ 192) }
    ensures { set_reply result layers.new stored.new ≡ read_into (Some reading) bytes.now layers.old stored.old }
{
    let read = layer_set::read_set(reading, bytes);
    let outcome = read.outcome;
    let set = read.set;
    lay_changed(Changed { outcome, set }, layers, stored)
}

pub fn thq_set_read(reading: u64, bytes: &[u8], layers: &mut [u16], stored: &mut [u64]) -> u64
    ensures { set_reply result layers.new stored.new ≡ read_set reading bytes.now layers.old stored.old }
{
    if layers.len() != SET_LAYERS {
        return not_a_call();
    }
    if stored.len() != SET_STORED {
        return not_a_call();
    }
    let asked = reading_of(reading);
    match asked {
        Some(known) => read_into(known, bytes, layers, stored),
        None => not_a_call(),
    }
}

pub fn thq_set_add(layers: &mut [u16], stored: &mut [u64], entry: &[u16]) -> u64
    ensures { set_reply result layers.new stored.new ≡ add_set layers.old stored.old entry.now }
{
    if !layer_set_rows::rows_hold(layers) {
        return not_a_call();
    }
    let set = layer_set_rows::set_in(layers);
    if !stored_right(set, stored) {
        return not_a_call();
    }
    if entry.len() != ENTRY_NUMBERS {
        return not_a_call();
    }
    if entry_rows::some_too_wide(entry) {
        return refused(Refusal::TooWide);
    }
    let changed = layer_set::add(set, row_taking::entry_in(entry));
    lay_changed(changed, layers, stored)
}

pub fn thq_set_remove(layers: &mut [u16], stored: &mut [u64], index: u64) -> u64
    ensures { set_reply result layers.new stored.new ≡ remove_set layers.old stored.old index }
{
    if !layer_set_rows::rows_hold(layers) {
        return not_a_call();
    }
    let set = layer_set_rows::set_in(layers);
    if !stored_right(set, stored) {
        return not_a_call();
    }
    let changed = layer_set::remove(set, index);
    lay_changed(changed, layers, stored)
}

// The members of a closure, laid into the buffer.
fn lay_closure(found: Result<u64, Refusal>, closure: &mut [u64]) -> u64
    ensures { reply result closure.new ≡ closure_laid found closure.old }
{
    match found {
        Ok(members) => {
            if closure.len() < 1 {
                return refused(Refusal::NoRoom);
            }
            closure[0] = members;
            accepted(sets::size(members))
        }
        Err(refusal) => refused(refusal),
    }
}

pub fn thq_set_closure(layers: &[u16], stored: &[u64], target: u64, closure: &mut [u64]) -> u64
    ensures { reply result closure.new ≡ closure_set layers.now stored.now target closure.old }
{
    if !layer_set_rows::rows_hold(layers) {
        return not_a_call();
    }
    let set = layer_set_rows::set_in(layers);
    if !stored_right(set, stored) {
        return not_a_call();
    }
    lay_closure(layer_set::closure(set, target), closure)
}
