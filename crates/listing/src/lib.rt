// The lines of the program `layers`, laid into a buffer: `put_loop` lays in all that the program prints, from the layer set of the loop.
#![tactic(auto)]

ghost use Rattle.std.specs.Prelude.{◌≡◌, ◌<◌};
ghost use Rattle.text.specs.Text.{Laid};
ghost use Rattle.listing.specs.Lines.{labelled, member as member_text, members, closure_text, layer_line, set_line, set_lines, set_text, refused_text, loop_text};

use layer_set::LayerSet;
use vocabulary::{HierarchyChannel, LayerIndex, Reading, Refusal};

// A label and a number after it.
pub fn put_labelled(out: &mut [u8], at: usize, label: &[u8], n: u64) -> usize
    ensures { Laid out.old at (labelled label.now n) result out.new }
{
    let next = text::put(out, at, label);
    text::put_decimal(out, next, n)
}

// One index of a closure, if it is a member.
fn put_member(out: &mut [u8], at: usize, set: u64, index: usize) -> usize
    ensures { Laid out.old at (member_text set index) result out.new }
{
    if sets::member(set, index) {
        return put_labelled(out, at, b" ", index as u64);
    }
    text::put(out, at, b"")
}

// The members of a closure in rising order.
fn put_members(out: &mut [u8], at: usize, set: u64) -> usize
    ensures { Laid out.old at (members set) result out.new }
{
    let mut place = text::put(out, at, b"");
    for index in 0..64 {
        place = put_member(out, place, set, index);
    }
    place
}

// A closure as the program shows it.
fn put_closure(out: &mut [u8], at: usize, closure: Result<u64, Refusal>) -> usize
    ensures { Laid out.old at (closure_text closure) result out.new }
{
    match closure {
        Ok(set) => put_members(out, at, set),
        Err(_) => text::put(out, at, b" absent"),
    }
}

// The line of one layer.
fn put_layer(
    out: &mut [u8],
    at: usize,
    index: LayerIndex,
    pid: u16,
    stream_type: u8,
    channel: HierarchyChannel,
    closure: Result<u64, Refusal>,
) -> usize
    ensures { Laid out.old at (layer_line index pid stream_type channel closure) result out.new }
{
    let mut place = put_labelled(out, at, b"layer ", u64::from(index.0));
    place = put_labelled(out, place, b" pid ", u64::from(pid));
    place = put_labelled(out, place, b" type ", u64::from(stream_type));
    place = put_labelled(out, place, b" channel ", u64::from(channel.0));
    place = text::put(out, place, b" closure");
    place = put_closure(out, place, closure);
    text::put(out, place, b"\n")
}

// The line of the layer of an index, if the set has that layer: its closure from what the set stores.
fn put_layer_at(out: &mut [u8], at: usize, kept: LayerSet, index: usize) -> usize
    requires { index < 64 }
    ensures { Laid out.old at (set_line kept index) result out.new }
{
    let layers = kept.layers;
    if sets::member(layers.present, index) {
        let entries = kept.entries;
        let entry = entries[index];
        let record = entry.record;
        let channel = descriptors::channel(record);
        let closure = layer_set::closure(kept, index as u64);
        return put_layer(
            out,
            at,
            LayerIndex(index as u8),
            entry.pid,
            entry.stream_type,
            channel,
            closure,
        );
    }
    text::put(out, at, b"")
}

// The lines of all layers, by rising index.
fn put_layers(out: &mut [u8], at: usize, kept: LayerSet) -> usize
    ensures { Laid out.old at (set_lines kept) result out.new }
{
    let mut place = text::put(out, at, b"");
    for index in 0..64 {
        place = put_layer_at(out, place, kept, index);
    }
    place
}

// Lays all that the program prints for the layer set of an accepted loop into `out` from place `at` on, and answers the place after it.
pub fn put_accepted(out: &mut [u8], at: usize, kept: LayerSet) -> usize
    ensures { Laid out.old at (set_text kept) result out.new }
{
    let layers = kept.layers;
    let mut place = put_labelled(out, at, b"accepted ", sets::size(layers.present) as u64);
    place = text::put(out, place, b"\n");
    put_layers(out, place, kept)
}

// Lays all that the program prints for a refused loop into `out` from place `at` on, and answers the place after it.
pub fn put_refused(out: &mut [u8], at: usize, refusal: Refusal) -> usize
    ensures { Laid out.old at (refused_text refusal) result out.new }
{
    let mut place = put_labelled(out, at, b"refused ", u64::from(vocabulary::number(refusal)));
    place = put_labelled(out, place, b" entry ", vocabulary::place(refusal) as u64);
    text::put(out, place, b"\n")
}

// Lays all that the program prints for a loop of these bytes under a reading into `out` from place `at` on, and answers the place after it.
pub fn put_loop(out: &mut [u8], at: usize, reading: Reading, bytes: &[u8]) -> usize
    ensures { Laid out.old at (loop_text reading bytes.now) result out.new }
{
    let read = layer_set::read_set(reading, bytes);
    let outcome = read.outcome;
    let kept = read.set;
    match outcome {
        Ok(()) => put_accepted(out, at, kept),
        Err(refusal) => put_refused(out, at, refusal),
    }
}
