// What a target layer rests on: its closure, or the refusal 11 or 12 of document 01.
// specs/Closures.antt has the answer as a definition that computes, specs/Meaning.antt what is right in the document's words, and
// proofs/Meant.antt the proof that the two are one.
#![tactic(auto)]

ghost use Rattle.std.specs.Prelude.{◌≡◌, ◌<◌};
ghost use Rattle.sets.specs.Sets.{has};
ghost use Rattle.closure.specs.Closures.{closure_of, rested_on, named_by};

use vocabulary::{LayerIndex, Refusal};

// The layers of a loop: bit i of `present` is 1 when the loop has a layer of index i, and `embedded[i]` is the set of the indices that
// this layer names as embedded.
#[derive(Clone, Copy)]
pub struct Layers {
    pub present: u64,
    pub embedded: [u64; 64],
}

// The set of the indices that a layer names: those of its embedded indices below its own, and none where the loop has no such layer.
pub fn named(present: u64, embedded: u64, index: usize) -> u64
    ensures { result ≡ named_by (has present index) embedded index }
{
    if !sets::member(present, index) {
        return 0;
    }
    sets::below(embedded, index)
}

// The set of the indices that the target rests on, its own among them. One scan down is enough, since a layer names lower ones only: when
// the scan comes to an index, every layer that could name it has been followed.
pub fn rested_on(layers: Layers, target: usize) -> u64
    requires { target < 64 }
    ensures { result ≡ rested_on layers target }
{
    let mut set: u64 = 1 << target;
    let mut left = target + 1;
    while 0 < left {
        left -= 1;
        if sets::member(set, left) {
            set |= named(layers.present, layers.embedded[left], left);
        }
    }
    set
}

// The closure of a target in a loop's layers. A target above 63 is no layer's index.
pub fn closure_of(layers: Layers, target: u64) -> Result<u64, Refusal>
    ensures { result ≡ closure_of layers target }
{
    if 64 <= target {
        return Err(Refusal::NoSuchLayer);
    }
    let index = target as usize;
    if !sets::member(layers.present, index) {
        return Err(Refusal::NoSuchLayer);
    }
    let set = rested_on(layers, index);
    let missing = sets::without(set, layers.present);
    if missing == 0 {
        return Ok(set);
    }
    Err(Refusal::EmbeddedLayerAbsent(LayerIndex(sets::lowest(missing))))
}
