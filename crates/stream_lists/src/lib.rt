// The list of the elementary streams of an operation point, OperationPointESList of 2.6.101 of source 000: its references in order, each with the
// dependencies that it asks to be prepended; and whether such a list is closed under embedding.
// specs/Lists.antt has the answer as a definition that computes, specs/Meaning.antt what is right in the words of W-205, proofs/Meant.antt that the two
// are one, and proofs/Union.antt what a closed list gives: the closures of its members.
#![tactic(auto)]

ghost use Rattle.std.specs.Prelude.{[], ◌≡◌};
ghost use Rattle.stream_lists.specs.Lists.{asked as asked_of, no_layer, stream_list, list_built, escapes as escapesFrom, is_closed};

use closure::Layers;

mod insertion;

// A list of layer indices: the first `count` of `members`, with zeros behind them, and the same as a set.
#[derive(Clone, Copy)]
pub struct StreamList {
    pub present: u64,
    pub count: usize,
    pub members: [u8; 64],
}

// The list of a point's references, or 42: one of them, or a dependency to be prepended, is no layer of the loop. The list is then empty,
// and whoever lays out or counts a point's streams takes it so: an Option would have each of them put the empty list in.
#[derive(Clone, Copy)]
pub struct ListBuilt {
    pub absent: bool,
    pub list: StreamList,
}

fn empty_list() -> StreamList
    ensures { result ≡ stream_list [] }
{
    StreamList {
        present: 0,
        count: 0,
        members: [0; 64],
    }
}

// The dependencies that a reference asks to be prepended.
fn asked(layers: Layers, reference: u8) -> u64
    ensures { result ≡ asked_of layers reference }
{
    if reference / 64 % 2 == 1 {
        let index = (reference % 64) as usize;
        return closure::named(layers.present, layers.embedded[index], index);
    }
    0
}

// 42: the reference, or a dependency to be prepended, is no layer of the loop.
fn no_layer(layers: Layers, reference: u8) -> bool
    ensures { result ≡ no_layer layers reference }
{
    if !sets::member(layers.present, (reference % 64) as usize) {
        return true;
    }
    sets::without(asked(layers, reference), layers.present) != 0
}

// THE LIST of a point's references, which are bytes of Table 2-111bis: reserved 1, prepend_dependencies 1, ES_reference 6.
pub fn stream_list(layers: Layers, references: &[u8]) -> ListBuilt
    ensures { result ≡ list_built layers references.now }
{
    let mut members = [0u8; 64];
    let mut count = 0;
    let mut present = 0u64;
    for reference in references {
        let reference = *reference;
        if no_layer(layers, reference) {
            return ListBuilt {
                absent: true,
                list: empty_list(),
            };
        }
        let new = sets::without(asked(layers, reference), present);
        count = insertion::place_before(&mut members, count, present, reference % 64, new);
        present = sets::with(present | new, (reference % 64) as usize);
    }
    ListBuilt {
        absent: false,
        list: StreamList {
            present,
            count,
            members,
        },
    }
}

// Whether a layer names what is not in the set.
fn escapes(layers: Layers, set: u64, index: usize) -> bool
    ensures { result ≡ escapesFrom layers set index }
{
    if 64 <= index {
        return false;
    }
    sets::without(
        closure::named(layers.present, layers.embedded[index], index),
        set,
    ) != 0
}

// Whether a list, by its set, is closed under embedding: each member has what it names in the list.
pub fn closed(layers: Layers, present: u64) -> bool
    ensures { result ≡ is_closed layers present }
{
    let mut left = present;
    while left != 0 {
        let index = sets::lowest(left) as usize;
        if escapes(layers, present, index) {
            return false;
        }
        left = sets::rest(left);
    }
    true
}
