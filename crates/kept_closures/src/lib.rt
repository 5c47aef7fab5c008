// What each layer rests on, kept with it while layers come and go, so that the answer to any target is at hand: nothing is worked out afresh but what a
// change can have changed.
#![tactic(auto)]

ghost use Rattle.std.specs.Prelude.{cond, ◌≡◌, ◌<◌, set};
ghost use Rattle.combinators.specs.Each.{each_below};
ghost use Rattle.sets.specs.Sets.{has, added, without, only};
ghost use Rattle.kept_closures.specs.Kept.{layers_by, fresh_of, stored_at, closure_over, grown_at, grown_above, shrunk_at, shrunk_above, worked_at, columns_added, columns_removed, fresh_columns, answer_kept};

use vocabulary::{LayerIndex, Refusal};

// What is kept, by layer index: what each layer rests on as a set, how many layers are in that, and whether one of them is not present.
#[derive(Clone, Copy)]
pub struct Columns {
    pub closures: [u64; 64],
    pub sizes: [u8; 64],
    pub absents: [bool; 64],
}

impl Columns {
    // WORKED OUT AFRESH: the lower first, since a higher layer rests on it.
    pub fn work_out(present: u64, embedded: &[u64; 64]) -> Columns
        ensures { result ≡ fresh_columns (layers_by present embedded.now) }
    {
        let mut kept = Columns {
            closures: [0; 64],
            sizes: [0; 64],
            absents: [false; 64],
        };
        for index in 0..64 {
            kept.work_out_at(present, index, embedded[index]);
        }
        kept
    }

    // A LAYER MORE, of an index that none has, which names these: its own closure, and of each layer that rests on the index what comes to it. The answer is
    // the set of the indices that are present now.
    pub fn add(&mut self, present: u64, embedded: &mut [u64; 64], index: usize, names: u64) -> u64
        requires { index < 64 }
        ensures answer { (result ≡ added present index) × (embedded.new ≡ set embedded.old index names) }
        ensures content { self.new ≡ columns_added present index names self.old }
    {
        let now_present = sets::with(present, index);
        let own = closure_over(&self.closures, index, names);
        embedded[index] = names;
        self.keep(now_present, own, index);
        self.grow_all(now_present, own, index);
        now_present
    }

    // A LAYER LESS, of an index that one has: nothing is kept of it any more, and of each layer that rested on it the closure is put together again. The
    // answer is the set of the indices that are present now.
    pub fn remove(&mut self, present: u64, embedded: &mut [u64; 64], index: usize) -> u64
        requires { index < 64 }
        ensures answer { (result ≡ without present (only index)) × (embedded.new ≡ set embedded.old index 0) }
        ensures content { self.new ≡ columns_removed present embedded.old index self.old }
    {
        let now_present = sets::without(present, 1 << index);
        embedded[index] = 0;
        self.keep(now_present, 0, index);
        self.shrink_all(now_present, index, embedded);
        now_present
    }

    // The three values of a closure, put at an index.
    fn keep(&mut self, present: u64, closure: u64, index: usize)
        requires { index < 64 }
        ensures { self.new ≡ stored_at present closure index self.old }
    {
        self.closures[index] = closure;
        self.sizes[index] = sets::size(closure) as u8;
        self.absents[index] = sets::without(closure, present) != 0;
    }

    // The closure of a layer put together, if there is one of the index.
    fn work_out_at(&mut self, present: u64, index: usize, names: u64)
        requires { index < 64 }
        ensures { self.new ≡ worked_at present index names self.old }
    {
        if sets::member(present, index) {
            let closure = closure_over(&self.closures, index, names);
            self.keep(present, closure, index);
        }
    }

    // Of a layer that rests on an index which has a layer now: what that layer rests on comes to it.
    fn grow(&mut self, present: u64, own: u64, index: usize, upper: usize)
        requires { upper < 64 }
        ensures { self.new ≡ grown_at present own index upper self.old }
    {
        let closure = self.closures[upper];
        if sets::member(closure, index) {
            self.keep(present, closure | own, upper);
        }
    }

    // The same of every layer above the index.
    fn grow_all(&mut self, present: u64, own: u64, index: usize)
        requires { index < 64 }
        ensures { self.new ≡ grown_above present own index self.old }
    {
        for upper in index + 1..64 {
            self.grow(present, own, index, upper);
        }
    }

    // Of a layer that rested on an index which has no layer any more: its closure is put together again from what it names.
    fn shrink(&mut self, present: u64, index: usize, upper: usize, names: u64)
        requires { upper < 64 }
        ensures { self.new ≡ shrunk_at present index upper names self.old }
    {
        if sets::member(self.closures[upper], index) {
            let closure = closure_over(&self.closures, upper, names);
            self.keep(present, closure, upper);
        }
    }

    // The same of every layer above the index, the lower first, since a higher one rests on it.
    fn shrink_all(&mut self, present: u64, index: usize, embedded: &[u64; 64])
        requires { index < 64 }
        ensures { self.new ≡ shrunk_above present index embedded.now self.old }
    {
        for upper in index + 1..64 {
            self.shrink(present, index, upper, embedded[upper]);
        }
    }
}

// The closure of a layer that names these, from what is kept of the layers below it.
fn closure_over(closures: &[u64; 64], index: usize, names: u64) -> u64
    requires { index < 64 }
    ensures { result ≡ closure_over closures.now index names }
{
    let mut closure: u64 = 1 << index;
    let mut left = sets::below(names, index);
    while left != 0 {
        let lower = sets::lowest(left) as usize;
        closure |= closures[lower] | (1 << lower);
        left = sets::rest(left);
    }
    closure
}

// The closure of a layer put together, or nothing where there is no layer of the index.
fn closure_at(present: u64, closures: &[u64; 64], index: usize, names: u64) -> u64
    requires { index < 64 }
    ensures { result ≡ cond (has present index) (closure_over closures.now index names) 0 }
{
    if !sets::member(present, index) {
        return 0;
    }
    closure_over(closures, index, names)
}

// The closures alone, of all layers at once: by index what each rests on, and nothing where there is no layer.
pub fn every_closure(present: u64, embedded: &[u64; 64]) -> [u64; 64]
    ensures { result ≡ each_below (fresh_of (layers_by present embedded.now)) 64 }
{
    let mut closures = [0u64; 64];
    for index in 0..64 {
        let closure = closure_at(present, &closures, index, embedded[index]);
        closures[index] = closure;
    }
    closures
}

// THE ANSWER TO A TARGET from what is kept, with nothing to be walked: the closure, or 11, or 12 with the lowest missing index.
pub fn answer_kept(
    present: u64,
    closures: &[u64; 64],
    absents: &[bool; 64],
    target: u64,
) -> Result<u64, Refusal>
    ensures { result ≡ answer_kept present closures.now absents.now target }
{
    if 64 <= target {
        return Err(Refusal::NoSuchLayer);
    }
    let index = target as usize;
    if !sets::member(present, index) {
        return Err(Refusal::NoSuchLayer);
    }
    let closure = closures[index];
    if absents[index] {
        let missing = sets::lowest(sets::without(closure, present));
        return Err(Refusal::EmbeddedLayerAbsent(LayerIndex(missing)));
    }
    Ok(closure)
}
