// What units are made over, besides the edges and the marks of claimed rows: for each layer of a closure, what it rests on.
ghost use Rattle.std.specs.Prelude.{◌≡◌, ℕ};
ghost use Rattle.combinators.specs.Each.{each_below};
ghost use Rattle.heads.specs.Orderly.{Closed};
ghost use Rattle.join_answers.specs.Joining.{own_set};

use closure::Layers;

// For each layer of the closure the set of the layers that it rests on, its own among them, and for any other index the empty set. A closure has in it whatever one of its
// layers names, so that its layers alone are looked at.
pub fn own_sets(layers: Layers, closure: u64) -> [u64; 64]
    requires { (target : ℕ) × Closed layers target closure }
    ensures { result ≡ each_below (own_set layers closure) 64 }
{
    kept_closures::every_closure(closure, &layers.embedded)
}
