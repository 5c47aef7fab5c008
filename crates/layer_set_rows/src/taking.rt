// The set that rows have: each row's entry is placed at its index, and what is stored is worked out.
ghost use Rattle.std.specs.Prelude.{◌≡◌, false, length};
ghost use Rattle.entry_rows.specs.Rows.{some_too_wide};
ghost use Rattle.layer_set_rows.specs.Buffers.{placed_in, set_in};

use layer_set::{LayerSet, Placed};

fn placed_in(rows: &[u16]) -> Placed
    requires { (length rows.now ≡ 5120) × (some_too_wide rows.now ≡ false) }
    ensures { result ≡ placed_in rows.now }
{
    let mut placed = layer_set::nothing_placed();
    for i in 0..64 {
        let start = i * 80;
        let end = start + 80;
        let entry = row_taking::entry_in(&rows[start..end]);
        placed = layer_set::place(placed, entry);
    }
    placed
}

// The set of the rows, none of which has a value that is too wide.
pub fn set_in(rows: &[u16]) -> LayerSet
    requires { (length rows.now ≡ 5120) × (some_too_wide rows.now ≡ false) }
    ensures { result ≡ set_in rows.now }
{
    layer_set::work(placed_in(rows))
}
