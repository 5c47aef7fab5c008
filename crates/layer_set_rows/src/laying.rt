// A set laid into its buffers.
ghost use Rattle.std.specs.Prelude.{◌≡◌, ◌<◌, length};
ghost use Rattle.syntax.specs.Filled.{bit_of};
ghost use Rattle.entry_rows.specs.Rows.{rows_of};
ghost use Rattle.layer_set_rows.specs.Buffers.{number_of, stored_numbers};

use es_loop::Entry;
use kept_closures::Columns;

// The stored number at a place: a closure, the number of indices in one, or whether one of them is absent.
pub fn stored_number(kept: &Columns, place: usize) -> u64
    requires { place < 192 }
    ensures { result ≡ number_of kept.now place }
{
    if place < 64 {
        return kept.closures[place];
    }
    if place < 128 {
        return u64::from(kept.sizes[place - 64]);
    }
    u64::from(kept.absents[place - 128])
}

// The rows of the entries, over all of the buffer.
pub fn lay_entries(entries: [Entry; 64], rows: &mut [u16])
    requires { length rows.old ≡ 5120 }
    ensures { rows.new ≡ rows_of entries }
{
    for i in 0..64 {
        let start = i * 80;
        let end = start + 80;
        row_laying::lay_row(&mut rows[start..end], entries[i]);
    }
}

// The stored numbers, over all of the buffer.
pub fn lay_stored(kept: &Columns, stored: &mut [u64])
    requires { length stored.old ≡ 192 }
    ensures { stored.new ≡ stored_numbers kept.now }
{
    for place in 0..192 {
        stored[place] = stored_number(kept, place);
    }
}
