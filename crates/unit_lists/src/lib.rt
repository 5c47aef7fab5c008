// The units in their order, as W-204 of document 02 has it: by the distance of the head's decoding time from that of the first closure row, then by lower layer, then by row;
// and the three lists that hold them: row numbers, lags and sizes.
#![tactic(auto)]

ghost use Rattle.std.specs.Prelude.{[], ◌≡◌, ◌+◌, ◌-◌, ◌≤◌, length};
ghost use Rattle.std.proofs.lemmas.List.Edits.{sets};
ghost use Rattle.std.proofs.Math.Seq.{slice};
ghost use Rattle.rows.specs.Table.{table};
ghost use Rattle.heads.specs.Units.{frame, lags_from};
ghost use Rattle.unit_lists.specs.Sequence.{heads_in_order, lists};
ghost use Rattle.unit_lists.specs.Writing.{lists_kept, Between, Fillable, Writable};

use unit_order::order_heads;

// Writes the rows of one unit, those kept from place `first` on and before `end`, from place `at` on, and the lag of each beside it.
fn write_unit(
    kept: &[usize],
    decodings: &[u64],
    time: u64,
    first: usize,
    end: usize,
    at: usize,
    numbers: &mut [u64],
    lags: &mut [i64],
)
    requires { Between kept.now (length decodings.now) first end
        × (at + (end - first) ≤ length numbers.old)
        × (at + (end - first) ≤ length lags.old) }
    ensures content { numbers.new ≡ sets numbers.old at (slice first end kept.now) }
    ensures beside { lags.new
        ≡ sets lags.old at (lags_from (table [] decodings.now []) time (slice first end kept.now)) }
{
    let mut next = at;
    for from in first..end {
        let row = kept[from];
        numbers[next] = row as u64;
        lags[next] = clock::lag(decodings[row], time);
        next += 1;
    }
}

// Writes the units of some heads, one after another, out of the rows that were kept of them, and the size of each.
fn write_heads(
    indices: &[u8],
    decodings: &[u64],
    own: &[u64; 64],
    kept: &[usize],
    places: &[usize],
    heads: &[usize],
    numbers: &mut [u64],
    lags: &mut [i64],
    sizes: &mut [u64],
)
    requires { Fillable (table indices.now decodings.now []) (frame 0 [] own.now []) kept.now places.now heads.now
        (length numbers.old) (length lags.old) (length sizes.old) }
    ensures { lists numbers.new lags.new sizes.new
        ≡ lists_kept (table indices.now decodings.now []) (frame 0 [] own.now []) kept.now places.now
        heads.now (lists numbers.old lags.old sizes.old) }
{
    let mut at = 0;
    for (unit, &head) in heads.iter().enumerate() {
        let layer = usize::from(indices[head]);
        let size = sets::size(own[layer]);
        let first = places[head];
        write_unit(
            kept,
            decodings,
            decodings[head],
            first,
            first + size,
            at,
            numbers,
            lags,
        );
        sizes[unit] = size as u64;
        at += size;
    }
}

// THE CALL. The set of a closure's layer indices, two columns of a table, the index of its rows by layer, the rows' keys, the sets that the layers rest on, the marks of claimed
// rows, and the rows of each head's unit, kept from the place on that is noted for it: writes the units of all heads, in their order, into the three lists. Beyond
// them the lists are as they were. `order` and `heads` are work space.
pub fn write_units(
    closure: u64,
    indices: &[u8],
    decodings: &[u64],
    starts: &[usize; 65],
    order: &mut [usize],
    keys: &[u64],
    own: &[u64; 64],
    claimed: &[bool],
    kept: &[usize],
    places: &[usize],
    heads: &mut [usize],
    numbers: &mut [u64],
    lags: &mut [i64],
    sizes: &mut [u64],
)
    requires { Writable (table indices.now decodings.now []) (frame closure claimed.now own.now []) starts.now order.old keys.now kept.now
        places.now (length heads.old) (length numbers.old) (length lags.old) (length sizes.old) }
    ensures { lists numbers.new lags.new sizes.new
        ≡ lists_kept (table indices.now decodings.now []) (frame closure claimed.now own.now []) kept.now
        places.now
        (heads_in_order (table indices.now decodings.now []) (frame closure claimed.now own.now []))
        (lists numbers.old lags.old sizes.old) }
{
    let count = order_heads(closure, starts, order, keys, claimed, heads);
    write_heads(
        indices,
        decodings,
        own,
        kept,
        places,
        &heads[..count],
        numbers,
        lags,
        sizes,
    );
}
