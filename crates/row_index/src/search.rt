// The row of a layer that has a decoding time, found in the index: by a guess, and else in halves.
ghost use Rattle.std.specs.Prelude.{[], ◌≡◌, ◌≤◌, ◌<◌};
ghost use Rattle.rows.specs.Table.{table};
ghost use Rattle.row_index.specs.Index.{Sorted, Rising, Climbing, Reached, row_at};

// The first place of a layer's rows, from `first` on and before `end`, whose row lies at least `far` ahead of `origin`.
fn first_as_far(
    decodings: &[u64],
    order: &[usize],
    origin: u64,
    far: u64,
    first: usize,
    end: usize,
) -> usize
    requires { Climbing decodings.now order.now origin first end }
    ensures { Reached decodings.now order.now origin far first end result }
{
    let mut low = first;
    let mut high = end;
    while low < high {
        let middle = low + (high - low) / 2;
        if clock::distance(origin, decodings[order[middle]]) < far {
            low = middle + 1;
        } else {
            high = middle;
        }
    }
    low
}

// The row of a layer that has a decoding time, or the number of rows, by a search in halves: the layer's rows lie farther and farther ahead
// of its first. The place after the row found is noted as the layer's next.
fn row_sought(
    indices: &[u8],
    decodings: &[u64],
    starts: &[usize; 65],
    order: &[usize],
    layer: usize,
    time: u64,
    next: &mut [usize; 64],
) -> usize
    requires { Sorted indices.now decodings.now starts.now order.now
        × (layer < 64)
        × Rising (table indices.now decodings.now []) layer }
    ensures { result ≡ row_at (table indices.now decodings.now []) layer time }
{
    let none = indices.len();
    let first = starts[layer];
    let end = starts[layer + 1];
    if end <= first {
        return none;
    }
    let origin = decodings[order[first]];
    let place = first_as_far(
        decodings,
        order,
        origin,
        clock::distance(origin, time),
        first,
        end,
    );
    if end <= place {
        return none;
    }
    let row = order[place];
    if decodings[row] == time {
        next[layer] = place + 1;
        return row;
    }
    none
}

// The place to be looked at first: the one noted, or the layer's first where that is later.
fn guess_of(first: usize, noted: usize) -> usize
    ensures { first ≤ result }
{
    if noted < first {
        return first;
    }
    noted
}

// The row of a layer that has a decoding time, or the number of rows. Time goes on from unit to unit, so that it is mostly the row after the
// one found last; only one row of the layer has the time, so that this row is the answer wherever it has.
pub fn row_at(
    indices: &[u8],
    decodings: &[u64],
    starts: &[usize; 65],
    order: &[usize],
    layer: usize,
    time: u64,
    next: &mut [usize; 64],
) -> usize
    requires { Sorted indices.now decodings.now starts.now order.now
        × (layer < 64)
        × Rising (table indices.now decodings.now []) layer }
    ensures { result ≡ row_at (table indices.now decodings.now []) layer time }
{
    let guess = guess_of(starts[layer], next[layer]);
    if guess < starts[layer + 1] {
        let row = order[guess];
        if decodings[row] == time {
            next[layer] = guess + 1;
            return row;
        }
    }
    row_sought(indices, decodings, starts, order, layer, time, next)
}
