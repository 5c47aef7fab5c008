// Joining in two steps, the closure of the target and then the table over it: the units, the room, and the lists.
ghost use Rattle.std.specs.Prelude.{◌≡◌, ℕ, length};
ghost use Rattle.rows.specs.Table.{table, most_rows};
ghost use Rattle.row_index.specs.Index.{Starts, Order};
ghost use Rattle.heads.specs.Units.{frame};
ghost use Rattle.heads.specs.Orderly.{Closed, Orderly};
ghost use Rattle.unit_lists.specs.Sequence.{lists};
ghost use Rattle.join_answers.specs.Joining.{frame_of, units_joined, table_joined, joined_of, room_of, lists_after, most_long};
ghost use Rattle.join_answers.specs.Steps.{spaces, Holds, Joinable, framed_lists};

use assembling::edges_of;
use closure::Layers;
use join_answers::{Units, closure_rows, most_long, own_sets, too_small};
use row_index::{lay_order, starts_of};
use rows::MOST_ROWS;
use unit_lists::write_units;
use vocabulary::Refusal;

// The units over a frame: 15, 16, 18 and 17, and then the lists. What the work space holds afterwards says nothing.
fn join_framed(
    closure: u64,
    indices: &[u8],
    decodings: &[u64],
    matches: &[u64],
    starts: &[usize; 65],
    edges: &[u16],
    own: &[u64; 64],
    claimed: &[bool],
    order: &mut [usize],
    keys: &mut [u64],
    kept: &mut [usize],
    places: &mut [usize],
    heads: &mut [usize],
    used: &mut [bool],
    numbers: &mut [u64],
    lags: &mut [i64],
    sizes: &mut [u64],
) -> Result<Units, Refusal>
    requires { Joinable closure (table indices.now decodings.now matches.now) (frame closure claimed.now own.now edges.now)
        × Starts indices.now starts.now
        × Order indices.now order.old
        × Holds (length indices.now)
        (length order.old) (length keys.old) (length kept.old) (length places.old) (length heads.old) (length claimed.now) (length used.old) }
    ensures answer { result
        ≡ units_joined (table indices.now decodings.now matches.now)
        (frame closure claimed.now own.now edges.now)
        (room_of (lists numbers.old lags.old sizes.old)) }
    ensures content { lists numbers.new lags.new sizes.new
        ≡ framed_lists (table indices.now decodings.now matches.now)
        (frame closure claimed.now own.now edges.now) result
        (lists numbers.old lags.old sizes.old) }
{
    let none = indices.len();
    let judged = heads::judge(
        closure, indices, decodings, matches, starts, order, edges, own, claimed, used, kept,
        places,
    );
    if judged.unpaired < none {
        return Err(Refusal::Unpaired(judged.unpaired));
    }
    if judged.shared < none {
        return Err(Refusal::UsedTwice(judged.shared));
    }
    if spans::measure(closure, indices, decodings, keys) {
        return Err(Refusal::SpanTooWide);
    }
    let rows = closure_rows(closure, indices, starts);
    if too_small(rows, numbers.len(), lags.len(), sizes.len()) {
        return Err(Refusal::NoRoom);
    }
    write_units(
        closure, indices, decodings, starts, order, keys, own, claimed, kept, places, heads,
        numbers, lags, sizes,
    );
    Ok(Units {
        closure,
        units: judged.units,
        rows,
    })
}

// The units over a whole closure, of a table in range and in order.
fn join_ordered(
    layers: Layers,
    closure: u64,
    indices: &[u8],
    decodings: &[u64],
    matches: &[u64],
    order: &mut [usize],
    keys: &mut [u64],
    kept: &mut [usize],
    places: &mut [usize],
    heads: &mut [usize],
    claimed: &mut [bool],
    used: &mut [bool],
    numbers: &mut [u64],
    lags: &mut [i64],
    sizes: &mut [u64],
) -> Result<Units, Refusal>
    requires { ((target : ℕ) × Orderly layers target closure (table indices.now decodings.now matches.now))
        × Holds (length indices.now)
        (length order.old) (length keys.old) (length kept.old) (length places.old) (length heads.old) (length claimed.old) (length used.old) }
    ensures answer { result
        ≡ units_joined (table indices.now decodings.now matches.now)
        (frame_of layers closure (table indices.now decodings.now matches.now))
        (room_of (lists numbers.old lags.old sizes.old)) }
    ensures content { lists numbers.new lags.new sizes.new
        ≡ framed_lists (table indices.now decodings.now matches.now)
        (frame_of layers closure (table indices.now decodings.now matches.now)) result
        (lists numbers.old lags.old sizes.old) }
{
    let rows = indices.len();
    let starts = starts_of(indices);
    lay_order(indices, starts, order);
    let edges = edges_of(layers, closure);
    let count = edges.count;
    let pairs = edges.list;
    let own = own_sets(layers, closure);
    claims::mark_claimed(
        layers, closure, indices, decodings, matches, &starts, order, claimed,
    );
    join_framed(
        closure,
        indices,
        decodings,
        matches,
        &starts,
        &pairs[..count],
        &own,
        &claimed[..rows],
        order,
        keys,
        kept,
        places,
        heads,
        used,
        numbers,
        lags,
        sizes,
    )
}

// THE TABLE OVER A CLOSURE, the second step of joining: how many rows there may be, the layers of a loop, a target with its whole closure as `closure::closure_of`
// answers it, the three columns, a work space that holds as many rows, and the three lists, as `join_long` has them. It answers the units, or the refusal, 13 to 18.
pub fn join_table(
    most: usize,
    layers: Layers,
    closure: u64,
    target: u64,
    indices: &[u8],
    decodings: &[u64],
    matches: &[u64],
    order: &mut [usize],
    keys: &mut [u64],
    kept: &mut [usize],
    places: &mut [usize],
    heads: &mut [usize],
    claimed: &mut [bool],
    used: &mut [bool],
    numbers: &mut [u64],
    lags: &mut [i64],
    sizes: &mut [u64],
) -> Result<Units, Refusal>
    requires { Closed layers target closure
        × Holds most
        (length order.old) (length keys.old) (length kept.old) (length places.old) (length heads.old) (length claimed.old) (length used.old) }
    ensures answer { result
        ≡ table_joined most layers (table indices.now decodings.now matches.now) closure
        (room_of (lists numbers.old lags.old sizes.old)) }
    ensures content { lists numbers.new lags.new sizes.new
        ≡ framed_lists (table indices.now decodings.now matches.now)
        (frame_of layers closure (table indices.now decodings.now matches.now)) result
        (lists numbers.old lags.old sizes.old) }
{
    rows::judge(most, closure, indices, decodings, matches)?;
    join_ordered(
        layers, closure, indices, decodings, matches, order, keys, kept, places, heads, claimed,
        used, numbers, lags, sizes,
    )
}

// THE CALL FOR TABLES OF ANY LENGTH: the closure, then the table over it. The layers of a loop, a target, the three columns of the row table, seven lists for the work, and the three lists
// for the answer, of any lengths: the row numbers of the units, the lag beside each, and the size of each unit. The work space holds as many rows as its shortest list
// has places, and a table with more gets 13 at place 0. What it holds before and after says nothing. After a refusal the three lists are as they were.
pub fn join_long(
    layers: Layers,
    target: u64,
    indices: &[u8],
    decodings: &[u64],
    matches: &[u64],
    order: &mut [usize],
    keys: &mut [u64],
    kept: &mut [usize],
    places: &mut [usize],
    heads: &mut [usize],
    claimed: &mut [bool],
    used: &mut [bool],
    numbers: &mut [u64],
    lags: &mut [i64],
    sizes: &mut [u64],
) -> Result<Units, Refusal>
    ensures answer { result
        ≡ joined_of (most_long (spaces (length order.old) (length keys.old) (length kept.old) (length places.old)
        (length heads.old) (length claimed.old) (length used.old))) layers target
        (table indices.now decodings.now matches.now)
        (room_of (lists numbers.old lags.old sizes.old)) }
    ensures content { lists numbers.new lags.new sizes.new
        ≡ lists_after layers (table indices.now decodings.now matches.now) result
        (lists numbers.old lags.old sizes.old) }
{
    let most = most_long(
        order.len(),
        keys.len(),
        kept.len(),
        places.len(),
        heads.len(),
        claimed.len(),
        used.len(),
    );
    let set = closure::closure_of(layers, target)?;
    join_table(
        most, layers, set, target, indices, decodings, matches, order, keys, kept, places, heads,
        claimed, used, numbers, lags, sizes,
    )
}

// THE CALL, for tables of 512 rows at the most, with a work space of its own: the layers of a loop, a target, the three columns of the row table, and the three lists for the answer,
// of any lengths: the row numbers of the units, the lag beside each, and the size of each unit. After a refusal the lists are as they were.
pub fn join(
    layers: Layers,
    target: u64,
    indices: &[u8],
    decodings: &[u64],
    matches: &[u64],
    numbers: &mut [u64],
    lags: &mut [i64],
    sizes: &mut [u64],
) -> Result<Units, Refusal>
    ensures answer { result
        ≡ joined_of most_rows layers target (table indices.now decodings.now matches.now)
        (room_of (lists numbers.old lags.old sizes.old)) }
    ensures content { lists numbers.new lags.new sizes.new
        ≡ lists_after layers (table indices.now decodings.now matches.now) result
        (lists numbers.old lags.old sizes.old) }
{
    let mut order = [0usize; MOST_ROWS];
    let mut keys = [0u64; MOST_ROWS];
    let mut kept = [0usize; MOST_ROWS];
    let mut places = [0usize; MOST_ROWS];
    let mut heads = [0usize; MOST_ROWS];
    let mut claimed = [false; MOST_ROWS];
    let mut used = [false; MOST_ROWS];
    join_long(
        layers,
        target,
        indices,
        decodings,
        matches,
        &mut order,
        &mut keys,
        &mut kept,
        &mut places,
        &mut heads,
        &mut claimed,
        &mut used,
        numbers,
        lags,
        sizes,
    )
}
