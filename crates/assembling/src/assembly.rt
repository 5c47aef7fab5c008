// The assembly of a row: one row for each layer that its own layer rests on.
ghost use Rattle.std.specs.Prelude.{[], ◌≡◌, ◌≤◌, ◌<◌, length};
ghost use Rattle.combinators.specs.Padding.{pad_to};
ghost use Rattle.rows.specs.Table.{table};
ghost use Rattle.row_index.specs.Index.{Sorted, Rising};
ghost use Rattle.assembling.specs.Ready.{Ready};
ghost use Rattle.assembling.specs.Assemblies.{upper_of, lower_of, joins, Next, edges_of, most_edges, paired_row, no_rows, assembled};

use closure::Layers;
use row_index::row_at;

// How many edges a closure has at the most: one for each two of 64 layers.
pub const MOST_EDGES: usize = 2016;

// The edges of a closure, as many as `count`, in `list`.
#[derive(Clone, Copy)]
pub struct Edges {
    pub count: usize,
    pub list: [u16; MOST_EDGES],
}

fn upper_of(edge: usize) -> usize
    ensures { result ≡ upper_of edge }
{
    63 - edge / 64 % 64
}

fn lower_of(edge: usize) -> usize
    ensures { result ≡ lower_of edge }
{
    edge % 64
}

// Whether an upper layer of the closure names a lower one.
fn is_edge(closure: u64, embedded: u64, upper: usize, lower: usize) -> bool
    ensures { result ≡ joins closure embedded upper lower }
{
    if !sets::member(closure, upper) {
        return false;
    }
    if upper <= lower {
        return false;
    }
    sets::member(embedded, lower)
}

// The pair to be looked at after one, given what its upper layer embeds: the next edge of that layer, or the first pair of the next one.
fn next_edge(closure: u64, embedded: u64, edge: usize) -> usize
    requires { edge < 4096 }
    ensures { Next closure embedded edge result }
{
    let upper = upper_of(edge);
    let start = edge / 64 * 64;
    if !sets::member(closure, upper) {
        return start + 64;
    }
    let left = sets::without(embedded, sets::below(embedded, edge % 64 + 1));
    let next = usize::from(sets::lowest(left));
    if upper <= next {
        return start + 64;
    }
    start + next
}

// The edges of a closure, those of the highest layer first.
pub fn edges_of(layers: Layers, closure: u64) -> Edges
    ensures { result ≡ record { count = length (edges_of layers closure); list = pad_to most_edges 0 (edges_of layers closure) } }
{
    let mut list = [0u16; MOST_EDGES];
    let mut count = 0;
    let mut edge = 0;
    while edge < 4096 {
        let upper = upper_of(edge);
        let embedded = layers.embedded[upper];
        if is_edge(closure, embedded, upper, lower_of(edge)) {
            list[count] = edge as u16;
            count += 1;
        }
        edge = next_edge(closure, embedded, edge);
    }
    Edges { count, list }
}

// The row for the lower layer of an edge, given the row that the layer has so far, or the number of rows.
fn paired_row(
    indices: &[u8],
    decodings: &[u64],
    starts: &[usize; 65],
    order: &[usize],
    row: usize,
    layer: usize,
    time: u64,
    next: &mut [usize; 64],
) -> usize
    requires { Sorted indices.now decodings.now starts.now order.now
        × (layer < 64)
        × Rising (table indices.now decodings.now []) layer }
    ensures { result ≡ paired_row (table indices.now decodings.now []) row layer time }
{
    if row < indices.len() {
        if decodings[row] == time {
            return row;
        }
        return indices.len();
    }
    row_at(indices, decodings, starts, order, layer, time, next)
}

// Lays the assembly that the row `head` of the layer `top` is at the head of into `rows`, which comes with no row for any layer, and answers
// whether each edge of a layer that has a row was met. In `next` it notes for each layer the place after the row found last, for a guess: whatever stands there, the
// answer is the same.
pub fn assemble(
    indices: &[u8],
    decodings: &[u64],
    matches: &[u64],
    starts: &[usize; 65],
    order: &[usize],
    edges: &[u16],
    top: usize,
    head: usize,
    next: &mut [usize; 64],
    rows: &mut [usize; 64],
) -> bool
    requires { Ready (table indices.now decodings.now matches.now) starts.now order.now edges.now
        × (top < 64)
        × (rows.old ≡ no_rows (length indices.now)) }
    ensures complete { result
        ≡ (assembled (table indices.now decodings.now matches.now) edges.now top head).complete }
    ensures content { rows.new
        ≡ (assembled (table indices.now decodings.now matches.now) edges.now top head).rows }
{
    let none = indices.len();
    rows[top] = head;
    for &pair in edges {
        let edge = usize::from(pair);
        let upper = rows[63 - edge / 64 % 64];
        if upper < none {
            let lower = edge % 64;
            let row = paired_row(
                indices,
                decodings,
                starts,
                order,
                rows[lower],
                lower,
                matches[upper],
                next,
            );
            if none <= row {
                return false;
            }
            rows[lower] = row;
        }
    }
    true
}
