// The heads of a table judged together, as W-204 of document 02 has it: every unclaimed closure row heads a unit, its assembly over the closure of its own layer.
// In table order, the first head that has no assembly (15) and the first that shares a row with a head before it (16); and the rows of all units, kept, so that none is assembled twice.
#![tactic(auto)]

ghost use Rattle.std.specs.Prelude.{false, [], ◌≡◌, ℕ, ◌+◌, ◌≤◌, ◌<◌, length, get_or};
ghost use Rattle.std.proofs.lemmas.List.Edits.{sets as laid};
ghost use Rattle.combinators.specs.Lists.{any};
ghost use Rattle.sets.specs.Sets.{members_of};
ghost use Rattle.rows.specs.Table.{table};
ghost use Rattle.assembling.specs.Ready.{Ready};
ghost use Rattle.heads.specs.Units.{frame, unit_from, unpaired as isUnpaired, first_unpaired};
ghost use Rattle.heads.specs.Judging.{Placed, Whole, cleared, marked, Judges};

use assembling::assemble;

// What was found of the heads: the first with no assembly and the first that shares a row with one before it, each the number of rows where there is none;
// and where there is neither, how many units there are.
#[derive(Clone, Copy)]
pub struct Judged {
    pub unpaired: usize,
    pub shared: usize,
    pub units: usize,
}

// Whether a row of the unit is marked as used.
fn any_used(rows: &[usize; 64], own: u64, used: &[bool]) -> bool
    requires { Placed own rows.now (length used.now) }
    ensures { result ≡ any (λ row. get_or used.now row false) (unit_from (members_of own) rows.now) }
{
    let mut left = own;
    while left != 0 {
        let layer = usize::from(sets::lowest(left));
        if used[rows[layer]] {
            return true;
        }
        left = sets::rest(left);
    }
    false
}

// Marks each row of the unit as used, and moves the rows into `kept` from place `place` on, in rising layer index: where they stood there is
// `none` again.
fn keep(
    none: usize,
    rows: &mut [usize; 64],
    own: u64,
    place: usize,
    used: &mut [bool],
    kept: &mut [usize],
)
    requires { Placed own rows.old (length used.old) × (place + length (members_of own) ≤ length kept.old) }
    ensures blank { rows.new ≡ cleared none (members_of own) rows.old }
    ensures marks { used.new ≡ marked (unit_from (members_of own) rows.old) used.old }
    ensures content { kept.new ≡ laid kept.old place (unit_from (members_of own) rows.old) }
{
    let mut left = own;
    let mut at = place;
    while left != 0 {
        let layer = usize::from(sets::lowest(left));
        let row = rows[layer];
        rows[layer] = none;
        used[row] = true;
        kept[at] = row;
        at += 1;
        left = sets::rest(left);
    }
}

// The first head that has no assembly, or the number of rows, where it is known that there is none before `from`.
fn first_unpaired(
    closure: u64,
    indices: &[u8],
    decodings: &[u64],
    matches: &[u64],
    starts: &[usize; 65],
    order: &[usize],
    edges: &[u16],
    claimed: &[bool],
    from: usize,
) -> usize
    requires { Ready (table indices.now decodings.now matches.now) starts.now order.now edges.now
        × (length indices.now ≤ length claimed.now)
        × ((k : ℕ) → k < from
        → isUnpaired (table indices.now decodings.now matches.now) (frame closure claimed.now [] edges.now) k ≡ false) }
    ensures { result
        ≡ first_unpaired (table indices.now decodings.now matches.now)
        (frame closure claimed.now [] edges.now) }
{
    let none = indices.len();
    let mut next = [0usize; 64];
    for row in from..none {
        let layer = usize::from(indices[row]);
        if sets::member(closure, layer) & !claimed[row] {
            let mut rows = [none; 64];
            let complete = assemble(
                indices, decodings, matches, starts, order, edges, layer, row, &mut next, &mut rows,
            );
            if !complete {
                return row;
            }
        }
    }
    none
}

// THE CALL. All heads, in the table's order, given the closure as a set, the columns and their index by layer, the closure's edges, for each layer the set of those that it rests on,
// and a mark for each row that is claimed. The rows of their units are laid into `kept`, one unit after another, and in `places` stands for each head where its unit starts: as long as
// no row stands in two of them, they fill no more places than there are rows. A unit that shares a row ends this, and only 15, which comes before 16 wherever it
// stands, is looked for from there on. What `used` holds before and after says nothing.
pub fn judge(
    closure: u64,
    indices: &[u8],
    decodings: &[u64],
    matches: &[u64],
    starts: &[usize; 65],
    order: &[usize],
    edges: &[u16],
    own: &[u64; 64],
    claimed: &[bool],
    used: &mut [bool],
    kept: &mut [usize],
    places: &mut [usize],
) -> Judged
    requires { Ready (table indices.now decodings.now matches.now) starts.now order.now edges.now
        × Whole (table indices.now decodings.now matches.now) (frame closure claimed.now own.now edges.now)
        × (length indices.now ≤ length claimed.now)
        × (length indices.now ≤ length used.old)
        × (length indices.now ≤ length kept.old)
        × (length indices.now ≤ length places.old) }
    ensures { Judges (table indices.now decodings.now matches.now)
        (frame closure claimed.now own.now edges.now) result kept.new places.new }
{
    let none = indices.len();
    claims::clear(used, none);
    let mut next = [0usize; 64];
    let mut rows = [none; 64];
    let mut units = 0;
    let mut place = 0;
    for row in 0..none {
        let layer = usize::from(indices[row]);
        if sets::member(closure, layer) & !claimed[row] {
            let complete = assemble(
                indices, decodings, matches, starts, order, edges, layer, row, &mut next, &mut rows,
            );
            if !complete {
                return Judged {
                    unpaired: row,
                    shared: none,
                    units,
                };
            }
            let members = own[layer];
            if any_used(&rows, members, used) {
                let unpaired = first_unpaired(
                    closure,
                    indices,
                    decodings,
                    matches,
                    starts,
                    order,
                    edges,
                    claimed,
                    row + 1,
                );
                return Judged {
                    unpaired,
                    shared: row,
                    units,
                };
            }
            keep(none, &mut rows, members, place, used, kept);
            places[row] = place;
            place += sets::size(members);
            units += 1;
        }
    }
    Judged {
        unpaired: none,
        shared: none,
        units,
    }
}
