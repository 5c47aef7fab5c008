// The points of an operation point descriptor judged and weighed from the rows that a caller lends, in one pass: 25, 41, and 25 again for a length above
// 255, or how many bytes the descriptor takes. specs/Rows.antt has the verdict; proofs/Weights.antt that the pass finds it.
#![tactic(auto)]

ghost use Rattle.std.specs.Prelude.{◌≡◌, ◌+◌, ◌/◌, ◌≤◌, false, length, IfOk};
ghost use Rattle.combinators.specs.Lists.{any};
ghost use Rattle.point_fields.specs.Fields.{row_too_wide, reference_too_wide};
ghost use Rattle.point_weights.specs.Rows.{rows_in, counts_wrong, judged};
ghost use Rattle.point_weights.specs.Weighing.{nothing_weighed, weigh_next, weighed_after, decided};

use point_fields::{ROW, fields_size, row_too_wide};
use vocabulary::Refusal;

// What rows come to: whether one has a reserved count, how many references and layers they count, and the bytes of their fields.
#[derive(Clone, Copy)]
pub struct Weighed {
    pub reserved: bool,
    pub references: usize,
    pub layers: usize,
    pub size: usize,
}

// Lists that are no whole rows, or too many.
fn counts_wrong(profiles: usize, points: usize) -> bool
    ensures { result ≡ counts_wrong profiles points }
{
    (profiles % 12 != 0) | (63 < profiles / 12) | (points % 12 != 0) | (255 < points / 12)
}

// A reference holds seven bits.
fn some_reference_too_wide(references: &[u8]) -> bool
    ensures { result ≡ any reference_too_wide references.now }
{
    for reference in references {
        if 127 < *reference {
            return true;
        }
    }
    false
}

// One row more.
fn weigh_next(seen: Weighed, row: &[u32]) -> Weighed
    requires { (length row.now ≡ 12) × (row_too_wide row.now ≡ false) × (seen.references ≤ 65025) × (seen.layers ≤ 65025) × (seen.size ≤ 65025) }
    ensures { (result ≡ weigh_next seen row.now) × (result.references ≤ seen.references + 255) × (result.layers ≤ seen.layers + 255) × (result.size ≤ seen.size + 255) }
{
    Weighed {
        reserved: seen.reserved | (row[1] == 255),
        references: seen.references + row[1] as usize,
        layers: seen.layers + row[2] as usize,
        size: seen.size + fields_size(row),
    }
}

// All of them, or 25 where one is too wide.
fn weigh_points(points: &[u32]) -> Result<Weighed, Refusal>
    requires { length points.now / 12 ≤ 255 }
    ensures { (result ≡ weighed_after nothing_weighed (rows_in points.now)) × IfOk result (λ w. (w.references ≤ 65025) × (w.layers ≤ 65025) × (w.size ≤ 65025)) }
{
    let mut weighed = Weighed {
        reserved: false,
        references: 0,
        layers: 0,
        size: 0,
    };
    let count = points.len() / ROW;
    for i in 0..count {
        let start = i * ROW;
        let end = start + ROW;
        let row = &points[start..end];
        if row_too_wide(row) {
            return Err(Refusal::TooWide);
        }
        weighed = weigh_next(weighed, row);
    }
    Ok(weighed)
}

// The verdict on what the rows come to, beside lists that are so long.
fn decide(
    weighed: Weighed,
    profiles: usize,
    references: usize,
    layers: usize,
) -> Result<usize, Refusal>
    requires { (profiles ≤ 65025) × (weighed.references ≤ 65025) × (weighed.layers ≤ 65025) × (weighed.size ≤ 65025) }
    ensures { result ≡ decided weighed profiles references layers }
{
    if (weighed.references != references) | (weighed.layers != layers) {
        return Err(Refusal::TooWide);
    }
    if weighed.reserved {
        return Err(Refusal::ReservedEsCount);
    }
    let length = 3 + profiles + weighed.references + weighed.layers + weighed.size;
    if 255 < length {
        return Err(Refusal::TooWide);
    }
    Ok(2 + length)
}

// THE VERDICT on a descriptor of these rows: so many bytes of profiles, the points, their references, and so many layers.
pub fn judge(
    profiles: usize,
    points: &[u32],
    references: &[u8],
    layers: usize,
) -> Result<usize, Refusal>
    ensures { result ≡ judged profiles points.now references.now layers }
{
    if counts_wrong(profiles, points.len()) {
        return Err(Refusal::TooWide);
    }
    if some_reference_too_wide(references) {
        return Err(Refusal::TooWide);
    }
    let weighed = weigh_points(points)?;
    decide(weighed, profiles, references.len(), layers)
}
