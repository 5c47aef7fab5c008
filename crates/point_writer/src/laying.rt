// The bytes of a descriptor, from the front of a buffer on.
ghost use Rattle.std.specs.Prelude.{◌≡◌, false, ◌/◌, ◌%◌, ◌≤◌, length};
ghost use Rattle.combinators.specs.Lists.{any};
ghost use Rattle.buffers.specs.Buffers.{Laid};
ghost use Rattle.point_fields.specs.Fields.{row_too_wide, reference_too_wide, references_counted, layers_counted};
ghost use Rattle.point_weights.specs.Rows.{rows_in, total};
ghost use Rattle.point_writer.specs.Layout.{before_points, points_bytes};

use point_bytes::put_point;
use point_fields::ROW;

// What stands before the points: the head of the descriptor, which counts the bytes behind it, the extension tag, the profiles with their count, and the count of the points. 192 is two
// reserved bits before six.
pub fn put_before_points(out: &mut [u8], profiles: &[u8], points: usize, behind: usize) -> usize
    requires { (length profiles.now % 12 ≡ 0) × (length profiles.now / 12 ≤ 63) × (points ≤ 255) × (behind ≤ 255) }
    ensures { Laid out.old 0 (before_points profiles.now points behind) result out.new }
{
    let head = [63, behind as u8, 5, 192 + (profiles.len() / ROW) as u8];
    let count = [points as u8];
    let first = buffers::put(out, 0, &head);
    let second = one_by_one::put(out, first, profiles);
    buffers::put(out, second, &count)
}

// The points, each with as many references and layers as its row counts.
pub fn put_points(
    out: &mut [u8],
    at: usize,
    points: &[u32],
    references: &[u8],
    layers: &[u8],
) -> usize
    requires points_value { (any row_too_wide (rows_in points.now) ≡ false) × (any reference_too_wide references.now ≡ false) }
    requires points_value_2 { (total references_counted (rows_in points.now) ≡ length references.now) × (total layers_counted (rows_in points.now) ≡ length layers.now) }
    ensures { Laid out.old at (points_bytes (rows_in points.now) references.now layers.now) result out.new }
{
    let mut place = buffers::put(out, at, b"");
    let mut reference = 0;
    let mut layer = 0;
    let count = points.len() / ROW;
    for i in 0..count {
        let start = i * ROW;
        let end = start + ROW;
        let references_end = reference + points[start + 1] as usize;
        let layers_end = layer + points[start + 2] as usize;
        place = put_point(
            out,
            place,
            &points[start..end],
            &references[reference..references_end],
            &layers[layer..layers_end],
        );
        reference = references_end;
        layer = layers_end;
    }
    place
}
