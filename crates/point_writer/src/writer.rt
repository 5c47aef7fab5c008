// The call: judged first, and written only where nothing refuses it.
ghost use Rattle.std.specs.Prelude.{◌≡◌, length};
ghost use Rattle.point_writer.specs.Writing.{answer, content};

use super::laying::{put_before_points, put_points};
use point_fields::ROW;
use point_weights::judge;
use vocabulary::Refusal;

// Writes the descriptor into `out`, from its front on.
pub fn write_points(
    profiles: &[u8],
    points: &[u32],
    references: &[u8],
    layers: &[u8],
    out: &mut [u8],
) -> Result<usize, Refusal>
    ensures { (result ≡ answer (length out.old) profiles.now points.now references.now layers.now) × (out.new ≡ content profiles.now points.now references.now layers.now out.old) }
{
    let size = judge(profiles.len(), points, references, layers.len())?;
    if out.len() < size {
        return Err(Refusal::NoRoom);
    }
    let place = put_before_points(out, profiles, points.len() / ROW, size - 2);
    put_points(out, place, points, references, layers);
    Ok(size)
}
