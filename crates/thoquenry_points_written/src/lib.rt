// An operation point descriptor written for C, and for whatever calls C. include/thoquenry.h documents the function; specs/ has one definition of its answer and
// of what its buffer holds afterwards.
#![tactic(auto)]

ghost use Rattle.std.specs.Prelude.{◌≡◌};
ghost use Rattle.c_answers.specs.Answers.{reply};
ghost use Rattle.thoquenry_points_written.specs.Writing.{write_points};

use c_answers::{accepted, refused};

pub fn thq_write_points(
    profiles: &[u8],
    points: &[u32],
    references: &[u8],
    layers: &[u8],
    out: &mut [u8],
) -> u64
    ensures { reply result out.new ≡ write_points profiles.now points.now references.now layers.now out.old }
{
    let written = point_writer::write_points(profiles, points, references, layers, out);
    match written {
        Ok(count) => accepted(count),
        Err(refusal) => refused(refusal),
    }
}
