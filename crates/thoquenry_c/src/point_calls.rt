// The operation points of a program: read, and a descriptor written.
ghost use Rattle.std.specs.Prelude.{◌≡◌};
ghost use Rattle.thoquenry_points.specs.Reading.{lists, points_reply, read_points};
ghost use Rattle.c_answers.specs.Answers.{reply};
ghost use Rattle.thoquenry_points_written.specs.Writing.{write_points};

#[unsafe(no_mangle)]
pub extern "C" fn thq_read_points(
    program: &[u8],
    bytes: &[u8],
    descriptors: &mut [u32],
    profiles: &mut [u8],
    points: &mut [u32],
    references: &mut [u8],
    layers: &mut [u8],
    streams: &mut [u8],
    summary: &mut [u32],
) -> u64
    ensures { points_reply result (lists descriptors.new profiles.new points.new references.new layers.new streams.new summary.new)
        ≡ read_points program.now bytes.now
        (lists descriptors.old profiles.old points.old references.old layers.old streams.old summary.old) }
{
    thoquenry_points::thq_read_points(
        program,
        bytes,
        descriptors,
        profiles,
        points,
        references,
        layers,
        streams,
        summary,
    )
}

#[unsafe(no_mangle)]
pub extern "C" fn thq_write_points(
    profiles: &[u8],
    points: &[u32],
    references: &[u8],
    layers: &[u8],
    out: &mut [u8],
) -> u64
    ensures { reply result out.new ≡ write_points profiles.now points.now references.now layers.now out.old }
{
    thoquenry_points_written::thq_write_points(profiles, points, references, layers, out)
}
