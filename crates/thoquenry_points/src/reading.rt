// Read from a program's own descriptor loop and its elementary-stream loop, into seven lists.
ghost use Rattle.std.specs.Prelude.{◌≡◌, ◌&&◌, [], ◌∷◌, ◌/◌, ◌≤◌, leb, length};
ghost use Rattle.combinators.specs.Lists.{gather};
ghost use Rattle.buffers.specs.Buffers.{over};
ghost use Rattle.operation_points.specs.Values.{reference_bytes, layer_bytes};
ghost use Rattle.program_points.specs.Places.{value_at, profiles_at, counts_at, AllPoints, AllPayloads};
ghost use Rattle.program_points.specs.Told.{streams_of, row_in};
ghost use Rattle.thoquenry_points.specs.Reading.{Ready, lists, points_reply, told_points, read_points};

use c_answers::{accepted, refused};
use closure::Layers;
use program_points::{PointsRead, Tally};
use vocabulary::Refusal;

// Whether each of seven lists is as long as it has to be.
fn has_room(
    descriptors: usize,
    descriptors_lent: usize,
    profiles: usize,
    profiles_lent: usize,
    points: usize,
    points_lent: usize,
    references: usize,
    references_lent: usize,
    flags: usize,
    flags_lent: usize,
    streams: usize,
    streams_lent: usize,
    summary_lent: usize,
) -> bool
    ensures { result ≡ leb descriptors descriptors_lent && (leb profiles profiles_lent && (leb points points_lent
        && (leb references references_lent && (leb flags flags_lent && (leb streams streams_lent && leb 6 summary_lent))))) }
{
    (descriptors <= descriptors_lent)
        & ((profiles <= profiles_lent)
            & ((points <= points_lent)
                & ((references <= references_lent)
                    & ((flags <= flags_lent) & ((streams <= streams_lent) & (6 <= summary_lent))))))
}

fn small(count: usize) -> u32
    requires { count ≤ 1000000 }
    ensures { result ≡ count }
{
    count as u32
}

// How much there is of everything.
fn summary_of(descriptors: usize, profile_bytes: usize, points: usize, tally: Tally) -> [u32; 6]
    requires { (descriptors ≤ 1000000) × (profile_bytes ≤ 1000000) × (points ≤ 1000000) × (tally.references ≤ 1000000) × (tally.flags ≤ 1000000) × (tally.streams ≤ 1000000) }
    ensures { result ≡ descriptors ∷ (profile_bytes / 12) ∷ points ∷ tally.references ∷ tally.flags ∷ tally.streams ∷ [] }
{
    [
        small(descriptors),
        small(profile_bytes / 12),
        small(points),
        small(tally.references),
        small(tally.flags),
        small(tally.streams),
    ]
}

// The lists that have a part for each descriptor.
fn lay_payloads(program: &[u8], places: &[usize], descriptors: &mut [u32], profiles: &mut [u8])
    requires { AllPayloads program.now places.now × (length (gather (counts_at program.now) places.now) ≤ length descriptors.old)
        × (length (gather (profiles_at program.now) places.now) ≤ length profiles.old) }
    ensures { (descriptors.new ≡ over (gather (counts_at program.now) places.now) descriptors.old)
        × (profiles.new ≡ over (gather (profiles_at program.now) places.now) profiles.old) }
{
    point_rows::lay_descriptors(descriptors, program, places);
    point_rows::lay_profiles(profiles, program, places);
}

// The lists that have a part for each point.
fn lay_points(
    program: &[u8],
    places: &[usize],
    layers: Layers,
    points: &mut [u32],
    references: &mut [u8],
    flags: &mut [u8],
    streams: &mut [u8],
)
    requires { AllPoints program.now places.now × (length (gather (λ at. row_in layers (value_at program.now at)) places.now) ≤ length points.old)
        × (length (gather (λ at. reference_bytes (value_at program.now at)) places.now) ≤ length references.old)
        × (length (gather (λ at. layer_bytes (value_at program.now at)) places.now) ≤ length flags.old)
        × (length (gather (λ at. streams_of layers (value_at program.now at)) places.now) ≤ length streams.old) }
    ensures { (points.new ≡ over (gather (λ at. row_in layers (value_at program.now at)) places.now) points.old)
        × (references.new ≡ over (gather (λ at. reference_bytes (value_at program.now at)) places.now) references.old)
        × (flags.new ≡ over (gather (λ at. layer_bytes (value_at program.now at)) places.now) flags.old)
        × (streams.new ≡ over (gather (λ at. streams_of layers (value_at program.now at)) places.now) streams.old) }
{
    point_rows::lay_points(points, program, places, layers);
    point_rows::lay_references(references, program, places);
    point_rows::lay_flags(flags, program, places);
    point_rows::lay_streams(streams, program, places, layers);
}

// Points that were accepted, where there is room for them.
fn lay_read(
    read: PointsRead,
    program: &[u8],
    descriptors: &mut [u32],
    profiles: &mut [u8],
    points: &mut [u32],
    references: &mut [u8],
    flags: &mut [u8],
    streams: &mut [u8],
    summary: &mut [u32],
) -> u64
    requires { Ready program.now read }
    ensures { points_reply result (lists descriptors.new profiles.new points.new references.new flags.new streams.new summary.new)
        ≡ told_points read.layers program.now
        (lists descriptors.old profiles.old points.old references.old flags.old streams.old summary.old) }
{
    let layers = read.layers;
    let found = read.found;
    let tally = read.tally;
    let profile_bytes = read.profile_bytes;
    let payloads = found.payloads;
    let places = found.points;
    let count = found.count;
    let payload_count = found.descriptors;
    if !has_room(
        2 * payload_count,
        descriptors.len(),
        profile_bytes,
        profiles.len(),
        12 * count,
        points.len(),
        tally.references,
        references.len(),
        tally.flags,
        flags.len(),
        tally.streams,
        streams.len(),
        summary.len(),
    ) {
        return refused(Refusal::NoRoom);
    }
    let numbers = summary_of(payload_count, profile_bytes, count, tally);
    lay_payloads(program, &payloads[..payload_count], descriptors, profiles);
    lay_points(
        program,
        &places[..count],
        layers,
        points,
        references,
        flags,
        streams,
    );
    point_rows::put_numbers(summary, 0, &numbers);
    accepted(count)
}

pub fn thq_read_points(
    program: &[u8],
    bytes: &[u8],
    descriptors: &mut [u32],
    profiles: &mut [u8],
    points: &mut [u32],
    references: &mut [u8],
    layers: &mut [u8],
    streams: &mut [u8],
    summary: &mut [u32],
) -> u64
    ensures { points_reply result (lists descriptors.new profiles.new points.new references.new layers.new streams.new summary.new)
        ≡ read_points program.now bytes.now
        (lists descriptors.old profiles.old points.old references.old layers.old streams.old summary.old) }
{
    let read = program_points::read_points(program, bytes);
    let outcome = read.outcome;
    match outcome {
        Ok(()) => lay_read(
            read,
            program,
            descriptors,
            profiles,
            points,
            references,
            layers,
            streams,
            summary,
        ),
        Err(refusal) => refused(refusal),
    }
}
