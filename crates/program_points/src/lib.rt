// The operation points of a program (document 02, W-205): its own descriptor loop and the elementary-stream loop, by the 2015 reading, answer the points with
// their stream lists, or the refusal: the elementary-stream loop's own, 1 to 9, then 40, 41, 42.
//
// specs/Places.antt has what stands at a place of the program's loop, specs/Told.antt the answer; points_meaning has what is right in the words of W-205, and
// the proof that the two are one.
#![tactic(auto)]

ghost use Rattle.std.specs.Prelude.{◌≡◌, map, ◌≤◌, length};
ghost use Rattle.combinators.specs.Lists.{gather};
ghost use Rattle.point_descriptors.specs.Descriptors.{program_filling, found_in};
ghost use Rattle.program_points.specs.Places.{blank_point, point_or, head_or, point_at, value_at, head_at, profiles_at, IsPoint, AllPoints, AllPayloads};
ghost use Rattle.program_points.specs.Told.{list_of, tally_of, tally_with, Small, Grows, no_tally, refused_points, points_in, Filled, by_tally, refusal_of, by_filling, points_read};

use closure::Layers;
use operation_points::{Head, Point, PointFault, first_point, read_head};
use point_descriptors::Found;
use stream_lists::ListBuilt;
use vocabulary::{Reading, Refusal};

// Of all points: whether 42 applies to any, and how many references, layer flags and members of stream lists they have.
#[derive(Clone, Copy)]
pub struct Tally {
    pub absent: bool,
    pub references: usize,
    pub flags: usize,
    pub streams: usize,
}

// What is answered: the outcome and, where it is accepted, the layers in which the points' lists are built, where the points stand in the program's loop, and
// how much there is of them.
#[derive(Clone, Copy)]
pub struct PointsRead {
    pub outcome: Result<(), Refusal>,
    pub layers: Layers,
    pub found: Found,
    pub profile_bytes: usize,
    pub tally: Tally,
}

fn blank_point() -> Point
    ensures { result ≡ blank_point }
{
    Point {
        target_ols: 0,
        es_count: 0,
        num_es_in_op: 0,
        flags_at: 0,
        avg_bit_rate_info_flag: false,
        max_bit_rate_info_flag: false,
        constant_frame_rate_info_idc: 0,
        applicable_temporal_id: 0,
        frame_rate_indicator: 0,
        avg_bit_rate: 0,
        max_bit_rate: 0,
        size: 0,
    }
}

fn point_or(read: Result<Point, PointFault>) -> Point
    ensures { result ≡ point_or read }
{
    match read {
        Ok(point) => point,
        Err(_) => blank_point(),
    }
}

fn head_or(read: Option<Head>) -> Head
    ensures { result ≡ head_or read }
{
    match read {
        Some(head) => head,
        None => Head {
            num_ptl: 0,
            operation_points_count: 0,
            points_at: 0,
        },
    }
}

// The point at a place of the program's loop.
pub fn point_at(program: &[u8], at: usize) -> Point
    requires { at ≤ length program.now }
    ensures { result ≡ point_at program.now at }
{
    point_or(first_point(&program[at..]))
}

// The head of the payload at a place of it.
pub fn head_at(program: &[u8], at: usize) -> Head
    requires { at ≤ length program.now }
    ensures { result ≡ head_at program.now at }
{
    head_or(read_head(&program[at..]))
}

// The stream list of the point at a place.
pub fn list_at(program: &[u8], at: usize, layers: Layers) -> ListBuilt
    requires { IsPoint program.now at }
    ensures { result ≡ list_of layers (value_at program.now at) }
{
    let point = point_at(program, at);
    let first = at + 2;
    let end = first + point.es_count as usize;
    stream_lists::stream_list(layers, &program[first..end])
}

// One point more.
fn tally_with(tally: Tally, program: &[u8], at: usize, layers: Layers) -> Tally
    requires { IsPoint program.now at × Small tally }
    ensures { (result ≡ tally_with layers tally (value_at program.now at)) × Grows tally result }
{
    let point = point_at(program, at);
    let built = list_at(program, at, layers);
    let list = built.list;
    Tally {
        absent: tally.absent | built.absent,
        references: tally.references + point.es_count as usize,
        flags: tally.flags + point.num_es_in_op as usize,
        streams: tally.streams + list.count,
    }
}

// All of them.
fn tally_points(program: &[u8], places: &[usize], layers: Layers) -> Tally
    requires { AllPoints program.now places.now × (length places.now ≤ 336) }
    ensures { result ≡ tally_of layers (map (value_at program.now) places.now) }
{
    let mut tally = no_tally();
    for place in places {
        tally = tally_with(tally, program, *place, layers);
    }
    tally
}

// The bytes of all profile structures.
fn profile_bytes(program: &[u8], places: &[usize]) -> usize
    requires { AllPayloads program.now places.now × (length places.now ≤ 336) }
    ensures { result ≡ length (gather (profiles_at program.now) places.now) }
{
    let mut bytes = 0;
    for place in places {
        let head = head_at(program, *place);
        bytes += usize::from(head.num_ptl) * 12;
    }
    bytes
}

fn no_tally() -> Tally
    ensures { result ≡ no_tally }
{
    Tally {
        absent: false,
        references: 0,
        flags: 0,
        streams: 0,
    }
}

// A refusal counts nothing.
fn refused(refusal: Refusal, layers: Layers, found: Found) -> PointsRead
    ensures { result ≡ refused_points refusal layers found }
{
    PointsRead {
        outcome: Err(refusal),
        layers,
        found,
        profile_bytes: 0,
        tally: no_tally(),
    }
}

// The points of a loop in which neither 40 nor 41 applies: 42, or what is told.
fn tell(program: &[u8], layers: Layers, found: Found) -> PointsRead
    requires { Filled program.now found }
    ensures { result ≡ by_tally layers program.now (tally_of layers (points_in program.now)) }
{
    let payloads = found.payloads;
    let points = found.points;
    let descriptors = found.descriptors;
    let count = found.count;
    let tally = tally_points(program, &points[..count], layers);
    if tally.absent {
        return refused(Refusal::UnknownReference, layers, found);
    }
    PointsRead {
        outcome: Ok(()),
        layers,
        found,
        profile_bytes: profile_bytes(program, &payloads[..descriptors]),
        tally,
    }
}

// 40 or 41.
fn refusal_of(fault: PointFault) -> Refusal
    ensures { result ≡ refusal_of fault }
{
    match fault {
        PointFault::DoesNotFit => Refusal::PointsDoNotFit,
        PointFault::ReservedCount => Refusal::ReservedEsCount,
    }
}

// The verdict on a program's loop, in the layers of an elementary-stream loop that was accepted.
fn read_in(program: &[u8], layers: Layers, found: Found) -> PointsRead
    requires { found ≡ found_in program.now }
    ensures { result ≡ by_filling (program_filling program.now) layers program.now }
{
    match found.filling {
        Err(fault) => refused(refusal_of(fault), layers, found),
        Ok(()) => tell(program, layers, found),
    }
}

// THE CALL: the points of a program, from its own descriptor loop and its elementary-stream loop.
pub fn read_points(program: &[u8], bytes: &[u8]) -> PointsRead
    ensures { result ≡ points_read program.now bytes.now }
{
    let read = loop_layers::read_layers(Reading::Edition2015, bytes);
    let outcome = read.outcome;
    let layers = read.layers;
    let found = point_descriptors::find_points(program);
    match outcome {
        Ok(()) => read_in(program, layers, found),
        Err(refusal) => refused(refusal, layers, found),
    }
}
