// The HEVC operation point descriptors in the program's own descriptor loop (tag 63, extension tag 0x05): the loop framed by its descriptors' heads, those
// among them found in order and judged, 40 and 41, the lowest over all of them; and where their payloads and their points begin.
// specs/Descriptors.antt has what is answered; what is right in the words of W-205 is said of the whole program, in points_meaning.
#![tactic(auto)]

ghost use Rattle.std.specs.Prelude.{◌≡◌, ◌+◌, ◌*◌, ◌≤◌, length, drop};
ghost use Rattle.point_descriptors.specs.Held.{Held};
ghost use Rattle.point_descriptors.specs.Descriptors.{is_points, filling_if, worse as worseOf, payload_place, point_places, point_places_in, point_places_if, no_places, found_in};

use descriptor_heads::first_descriptor;
use operation_points::{PointFault, first_point, judge, read_head};

pub const EXTENSION_TAG: u8 = 63;

// descriptor_tag_extension of an operation point descriptor, by Table 2-106.
pub const OPERATION_POINT_TAG: u8 = 5;

// The most bytes of a program's descriptor loop.
pub const MOST_BYTES: usize = 1008;

// More than it has room for: a descriptor with its extension tag takes three bytes, and a point four.
pub const MOST_FOUND: usize = 336;

// What the loop has: whether every operation point descriptor in it is filled exactly, else 40 or 41; and the places in the loop of their payloads and of
// their points, in order, each from the front of its array.
#[derive(Clone, Copy)]
pub struct Found {
    pub filling: Result<(), PointFault>,
    pub descriptors: usize,
    pub payloads: [usize; 336],
    pub count: usize,
    pub points: [usize; 336],
}

// Whether a descriptor is an operation point descriptor. Tag 63 with no byte to hold an extension tag is none.
fn is_points(tag: u8, body: &[u8]) -> bool
    ensures { result ≡ is_points tag body.now }
{
    if tag != EXTENSION_TAG {
        return false;
    }
    if body.len() == 0 {
        return false;
    }
    body[0] == OPERATION_POINT_TAG
}

// The verdict on one descriptor; others are skipped.
fn filling_if(tag: u8, body: &[u8]) -> Result<(), PointFault>
    ensures { result ≡ filling_if tag body.now }
{
    if is_points(tag, body) {
        return judge(&body[1..]);
    }
    Ok(())
}

// The lower number of two verdicts: 40 before 41.
fn worse(so_far: Result<(), PointFault>, other: Result<(), PointFault>) -> Result<(), PointFault>
    ensures { result ≡ worseOf so_far other }
{
    match (so_far, other) {
        (Ok(()), _) | (Err(PointFault::ReservedCount), Err(PointFault::DoesNotFit)) => other,
        _ => so_far,
    }
}

// The place of a payload more, of a descriptor that stands at `at`.
fn add_payload(places: &mut [usize; 336], count: usize, at: usize, tag: u8, body: &[u8]) -> usize
    requires { (3 * count ≤ at) × (at + (2 + length body.now) ≤ 1008) × (length places.old ≡ 336) }
    ensures { Held places.old count (payload_place at tag body.now) result places.new }
{
    if is_points(tag, body) {
        places[count] = at + 3;
        return count + 1;
    }
    count
}

// The places of so many points more, which stand in the payload from a place of it on; the payload stands at `base`.
fn add_points(
    places: &mut [usize; 336],
    count: usize,
    base: usize,
    payload: &[u8],
    first: usize,
    points: u8,
) -> usize
    requires { (3 * count ≤ base + first) × (first ≤ length payload.now) × (base + length payload.now ≤ 1008) × (length places.old ≡ 336) }
    ensures { Held places.old count (point_places points (base + first) (drop first payload.now)) result places.new }
{
    let mut at = first;
    let mut filled = count;
    for _ in 0..points {
        match first_point(&payload[at..]) {
            Err(_) => return filled,
            Ok(point) => {
                places[filled] = base + at;
                filled += 1;
                at += point.size;
            }
        }
    }
    filled
}

// The places of the points of a payload that stands at `base`.
fn add_points_in(places: &mut [usize; 336], count: usize, base: usize, payload: &[u8]) -> usize
    requires { (3 * count ≤ base) × (base + length payload.now ≤ 1008) × (length places.old ≡ 336) }
    ensures { Held places.old count (point_places_in base payload.now) result places.new }
{
    match read_head(payload) {
        None => count,
        Some(head) => add_points(
            places,
            count,
            base,
            payload,
            head.points_at,
            head.operation_points_count,
        ),
    }
}

// The places of the points of a descriptor that stands at `at`, if it is an operation point descriptor.
fn add_points_if(places: &mut [usize; 336], count: usize, at: usize, tag: u8, body: &[u8]) -> usize
    requires { (3 * count ≤ at) × (at + (2 + length body.now) ≤ 1008) × (length places.old ≡ 336) }
    ensures { Held places.old count (point_places_if at tag body.now) result places.new }
{
    if is_points(tag, body) {
        return add_points_in(places, count, at + 3, &body[1..]);
    }
    count
}

fn no_places() -> [usize; 336]
    ensures { result ≡ no_places }
{
    [0; 336]
}

// The descriptors of a loop that is not too long, one after another.
fn walk(program: &[u8]) -> Found
    requires { length program.now ≤ 1008 }
    ensures { result ≡ found_in program.now }
{
    let mut filling = Ok(());
    let mut payloads = no_places();
    let mut descriptors = 0;
    let mut points = no_places();
    let mut count = 0;
    let mut at = 0;
    while at < program.len() {
        let left = &program[at..];
        match first_descriptor(left) {
            None => {
                return Found {
                    filling: Err(PointFault::DoesNotFit),
                    descriptors,
                    payloads,
                    count,
                    points,
                };
            }
            Some(first) => {
                let body = &left[2..first.end];
                filling = worse(filling, filling_if(first.tag, body));
                descriptors = add_payload(&mut payloads, descriptors, at, first.tag, body);
                count = add_points_if(&mut points, count, at, first.tag, body);
                at += first.end;
            }
        }
    }
    Found {
        filling,
        descriptors,
        payloads,
        count,
        points,
    }
}

// THE PASS through a program's loop.
pub fn find_points(program: &[u8]) -> Found
    ensures { result ≡ found_in program.now }
{
    if MOST_BYTES < program.len() {
        return Found {
            filling: Err(PointFault::DoesNotFit),
            descriptors: 0,
            payloads: no_places(),
            count: 0,
            points: no_places(),
        };
    }
    walk(program)
}
