// All that the program `points` prints, laid into a buffer: the operation points of a program, each on a line, or the refusal. The line of one point is laid by the crate
// `point_lines`.
#![tactic(auto)]

ghost use Rattle.std.specs.Prelude.{◌≤◌, map, length};
ghost use Rattle.text.specs.Text.{Laid};
ghost use Rattle.program_points.specs.Places.{value_at, IsPoint, AllPoints};
ghost use Rattle.program_points.specs.Told.{points_in, Filled};
ghost use Rattle.point_listing.specs.Listing.{line_of, lines_from, told_text, points_text};

use closure::Layers;
use listing::put_labelled;
use point_descriptors::Found;

// The line of the point at a place of the program's loop.
fn put_point_at(
    out: &mut [u8],
    at: usize,
    index: u64,
    program: &[u8],
    place: usize,
    layers: Layers,
) -> usize
    requires { IsPoint program.now place }
    ensures { Laid out.old at (line_of layers index (value_at program.now place)) result out.new }
{
    let point = program_points::point_at(program, place);
    let built = program_points::list_at(program, place, layers);
    let list = built.list;
    let members = list.members;
    let count = list.count;
    let closed = stream_lists::closed(layers, list.present);
    point_lines::put_point(out, at, index, point, closed, &members[..count])
}

// The lines of the points at these places, in order.
fn put_lines(out: &mut [u8], at: usize, program: &[u8], places: &[usize], layers: Layers) -> usize
    requires { AllPoints program.now places.now × (length places.now ≤ 336) }
    ensures { Laid out.old at (lines_from layers 0 (map (value_at program.now) places.now)) result out.new }
{
    let mut place = text::put(out, at, b"");
    for (index, point) in places.iter().enumerate() {
        place = put_point_at(out, place, index as u64, program, *point, layers);
    }
    place
}

// Of a loop in which no refusal applies: how many points there are, and their lines.
fn put_told(out: &mut [u8], at: usize, program: &[u8], layers: Layers, found: Found) -> usize
    requires { Filled program.now found }
    ensures { Laid out.old at (told_text layers (points_in program.now)) result out.new }
{
    let points = found.points;
    let count = found.count;
    let mut place = put_labelled(out, at, b"accepted ", count as u64);
    place = text::put(out, place, b"\n");
    put_lines(out, place, program, &points[..count], layers)
}

// Lays all that the program prints for these two loops into `out` from place `at` on, and answers the place after it.
pub fn put_points(out: &mut [u8], at: usize, program: &[u8], bytes: &[u8]) -> usize
    ensures { Laid out.old at (points_text program.now bytes.now) result out.new }
{
    let read = program_points::read_points(program, bytes);
    let outcome = read.outcome;
    let layers = read.layers;
    let found = read.found;
    match outcome {
        Ok(()) => put_told(out, at, program, layers, found),
        Err(refusal) => listing::put_refused(out, at, refusal),
    }
}
