// The operation points of a program laid into lists that a caller lends; include/thoquenry.h has their layout. One function fills one list, from the places of the
// payloads or of the points in the program's loop, and each knows that there is room: whether there is was decided before any of them.
#![tactic(auto)]

ghost use Rattle.std.specs.Prelude.{◌≡◌, cond, map, ◌+◌, ◌%◌, ◌≤◌, length};
ghost use Rattle.combinators.specs.Lists.{gather};
ghost use Rattle.buffers.specs.Buffers.{Laid};
ghost use Rattle.operation_points.specs.Values.{frame_rate_of, indicator_of, reference_bytes, layer_bytes};
ghost use Rattle.program_points.specs.Places.{value_at, profiles_at, counts_at, IsPoint, IsPayload, AllPoints, AllPayloads};
ghost use Rattle.program_points.specs.Told.{streams_of, row_in};

use closure::Layers;
use program_points::{head_at, list_at, point_at};

// The numbers of a point's row.
pub const ROW: usize = 12;

// Numbers from a place of a list on that has room for them; the place after them.
pub fn put_numbers(out: &mut [u32], at: usize, numbers: &[u32]) -> usize
    requires { at + length numbers.now ≤ length out.old }
    ensures { Laid out.old at numbers.now result out.new }
{
    one_by_one::put_whole(out, at, numbers)
}

// Bytes without their first bit, which is reserved in a reference.
fn put_masked(out: &mut [u8], at: usize, bytes: &[u8]) -> usize
    requires { at + length bytes.now ≤ length out.old }
    ensures { Laid out.old at (map (λ byte. byte % 128) bytes.now) result out.new }
{
    for (i, byte) in bytes.iter().enumerate() {
        out[at + i] = byte % 128;
    }
    at + bytes.len()
}

fn rate(there: bool, number: u32) -> u32
    ensures { result ≡ cond there number 0 }
{
    if there { number } else { 0 }
}

fn indicator(idc: u8, number: u16) -> u32
    ensures { result ≡ indicator_of (frame_rate_of idc number) }
{
    if 0 < idc {
        return number as u32;
    }
    0
}

fn small(count: usize) -> u32
    requires { count ≤ 64 }
    ensures { result ≡ count }
{
    count as u32
}

// Of the descriptor whose payload stands at a place of the program's loop: num_ptl and operation_points_count.
fn put_counts(out: &mut [u32], at: usize, program: &[u8], place: usize) -> usize
    requires { IsPayload program.now place × (at + length (counts_at program.now place) ≤ length out.old) }
    ensures { Laid out.old at (counts_at program.now place) result out.new }
{
    let head = head_at(program, place);
    let counts = [
        u32::from(head.num_ptl),
        u32::from(head.operation_points_count),
    ];
    put_numbers(out, at, &counts)
}

// The bytes of its profile structures.
fn put_profiles(out: &mut [u8], at: usize, program: &[u8], place: usize) -> usize
    requires { IsPayload program.now place }
    ensures { Laid out.old at (profiles_at program.now place) result out.new }
{
    let head = head_at(program, place);
    let first = place + 1;
    let end = first + head.num_ptl as usize * 12;
    one_by_one::put(out, at, &program[first..end])
}

// The row of the point at a place.
fn row_at(program: &[u8], at: usize, layers: Layers) -> [u32; 12]
    requires { IsPoint program.now at }
    ensures { result ≡ row_in layers (value_at program.now at) }
{
    let point = point_at(program, at);
    let built = list_at(program, at, layers);
    let list = built.list;
    let closed = stream_lists::closed(layers, list.present);
    [
        u32::from(point.target_ols),
        u32::from(point.es_count),
        u32::from(point.num_es_in_op),
        u32::from(point.avg_bit_rate_info_flag),
        u32::from(point.max_bit_rate_info_flag),
        u32::from(point.constant_frame_rate_info_idc),
        u32::from(point.applicable_temporal_id),
        indicator(
            point.constant_frame_rate_info_idc,
            point.frame_rate_indicator,
        ),
        rate(point.avg_bit_rate_info_flag, point.avg_bit_rate),
        rate(point.max_bit_rate_info_flag, point.max_bit_rate),
        small(list.count),
        u32::from(closed),
    ]
}

fn put_row(out: &mut [u32], at: usize, program: &[u8], place: usize, layers: Layers) -> usize
    requires { IsPoint program.now place × (at + length (row_in layers (value_at program.now place)) ≤ length out.old) }
    ensures { Laid out.old at (row_in layers (value_at program.now place)) result out.new }
{
    let row = row_at(program, place, layers);
    put_numbers(out, at, &row)
}

// Its references.
fn put_references(out: &mut [u8], at: usize, program: &[u8], place: usize) -> usize
    requires { IsPoint program.now place × (at + length (reference_bytes (value_at program.now place)) ≤ length out.old) }
    ensures { Laid out.old at (reference_bytes (value_at program.now place)) result out.new }
{
    let point = point_at(program, place);
    let first = place + 2;
    let end = first + point.es_count as usize;
    put_masked(out, at, &program[first..end])
}

// Its layer flags.
fn put_flags(out: &mut [u8], at: usize, program: &[u8], place: usize) -> usize
    requires { IsPoint program.now place }
    ensures { Laid out.old at (layer_bytes (value_at program.now place)) result out.new }
{
    let point = point_at(program, place);
    let first = place + point.flags_at;
    let end = first + point.num_es_in_op as usize;
    one_by_one::put(out, at, &program[first..end])
}

// The members of its stream list.
fn put_streams(out: &mut [u8], at: usize, program: &[u8], place: usize, layers: Layers) -> usize
    requires { IsPoint program.now place }
    ensures { Laid out.old at (streams_of layers (value_at program.now place)) result out.new }
{
    let built = list_at(program, place, layers);
    let list = built.list;
    let members = list.members;
    let count = list.count;
    one_by_one::put(out, at, &members[..count])
}

// All of each kind, one function for each list.
pub fn lay_descriptors(out: &mut [u32], program: &[u8], places: &[usize]) -> usize
    requires { AllPayloads program.now places.now
        × (length (gather (counts_at program.now) places.now) ≤ length out.old) }
    ensures { Laid out.old 0 (gather (counts_at program.now) places.now) result out.new }
{
    let mut next = 0;
    for place in places {
        next = put_counts(out, next, program, *place);
    }
    next
}

// The profile structures, gathered over the descriptors in order.
pub fn lay_profiles(out: &mut [u8], program: &[u8], places: &[usize]) -> usize
    requires { AllPayloads program.now places.now }
    ensures { Laid out.old 0 (gather (profiles_at program.now) places.now) result out.new }
{
    let mut next = 0;
    for place in places {
        next = put_profiles(out, next, program, *place);
    }
    next
}

// The rows of the points.
pub fn lay_points(out: &mut [u32], program: &[u8], places: &[usize], layers: Layers) -> usize
    requires { AllPoints program.now places.now
        × (length (gather (λ at. row_in layers (value_at program.now at)) places.now) ≤ length out.old) }
    ensures { Laid out.old 0 (gather (λ at. row_in layers (value_at program.now at)) places.now) result out.new }
{
    let mut next = 0;
    for place in places {
        next = put_row(out, next, program, *place, layers);
    }
    next
}

// Their references.
pub fn lay_references(out: &mut [u8], program: &[u8], places: &[usize]) -> usize
    requires { AllPoints program.now places.now
        × (length (gather (λ at. reference_bytes (value_at program.now at)) places.now) ≤ length out.old) }
    ensures { Laid out.old 0 (gather (λ at. reference_bytes (value_at program.now at)) places.now) result out.new }
{
    let mut next = 0;
    for place in places {
        next = put_references(out, next, program, *place);
    }
    next
}

// Their layer flags.
pub fn lay_flags(out: &mut [u8], program: &[u8], places: &[usize]) -> usize
    requires { AllPoints program.now places.now }
    ensures { Laid out.old 0 (gather (λ at. layer_bytes (value_at program.now at)) places.now) result out.new }
{
    let mut next = 0;
    for place in places {
        next = put_flags(out, next, program, *place);
    }
    next
}

// The members of their stream lists.
pub fn lay_streams(out: &mut [u8], program: &[u8], places: &[usize], layers: Layers) -> usize
    requires { AllPoints program.now places.now }
    ensures { Laid out.old 0 (gather (λ at. streams_of layers (value_at program.now at)) places.now) result out.new }
{
    let mut next = 0;
    for place in places {
        next = put_streams(out, next, program, *place, layers);
    }
    next
}
