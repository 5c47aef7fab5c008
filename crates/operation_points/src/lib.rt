// The HEVC operation point descriptor, Table 2-111bis of source 000, behind its extension tag: what stands before its points, its points one at a time
// from the bytes, with the places of their lists, and whether its fields fill it: 40, 41.
// specs/Tables.antt has the table as data, specs/Points.antt what is answered, specs/Meaning.antt what is right in the table's words, and
// proofs/Meant.antt the proof that the two are one.
#![tactic(auto)]

ghost use Rattle.std.specs.Prelude.{[], ◌∷◌, ◌≡◌, true, cond, ◌+◌, ◌*◌, ◌%◌, ◌≤◌, length, get_or, drop};
ghost use Rattle.syntax.specs.Named.{read_by};
ghost use Rattle.operation_points.specs.Tables.{reference as referenceTable, flags as flagsTable};
ghost use Rattle.operation_points.specs.Points.{head_of, first_point, points_filling, filling_of, reference_from, flags_from};

// What stands before the points: the number of profile structures, which stand from the second byte on, and of points, and where these begin.
#[derive(Clone, Copy)]
pub struct Head {
    pub num_ptl: u8,
    pub operation_points_count: u8,
    pub points_at: usize,
}

// The bytes of one profile_tier_level_info.
pub const PROFILE_BYTES: usize = 12;

// A point's fields, by the table's names; those that are not there are 0. Its references stand from its third byte on, its layer flags from
// `flags_at` on, one byte each; `size` bytes are the point's.
#[derive(Clone, Copy)]
pub struct Point {
    pub target_ols: u8,
    pub es_count: u8,
    pub num_es_in_op: u8,
    pub flags_at: usize,
    pub avg_bit_rate_info_flag: bool,
    pub max_bit_rate_info_flag: bool,
    pub constant_frame_rate_info_idc: u8,
    pub applicable_temporal_id: u8,
    pub frame_rate_indicator: u16,
    pub avg_bit_rate: u32,
    pub max_bit_rate: u32,
    pub size: usize,
}

// Why some bytes begin with no point, or why a descriptor's fields do not fill it exactly: they do not fit (40), or an ES_count is reserved (41).
#[derive(Clone, Copy)]
pub enum PointFault {
    DoesNotFit,
    ReservedCount,
}

// A reference of a point.
#[derive(Clone, Copy)]
pub struct Reference {
    pub prepend_dependencies: bool,
    pub es_reference: u8,
}

// What a point says of one of its layers.
#[derive(Clone, Copy)]
pub struct LayerFlags {
    pub necessary_layer_flag: bool,
    pub output_layer_flag: bool,
    pub ptl_ref_idx: u8,
}

// What stands before the points of a payload.
pub fn read_head(payload: &[u8]) -> Option<Head>
    ensures { result ≡ head_of payload.now }
{
    if payload.len() == 0 {
        return None;
    }
    let num_ptl = payload[0] % 64;
    let count_at = 1 + usize::from(num_ptl) * PROFILE_BYTES;
    if payload.len() <= count_at {
        return None;
    }
    Some(Head {
        num_ptl,
        operation_points_count: payload[count_at],
        points_at: count_at + 1,
    })
}

// The bytes of a field that may be there.
fn bytes_of(there: bool, bytes: usize) -> usize
    ensures { (result ≡ cond there bytes 0) × (result ≤ bytes) }
{
    if there { bytes } else { 0 }
}

// frame_rate_indicator, where it is there.
fn frame_rate(left: &[u8], at: usize, there: bool) -> u16
    requires { at + cond there 2 0 ≤ length left.now }
    ensures { result ≡ cond there (get_or left.now at 0 % 16 * 256 + get_or left.now (at + 1) 0) 0 }
{
    if !there {
        return 0;
    }
    u16::from(left[at] % 16) * 256 + u16::from(left[at + 1])
}

// A bit rate, where it is there.
fn bit_rate(left: &[u8], at: usize, there: bool) -> u32
    requires { at + cond there 3 0 ≤ length left.now }
    ensures { result
        ≡ cond there (get_or left.now at 0 * 65536 + get_or left.now (at + 1) 0 * 256 + get_or left.now (at + 2) 0) 0 }
{
    if !there {
        return 0;
    }
    u32::from(left[at]) * 65536 + u32::from(left[at + 1]) * 256 + u32::from(left[at + 2])
}

// THE CALL for one point: the one that these bytes begin with.
pub fn first_point(left: &[u8]) -> Result<Point, PointFault>
    ensures { result ≡ first_point left.now }
{
    if left.len() < 2 {
        return Err(PointFault::DoesNotFit);
    }
    let es_count = left[1];
    if es_count == 0xFF {
        return Err(PointFault::ReservedCount);
    }
    let counted_at = 2 + usize::from(es_count);
    if left.len() <= counted_at {
        return Err(PointFault::DoesNotFit);
    }
    let num_es_in_op = left[counted_at] % 64;
    let rates_at = counted_at + 1 + usize::from(num_es_in_op);
    if left.len() <= rates_at {
        return Err(PointFault::DoesNotFit);
    }
    let rates = left[rates_at];
    let has_average = rates / 64 % 2 == 1;
    let has_maximum = rates / 32 % 2 == 1;
    let idc = rates / 8 % 4;
    let average_at = rates_at + 1 + bytes_of(0 < idc, 2);
    let maximum_at = average_at + bytes_of(has_average, 3);
    let size = maximum_at + bytes_of(has_maximum, 3);
    if left.len() < size {
        return Err(PointFault::DoesNotFit);
    }
    Ok(Point {
        target_ols: left[0],
        es_count,
        num_es_in_op,
        flags_at: counted_at + 1,
        avg_bit_rate_info_flag: has_average,
        max_bit_rate_info_flag: has_maximum,
        constant_frame_rate_info_idc: idc,
        applicable_temporal_id: rates % 8,
        frame_rate_indicator: frame_rate(left, rates_at + 1, 0 < idc),
        avg_bit_rate: bit_rate(left, average_at, has_average),
        max_bit_rate: bit_rate(left, maximum_at, has_maximum),
        size,
    })
}

// The verdict on so many points from a place of the payload on.
fn points_filling(payload: &[u8], first: usize, count: u8) -> Result<(), PointFault>
    requires { first ≤ length payload.now }
    ensures { result ≡ points_filling count (drop first payload.now) }
{
    let mut at = first;
    for _ in 0..count {
        let point = first_point(&payload[at..])?;
        at += point.size;
    }
    if at != payload.len() {
        return Err(PointFault::DoesNotFit);
    }
    Ok(())
}

// THE VERDICT on a payload: 40, 41, or that its fields fill it exactly.
pub fn judge(payload: &[u8]) -> Result<(), PointFault>
    ensures { result ≡ filling_of payload.now }
{
    match read_head(payload) {
        None => Err(PointFault::DoesNotFit),
        Some(head) => points_filling(payload, head.points_at, head.operation_points_count),
    }
}

// A byte of a point's list of references, and of its list of flags.
pub fn reference_of(byte: u8) -> Reference
    ensures { result ≡ reference_from (read_by referenceTable (byte ∷ [])) }
{
    Reference {
        prepend_dependencies: byte / 64 % 2 == 1,
        es_reference: byte % 64,
    }
}

pub fn layer_flags_of(byte: u8) -> LayerFlags
    ensures { result ≡ flags_from (read_by flagsTable (byte ∷ [])) }
{
    LayerFlags {
        necessary_layer_flag: byte / 128 == 1,
        output_layer_flag: byte / 64 % 2 == 1,
        ptl_ref_idx: byte % 64,
    }
}
