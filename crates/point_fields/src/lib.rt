// One operation point as its caller gives it, a row of numbers and two lists of bytes: whether a number is too wide for its field (25), how many bytes the
// point takes, and the bytes of its fields, by the tables of operation_points. specs/WrittenParts.antt has how a table with loops and conditions is written,
// specs/Fields.antt a point by these tables; `point_bytes` lays the whole of it into a buffer.
#![tactic(auto)]

ghost use Rattle.std.specs.Prelude.{◌≡◌, true, false, cond, [], ◌∷◌, ◌≤◌, ◌<◌, eqb, ltb, length};
ghost use Rattle.buffers.specs.Buffers.{Laid};
ghost use Rattle.syntax.specs.Table.{write_table};
ghost use Rattle.operation_points.specs.Tables.{point_head, flags_count, rates as ratesTable, frame_rate, average_rate};
ghost use Rattle.point_fields.specs.Fields.{rate_bytes, row_too_wide, fields_size};

// The numbers of a row, of which the last two are not looked at.
pub const ROW: usize = 12;

// A number that its field holds, or 0 where its line is not there.
fn fits_field(there: bool, number: u32, bound: u32) -> bool
    ensures { result ≡ cond there (ltb number bound) (eqb number 0) }
{
    if there {
        return number < bound;
    }
    number == 0
}

// 25 of a row: target_ols and ES_count of 8 bits, numEsInOp of 6, the flags of 1, the idc of 2, the temporal id of 3; and where they are there, the
// indicator of 12 bits and the bit rates of 24.
pub fn row_too_wide(row: &[u32]) -> bool
    requires { length row.now ≡ 12 }
    ensures { result ≡ row_too_wide row.now }
{
    let average = row[3];
    let maximum = row[4];
    let idc = row[5];
    let fields = fits_field(0 < idc, row[7], 4096)
        & fits_field(average == 1, row[8], 16777216)
        & fits_field(maximum == 1, row[9], 16777216);
    !((row[0] < 256)
        & (row[1] < 256)
        & (row[2] < 64)
        & (average < 2)
        & (maximum < 2)
        & (idc < 4)
        & (row[6] < 8)
        & fields)
}

// The bytes of a field that may be there.
fn bytes_of(there: bool, bytes: usize) -> usize
    ensures { (result ≡ cond there bytes 0) × (result ≤ bytes) }
{
    if there { bytes } else { 0 }
}

// How many bytes a point takes, its two lists aside.
pub fn fields_size(row: &[u32]) -> usize
    requires { length row.now ≡ 12 }
    ensures { (result ≡ fields_size row.now) × (result ≤ 12) }
{
    4 + bytes_of(0 < row[5], 2) + bytes_of(row[3] == 1, 3) + bytes_of(row[4] == 1, 3)
}

// The tables of a point, each as it is written. Reserved bits are 1: 192 is two of them before six bits, 240 four before four, 128 one before seven.
pub fn point_head(target_ols: u32, es_count: u32) -> [u8; 2]
    requires { (target_ols < 256) × (es_count < 256) }
    ensures { result ≡ write_table point_head (target_ols ∷ es_count ∷ []) }
{
    [target_ols as u8, es_count as u8]
}

pub fn flags_count(count: u32) -> [u8; 1]
    requires { count < 64 }
    ensures { result ≡ write_table flags_count (count ∷ []) }
{
    [192 + count as u8]
}

fn rates(average_flag: u32, maximum_flag: u32, idc: u32, temporal_id: u32) -> [u8; 1]
    requires { (average_flag < 2) × (maximum_flag < 2) × (idc < 4) × (temporal_id < 8) }
    ensures { result ≡ write_table ratesTable (average_flag ∷ maximum_flag ∷ idc ∷ temporal_id ∷ []) }
{
    [(128 + average_flag * 64 + maximum_flag * 32 + idc * 8 + temporal_id) as u8]
}

// frame_rate_indicator, where it is there, laid into `out` from place `at` on.
fn put_frame_rate(out: &mut [u8], at: usize, there: bool, indicator: u32) -> usize
    requires { cond there (ltb indicator 4096) (eqb indicator 0) ≡ true }
    ensures { Laid out.old at (cond there (write_table frame_rate (indicator ∷ [])) []) result out.new }
{
    if there {
        let field = [(240 + indicator / 256) as u8, (indicator % 256) as u8];
        return buffers::put(out, at, &field);
    }
    buffers::put(out, at, b"")
}

// A bit rate, where it is there.
fn put_bit_rate(out: &mut [u8], at: usize, there: bool, number: u32) -> usize
    requires { cond there (ltb number 16777216) (eqb number 0) ≡ true }
    ensures { Laid out.old at (cond there (write_table average_rate (number ∷ [])) []) result out.new }
{
    if there {
        let field = [
            (number / 65536) as u8,
            (number / 256 % 256) as u8,
            (number % 256) as u8,
        ];
        return buffers::put(out, at, &field);
    }
    buffers::put(out, at, b"")
}

// The second half: its rates.
pub fn put_rates(out: &mut [u8], at: usize, row: &[u32]) -> usize
    requires { (length row.now ≡ 12) × (row_too_wide row.now ≡ false) }
    ensures { Laid out.old at (rate_bytes row.now) result out.new }
{
    let average = row[3];
    let maximum = row[4];
    let idc = row[5];
    let byte = rates(average, maximum, idc, row[6]);
    let first = buffers::put(out, at, &byte);
    let second = put_frame_rate(out, first, 0 < idc, row[7]);
    let third = put_bit_rate(out, second, average == 1, row[8]);
    put_bit_rate(out, third, maximum == 1, row[9])
}
