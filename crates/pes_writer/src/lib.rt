// Writes a video PES header of three times, with a TREF exactly when its caller asks for one: 25, 17 and 24 tested in that order, or the header
// written at the front of the buffer.
#![tactic(auto)]

ghost use Rattle.std.specs.Prelude.{◌≡◌, ◌+◌, ◌^◌, ◌≤◌, ◌<◌, length};
ghost use Rattle.buffers.specs.Buffers.{Laid};
ghost use Rattle.syntax.specs.Named.{write_by};
ghost use Rattle.pes_fields.specs.Tables.{head};
ghost use Rattle.pes_writer.specs.Writing.{time_fields, tref_fields, tref_length, data_fields, head_given, pts_dts_flags_of, extension_flag_of, head_of, header_of, too_wide, write_of, buffer_of};

use buffers::put_whole;
use stamps::Times;
use vocabulary::Refusal;

// The nine bytes before the header data.
fn head_of(pts_dts_flags: u8, extension_flag: u8, data_length: u8) -> [u8; 9]
    requires { (pts_dts_flags < 4) × (extension_flag < 2) }
    ensures { result ≡ write_by head (head_given pts_dts_flags extension_flag data_length) }
{
    [
        0x00,
        0x00,
        0x01,
        0xE0,
        0x00,
        0x00,
        0x84,
        pts_dts_flags * 64 + extension_flag,
        data_length,
    ]
}

// PTS, and DTS if it differs, laid over the buffer, and the place after them.
fn put_times(out: &mut [u8], at: usize, pts: u64, decoding: u64) -> usize
    requires pts_bound { (pts < 2 ^ 33) × (decoding < 2 ^ 33) }
    requires decoding_in_bounds { at + length (time_fields pts decoding) ≤ length out.old }
    ensures { Laid out.old at (time_fields pts decoding) result out.new }
{
    if pts == decoding {
        let alone = stamps::time_field(2, pts);
        return put_whole(out, at, &alone);
    }
    let first = stamps::time_field(3, pts);
    let next = put_whole(out, at, &first);
    let second = stamps::time_field(1, decoding);
    put_whole(out, next, &second)
}

// The extension with TREF, if one is asked for, laid over the buffer, and the place after it.
fn put_tref(out: &mut [u8], at: usize, with_tref: bool, matching: u64) -> usize
    requires matching_bound { matching < 2 ^ 33 }
    requires matching_in_bounds { at + length (tref_fields with_tref matching) ≤ length out.old }
    ensures { Laid out.old at (tref_fields with_tref matching) result out.new }
{
    if !with_tref {
        return at;
    }
    let flags = [0x0Fu8, 0x86, 0xFE];
    let next = put_whole(out, at, &flags);
    let tref = stamps::time_field(15, matching);
    put_whole(out, next, &tref)
}

// The bytes of PTS and DTS, and of the extension.
fn times_length(pts: u64, decoding: u64) -> u8
    ensures { result ≡ length (time_fields pts decoding) }
{
    if pts == decoding { 5 } else { 10 }
}

fn tref_length(with_tref: bool) -> u8
    ensures { result ≡ tref_length with_tref }
{
    if with_tref { 8 } else { 0 }
}

// PES_header_data_length
fn data_length(times: Times, with_tref: bool) -> u8
    ensures { result ≡ length (data_fields times with_tref) }
{
    times_length(times.pts, times.decoding) + tref_length(with_tref)
}

// The flags of the head that depend on the times, and on whether a TREF is asked for.
fn pts_dts_flags(pts: u64, decoding: u64) -> u8
    ensures { result ≡ pts_dts_flags_of pts decoding }
{
    if pts == decoding { 2 } else { 3 }
}

fn extension_flag(with_tref: bool) -> u8
    ensures { result ≡ extension_flag_of with_tref }
{
    u8::from(with_tref)
}

// The head for the times.
fn head_for(times: Times, with_tref: bool) -> [u8; 9]
    ensures { result ≡ head_of times with_tref }
{
    head_of(
        pts_dts_flags(times.pts, times.decoding),
        extension_flag(with_tref),
        data_length(times, with_tref),
    )
}

// The header laid over the front of the buffer, and its length.
fn put_header(out: &mut [u8], times: Times, with_tref: bool) -> usize
    requires pts_bound { (times.pts < 2 ^ 33) × (times.decoding < 2 ^ 33) }
    requires matching_bound { times.matching < 2 ^ 33 }
    requires with_tref_in_bounds { length (header_of times with_tref) ≤ length out.old }
    ensures { Laid out.old 0 (header_of times with_tref) result out.new }
{
    let head = head_for(times, with_tref);
    let at = put_whole(out, 0, &head);
    let next = put_times(out, at, times.pts, times.decoding);
    put_tref(out, next, with_tref, times.matching)
}

// All that refusal 25 asks: each time fits its field, and without a TREF the match time, which then has no field, is the decoding time.
fn any_too_wide(times: Times, with_tref: bool) -> bool
    ensures { result ≡ too_wide times with_tref }
{
    (8589934592 <= times.pts)
        | (8589934592 <= times.decoding)
        | (8589934592 <= times.matching)
        | (!with_tref & (times.matching != times.decoding))
}

// Writes the header of three times to the front of the buffer, with a TREF exactly when asked for one.
pub fn write(times: Times, with_tref: bool, out: &mut [u8]) -> Result<usize, Refusal>
    ensures value { result ≡ write_of times with_tref (length out.old) }
    ensures out_after { out.new ≡ buffer_of result (header_of times with_tref) out.old }
{
    if any_too_wide(times, with_tref) {
        return Err(Refusal::TooWide);
    }
    let length = 9 + usize::from(data_length(times, with_tref));
    if out.len() < length {
        return Err(Refusal::NoRoom);
    }
    if clock::before(times.pts, times.decoding) {
        return Err(Refusal::PtsBeforeDts);
    }
    Ok(put_header(out, times, with_tref))
}
