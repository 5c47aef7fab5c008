// The times of a PES header, PTS, DTS and TREF, each in its field of five bytes, read and written: three parts of its 33 bits, each with a
// marker bit after it.
#![tactic(auto)]

ghost use Rattle.std.specs.Prelude.{◌≡◌, ◌+◌, ◌*◌, ◌/◌, ◌%◌, ◌^◌, ◌≤◌, ◌<◌, length};
ghost use Rattle.stamps.specs.Tables.{tref, prefixed};
ghost use Rattle.stamps.specs.Stamps.{dts_flag, stamp_of, stamps_of, time_field};

// A time, and whether the bits that its field fixes are right.
#[derive(Clone, Copy)]
pub struct Stamp {
    pub marked: bool,
    pub time: u64,
}

// The times of a PES header. Decoding time is DTS, or PTS without a DTS; match time is TREF, or the decoding time without one.
#[derive(Clone, Copy)]
pub struct Times {
    pub pts: u64,
    pub decoding: u64,
    pub matching: u64,
}

// PTS and decoding time, and whether the bits that their fields fix are right.
#[derive(Clone, Copy)]
pub struct Stamps {
    pub marked: bool,
    pub pts: u64,
    pub decoding: u64,
}

// The 33 bits of a time, out of the five bytes of its field.
fn joined(first: u8, second: u8, third: u8, fourth: u8, fifth: u8) -> u64
    ensures { result ≡ first / 2 % 8 * 2 ^ 30 + second * 2 ^ 22 + third / 2 * 2 ^ 15 + fourth * 2 ^ 7 + fifth / 2 }
{
    u64::from(first) / 2 % 8 * 1073741824
        + u64::from(second) * 4194304
        + u64::from(third) / 2 * 32768
        + u64::from(fourth) * 128
        + u64::from(fifth) / 2
}

// A time whose first four bits are not judged, as those of a TREF.
pub fn unprefixed(field: &[u8]) -> Stamp
    requires { 5 ≤ length field.now }
    ensures { result ≡ stamp_of tref field.now }
{
    Stamp {
        marked: (field[0] % 2 == 1) & (field[2] % 2 == 1) & (field[4] % 2 == 1),
        time: joined(field[0], field[1], field[2], field[3], field[4]),
    }
}

// A time whose first four bits are a prefix, as those of PTS and DTS.
pub fn prefixed_by(prefix: u8, field: &[u8]) -> Stamp
    requires { 5 ≤ length field.now }
    ensures { result ≡ stamp_of (prefixed prefix) field.now }
{
    let stamp = unprefixed(field);
    Stamp {
        marked: (field[0] / 16 == prefix) & stamp.marked,
        ..stamp
    }
}

// PTS, and DTS where PTS_DTS_flags is '11'.
pub fn pts_and_dts(pts_dts_flags: u8, bytes: &[u8]) -> Stamps
    requires { 5 + 5 * dts_flag pts_dts_flags ≤ length bytes.now }
    ensures { result ≡ stamps_of pts_dts_flags bytes.now }
{
    if pts_dts_flags == 3 {
        let pts = prefixed_by(3, bytes);
        let dts = prefixed_by(1, &bytes[5..]);
        return Stamps {
            marked: pts.marked & dts.marked,
            pts: pts.time,
            decoding: dts.time,
        };
    }
    let pts = prefixed_by(2, bytes);
    Stamps {
        marked: pts.marked,
        pts: pts.time,
        decoding: pts.time,
    }
}

// A time as its field of five bytes.
pub fn time_field(prefix: u8, time: u64) -> [u8; 5]
    requires { (prefix < 2 ^ 4) × (time < 2 ^ 33) }
    ensures { result ≡ time_field (prefixed prefix) time }
{
    [
        prefix * 16 + (time / 1073741824) as u8 * 2 + 1,
        (time / 4194304 % 256) as u8,
        (time / 32768 % 128) as u8 * 2 + 1,
        (time / 128 % 256) as u8,
        (time % 128) as u8 * 2 + 1,
    ]
}
