// Reads a video PES header for its times, PTS, DTS and TREF: which of the refusals 20 to 24 it meets, tested in that order, or its three times,
// whether a TREF stood in it, and where it ends.
#![tactic(auto)]

ghost use Rattle.std.specs.Prelude.{◌≡◌, ◌≤◌, eqb, length};
ghost use Rattle.syntax.specs.Table.{number};
ghost use Rattle.pes_fields.specs.Tables.{packet_flags};
ghost use Rattle.pes_fields.specs.HeaderData.{flags_of};
ghost use Rattle.pes_reader.specs.Reading.{is_video_header, header_of, judged, fields_of, read_of};

use pes_fields::Extension;
use stamps::{Stamps, Times};
use vocabulary::Refusal;

// What a header says of its component's times, whether a TREF stood in it, and the offset at which it ends: 9 plus PES_header_data_length,
// stuffing included.
#[derive(Clone, Copy)]
pub struct Header {
    pub times: Times,
    pub tref_sent: bool,
    pub end: usize,
}

// packet_start_code_prefix
fn starts_a_packet(bytes: &[u8]) -> bool
    requires { 3 ≤ length bytes.now }
    ensures { result ≡ eqb (number 3 bytes.now) 0x000001 }
{
    check::same(&bytes[..3], b"\x00\x00\x01")
}

// All that refusal 20 asks.
fn is_video_header(bytes: &[u8]) -> bool
    ensures { result ≡ is_video_header bytes.now }
{
    if bytes.len() < 9 {
        return false;
    }
    let starts = starts_a_packet(bytes);
    if !starts {
        return false;
    }
    if bytes[6] / 64 != 2 {
        return false;
    }
    if bytes[3] < 0xE0 {
        return false;
    }
    if 0xEF < bytes[3] {
        return false;
    }
    9 + usize::from(bytes[8]) <= bytes.len()
}

// 23 before 24, and else what the header says.
fn judge(marked: bool, header: Header) -> Result<Header, Refusal>
    ensures { result ≡ judged marked header }
{
    if !marked {
        return Err(Refusal::WrongMarker);
    }
    if clock::before(header.times.pts, header.times.decoding) {
        return Err(Refusal::PtsBeforeDts);
    }
    Ok(header)
}

// What a header says that has these times, of which the match time is TREF where one was sent.
fn header_of(stamps: Stamps, matching: u64, tref_sent: bool, end: usize) -> Header
    ensures { result ≡ header_of stamps matching tref_sent end }
{
    Header {
        times: Times {
            pts: stamps.pts,
            decoding: stamps.decoding,
            matching,
        },
        tref_sent,
        end,
    }
}

// The header data, where there is a PTS: all lengths are settled before a marker is judged.
fn read_fields(end: usize, flags: u8, bytes: &[u8]) -> Result<Header, Refusal>
    ensures { result ≡ fields_of end (flags_of packet_flags flags) bytes.now }
{
    let extension = pes_fields::header_data(flags, bytes);
    match extension {
        Extension::DoesNotFit => Err(Refusal::FieldsDoNotFit),
        Extension::WithoutTref(marked) => {
            let stamps = stamps::pts_and_dts(flags / 64, bytes);
            judge(
                stamps.marked & marked,
                header_of(stamps, stamps.decoding, false, end),
            )
        }
        Extension::WithTref(tref) => {
            let stamps = stamps::pts_and_dts(flags / 64, bytes);
            judge(
                stamps.marked & tref.marked,
                header_of(stamps, tref.time, true, end),
            )
        }
    }
}

// What a PES header says, whatever the bytes are.
pub fn read(bytes: &[u8]) -> Result<Header, Refusal>
    ensures { result ≡ read_of bytes.now }
{
    if !is_video_header(bytes) {
        return Err(Refusal::NotVideoHeader);
    }
    let flags = bytes[7];
    if flags < 128 {
        return Err(Refusal::NoPts);
    }
    let end = 9 + usize::from(bytes[8]);
    read_fields(end, flags, &bytes[9..end])
}
