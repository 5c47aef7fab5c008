// The header data of a PES packet, walked field by field in the order of Table 2-21, up to the second extension and its TREF. Each function
// takes the bytes from its own field on.
#![tactic(auto)]

ghost use Rattle.std.specs.Prelude.{◌≡◌, ◌+◌, ◌*◌};
ghost use Rattle.stamps.specs.Stamps.{dts_flag};
ghost use Rattle.pes_fields.specs.Tables.{packet_flags};
ghost use Rattle.pes_fields.specs.HeaderData.{sum, extension_field_of, second_extension_of, after_pack_header, after_private_data, extension_of, flags_of, field_bytes, header_data_of};

use stamps::Stamp;

// What the header data say beside PTS and DTS. The bool is whether the marker before the second extension's length is right, or
// there is none; the stamp of a TREF has that in its own.
#[derive(Clone, Copy)]
pub enum Extension {
    DoesNotFit,
    WithoutTref(bool),
    WithTref(Stamp),
}

// Within PES_extension_field_length: stream_id_extension_flag, tref_extension_flag and TREF.
fn extension_field(marked: bool, field: &[u8]) -> Extension
    ensures { result ≡ extension_field_of marked field.now }
{
    if field.len() < 1 {
        return Extension::DoesNotFit;
    }
    let flags = field[0];
    if flags < 128 {
        return Extension::WithoutTref(marked);
    }
    if flags % 2 == 1 {
        return Extension::WithoutTref(marked);
    }
    if field.len() < 6 {
        return Extension::DoesNotFit;
    }
    let tref = stamps::unprefixed(&field[1..]);
    Extension::WithTref(Stamp {
        marked: marked & tref.marked,
        ..tref
    })
}

// The second extension: its marker, PES_extension_field_length, and that many bytes.
fn second_extension(bytes: &[u8]) -> Extension
    ensures { result ≡ second_extension_of bytes.now }
{
    if bytes.len() < 1 {
        return Extension::DoesNotFit;
    }
    let first = bytes[0];
    let end = 1 + usize::from(first % 128);
    if bytes.len() < end {
        return Extension::DoesNotFit;
    }
    extension_field(first / 128 == 1, &bytes[1..end])
}

// The sequence counter, the P-STD buffer and the second extension.
fn after_pack_header(flags: u8, bytes: &[u8]) -> Extension
    ensures { result ≡ after_pack_header flags bytes.now }
{
    let at = 2 * usize::from(flags / 32 % 2) + 2 * usize::from(flags / 16 % 2);
    if bytes.len() < at {
        return Extension::DoesNotFit;
    }
    if flags % 2 == 1 {
        return second_extension(&bytes[at..]);
    }
    Extension::WithoutTref(true)
}

// The pack header, behind its own length byte.
fn after_private_data(flags: u8, bytes: &[u8]) -> Extension
    ensures { result ≡ after_private_data flags bytes.now }
{
    if flags / 64 % 2 == 0 {
        return after_pack_header(flags, bytes);
    }
    if bytes.len() < 1 {
        return Extension::DoesNotFit;
    }
    let at = 1 + usize::from(bytes[0]);
    if bytes.len() < at {
        return Extension::DoesNotFit;
    }
    after_pack_header(flags, &bytes[at..])
}

// The extension: its byte of flags and the private data.
fn extension_of(bytes: &[u8]) -> Extension
    ensures { result ≡ extension_of bytes.now }
{
    if bytes.len() < 1 {
        return Extension::DoesNotFit;
    }
    let flags = bytes[0];
    let at = 1 + 16 * usize::from(flags / 128);
    if bytes.len() < at {
        return Extension::DoesNotFit;
    }
    after_private_data(flags, &bytes[at..])
}

fn dts_flag(pts_dts_flags: u8) -> usize
    ensures { result ≡ dts_flag pts_dts_flags }
{
    usize::from(pts_dts_flags == 3)
}

// The bytes of the fields before the extension: PTS, DTS, ESCR, ES rate, trick mode, copy info and CRC.
fn before_extension(flags: u8) -> usize
    ensures { result ≡ sum (field_bytes (flags_of packet_flags flags)) }
{
    5 + 5 * dts_flag(flags / 64)
        + 6 * usize::from(flags / 32 % 2)
        + 3 * usize::from(flags / 16 % 2)
        + usize::from(flags / 8 % 2)
        + usize::from(flags / 4 % 2)
        + 2 * usize::from(flags / 2 % 2)
}

// The header data whole, from PTS on.
pub fn header_data(flags: u8, bytes: &[u8]) -> Extension
    ensures { result ≡ header_data_of (flags_of packet_flags flags) bytes.now }
{
    let at = before_extension(flags);
    if bytes.len() < at {
        return Extension::DoesNotFit;
    }
    if flags % 2 == 1 {
        return extension_of(&bytes[at..]);
    }
    Extension::WithoutTref(true)
}
