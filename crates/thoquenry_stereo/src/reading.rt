// The two layers and their descriptors, as rows of numbers.
ghost use Rattle.std.specs.Prelude.{◌≡◌, ◌++◌, ◌≤◌, length};
ghost use Rattle.buffers.specs.Buffers.{over};
ghost use Rattle.entry_rows.specs.Rows.{row_of};
ghost use Rattle.thoquenry_stereo.specs.Reading.{set_laid, read_stereo};

use c_answers::{accepted, refused};
use es_loop::Entry;
use stereo_set::StereoRead;
use vocabulary::Refusal;

// The numbers of two entries, and of two descriptors.
const ENTRY_NUMBERS: usize = 160;

const EXTENSION_NUMBERS: usize = 16;

// The rows of two entries, from the front of a buffer on that has room for them.
fn lay_entries(entries: &mut [u16], base: Entry, second: Entry)
    requires { 160 ≤ length entries.old }
    ensures { entries.new ≡ over (row_of base ++ row_of second) entries.old }
{
    row_laying::lay_row(&mut entries[0..80], base);
    row_laying::lay_row(&mut entries[80..160], second);
}

// A set that was accepted, where there is room for it.
fn lay_set(read: StereoRead, entries: &mut [u16], extensions: &mut [u16]) -> u64
    ensures answer { result ≡ (set_laid read entries.old extensions.old).answer }
    ensures rows { entries.new ≡ (set_laid read entries.old extensions.old).entries }
    ensures beside { extensions.new ≡ (set_laid read entries.old extensions.old).extensions }
{
    if entries.len() < ENTRY_NUMBERS {
        return refused(Refusal::NoRoom);
    }
    if extensions.len() < EXTENSION_NUMBERS {
        return refused(Refusal::NoRoom);
    }
    let base = read.base;
    let second = read.second;
    let base_extension = read.base_extension;
    let second_extension = read.second_extension;
    lay_entries(entries, base, second);
    mvc_rows::lay_extensions(extensions, base_extension, second_extension);
    accepted(2)
}

pub fn thq_read_stereo(bytes: &[u8], entries: &mut [u16], extensions: &mut [u16]) -> u64
    ensures answer { result ≡ (read_stereo bytes.now entries.old extensions.old).answer }
    ensures rows { entries.new ≡ (read_stereo bytes.now entries.old extensions.old).entries }
    ensures beside { extensions.new ≡ (read_stereo bytes.now entries.old extensions.old).extensions }
{
    let read = stereo_set::read_stereo(bytes);
    let outcome = read.outcome;
    match outcome {
        Ok(()) => lay_set(read, entries, extensions),
        Err(refusal) => refused(refusal),
    }
}
