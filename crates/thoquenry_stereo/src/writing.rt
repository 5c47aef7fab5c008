// A loop written from rows of numbers, with the descriptors of its two layers.
ghost use Rattle.std.specs.Prelude.{◌≡◌};
ghost use Rattle.thoquenry_stereo.specs.Writing.{write_stereo};

use c_answers::{accepted, refused};
use vocabulary::Refusal;

pub fn thq_write_stereo(entries: &[u16], extensions: &[u16], out: &mut [u8]) -> u64
    ensures answer { result ≡ (write_stereo entries.now extensions.now out.old).answer }
    ensures content { out.new ≡ (write_stereo entries.now extensions.now out.old).buffer }
{
    if entry_rows::some_too_wide(entries) {
        return refused(Refusal::TooWide);
    }
    if mvc_rows::extension_too_wide(extensions, 0) {
        return refused(Refusal::TooWide);
    }
    if mvc_rows::extension_too_wide(extensions, 8) {
        return refused(Refusal::TooWide);
    }
    let base = mvc_rows::extension_at(extensions, 0);
    let second = mvc_rows::extension_at(extensions, 8);
    let written = stereo_writer::write_stereo(entries, base, second, out);
    match written {
        Ok(count) => accepted(count),
        Err(refusal) => refused(refusal),
    }
}
