// The lines of the program `stereo`, laid into a buffer: the two layers of a stereo set with their PIDs, their ranges of view order index and their rates, or the refusal.
#![tactic(auto)]

ghost use Rattle.std.specs.Prelude.{ℕ};
ghost use Rattle.text.specs.Text.{Laid};
ghost use Rattle.stereo_lines.specs.Lines.{layer_line, set_text, stereo_text};

use listing::put_labelled;
use mvc_extension::MvcExtension;
use stereo_set::StereoRead;

// The line of one layer.
fn put_layer(out: &mut [u8], at: usize, index: u64, pid: u16, extension: MvcExtension) -> usize
    ensures { Laid out.old at (layer_line index pid extension) result out.new }
{
    let mut place = put_labelled(out, at, b"layer ", index);
    place = put_labelled(out, place, b" pid ", pid as u64);
    place = put_labelled(
        out,
        place,
        b" views ",
        extension.view_order_index_min as u64,
    );
    place = put_labelled(out, place, b" to ", extension.view_order_index_max as u64);
    place = put_labelled(out, place, b" average ", extension.average_bit_rate as u64);
    place = put_labelled(out, place, b" maximum ", extension.maximum_bitrate as u64);
    text::put(out, place, b"\n")
}

// The lines of a set that was accepted.
fn put_set(out: &mut [u8], at: usize, read: StereoRead) -> usize
    ensures { Laid out.old at (set_text read) result out.new }
{
    let base = read.base;
    let second = read.second;
    let base_extension = read.base_extension;
    let second_extension = read.second_extension;
    let mut place = text::put(out, at, b"accepted 2\n");
    place = put_layer(out, place, 0, base.pid, base_extension);
    put_layer(out, place, 1, second.pid, second_extension)
}

// Lays all that the program prints for a loop of these bytes into `out` from place `at` on, and answers the place after it.
pub fn put_stereo(out: &mut [u8], at: usize, bytes: &[u8]) -> usize
    ensures { Laid out.old at (stereo_text bytes.now) result out.new }
{
    let read = stereo_set::read_stereo(bytes);
    let outcome = read.outcome;
    match outcome {
        Ok(()) => put_set(out, at, read),
        Err(refusal) => listing::put_refused(out, at, refusal),
    }
}
