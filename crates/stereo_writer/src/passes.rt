// The passes over the rows that are to be written: their layers, and their bytes.
ghost use Rattle.std.specs.Prelude.{◌≡◌, true, false, map};
ghost use Rattle.buffers.specs.Buffers.{Laid};
ghost use Rattle.syntax.specs.Table.{fits};
ghost use Rattle.mvc_extension.specs.MvcExtension.{mvc_extension_descriptor, mvc_extension_fields};
ghost use Rattle.entry_rows.specs.Rows.{row_count, some_too_wide, entries_below};
ghost use Rattle.stereo_set.specs.Views.{no_views, layers_after};
ghost use Rattle.stereo_writer.specs.Layout.{view_for, stereo_bytes};

use super::entry::{put_stereo_entry, view_for};
use mvc_extension::MvcExtension;
use stereo_set::Layers;

// The layers among the entries of the rows, with the descriptors that they are given.
pub fn layers_in(numbers: &[u16], base: MvcExtension, second: MvcExtension) -> Layers
    requires { some_too_wide numbers.now ≡ false }
    ensures { result ≡ layers_after no_views (map (view_for base second) (entries_below numbers.now (row_count numbers.now))) }
{
    let mut layers = stereo_set::no_views();
    let count = numbers.len() / 80;
    for i in 0..count {
        let start = i * 80;
        let end = start + 80;
        let entry = row_taking::entry_in(&numbers[start..end]);
        layers = stereo_set::next_view(layers, view_for(base, second, entry));
    }
    layers
}

// The bytes of the entries of the rows, from the front of the buffer on.
pub fn put_stereo_entries(
    out: &mut [u8],
    numbers: &[u16],
    base: MvcExtension,
    second: MvcExtension,
) -> usize
    requires { (some_too_wide numbers.now ≡ false) × (fits mvc_extension_descriptor (mvc_extension_fields base) ≡ true) × (fits mvc_extension_descriptor (mvc_extension_fields second) ≡ true) }
    ensures { Laid out.old 0 (stereo_bytes base second (entries_below numbers.now (row_count numbers.now))) result out.new }
{
    let count = numbers.len() / 80;
    let mut place = 0;
    for i in 0..count {
        let start = i * 80;
        let end = start + 80;
        let entry = row_taking::entry_in(&numbers[start..end]);
        place = put_stereo_entry(out, place, base, second, entry);
    }
    place
}
