// One entry that is to be written: as the set looks at it, and its bytes with the descriptor that it is given.
ghost use Rattle.std.specs.Prelude.{◌≡◌, true, false};
ghost use Rattle.combinators.specs.Lists.{gather};
ghost use Rattle.buffers.specs.Buffers.{Laid};
ghost use Rattle.syntax.specs.Table.{fits};
ghost use Rattle.syntax.specs.Filled.{bytes_in};
ghost use Rattle.mvc_extension.specs.MvcExtension.{mvc_extension_descriptor, mvc_extension_fields};
ghost use Rattle.loop_writer.specs.Layout.{too_wide};
ghost use Rattle.stereo_writer.specs.Layout.{extension_for, view_for, is_part, extra_size, extra_tables, stereo_entry};

use descriptors::is_layer;
use es_loop::Entry;
use mvc_descriptors::Found;
use mvc_extension::MvcExtension;
use stereo_set::View;

// The bytes of a whole descriptor.
const EXTENSION_SIZE: usize = 10;

// The stream type of the second layer.
const SECOND_TYPE: u8 = 0x20;

// The descriptor that a layer of this type is given.
fn extension_for(base: MvcExtension, second: MvcExtension, stream_type: u8) -> MvcExtension
    ensures { result ≡ extension_for base second stream_type }
{
    if stream_type == SECOND_TYPE {
        return second;
    }
    base
}

// An entry as the set looks at it.
pub fn view_for(base: MvcExtension, second: MvcExtension, entry: Entry) -> View
    ensures { result ≡ view_for base second entry }
{
    let extension = extension_for(base, second, entry.stream_type);
    View {
        entry,
        found: Found::One(extension),
    }
}

// Whether an entry is given a descriptor: it is one of the two layers.
fn is_part(entry: Entry) -> bool
    ensures { result ≡ is_part entry }
{
    let record = entry.record;
    is_layer(record) & (stereo_set::is_base(entry) | stereo_set::is_second(entry))
}

// How many bytes that takes.
fn extra_size(entry: Entry) -> usize
    ensures { result ≡ extra_size entry }
{
    if is_part(entry) {
        return EXTENSION_SIZE;
    }
    0
}

// The descriptor laid into `out` from place `at` on, nothing for an entry that is given none.
fn put_extra(
    out: &mut [u8],
    at: usize,
    base: MvcExtension,
    second: MvcExtension,
    entry: Entry,
) -> usize
    requires { (fits mvc_extension_descriptor (mvc_extension_fields base) ≡ true) × (fits mvc_extension_descriptor (mvc_extension_fields second) ≡ true) }
    ensures { Laid out.old at (gather bytes_in (extra_tables base second entry)) result out.new }
{
    if is_part(entry) {
        let extension = extension_for(base, second, entry.stream_type);
        return mvc_descriptors::put_mvc_extension(out, at, extension);
    }
    buffers::put(out, at, b"")
}

// The whole entry: its head, its hierarchy descriptor, if any, and then the descriptor that it is given, if any.
pub fn put_stereo_entry(
    out: &mut [u8],
    at: usize,
    base: MvcExtension,
    second: MvcExtension,
    entry: Entry,
) -> usize
    requires { (fits mvc_extension_descriptor (mvc_extension_fields base) ≡ true) × (fits mvc_extension_descriptor (mvc_extension_fields second) ≡ true) × (too_wide entry ≡ false) }
    ensures { Laid out.old at (stereo_entry base second entry) result out.new }
{
    let record = entry.record;
    let embedded = entry.embedded;
    let info_length = descriptors::record_size(record, embedded) + extra_size(entry);
    let head = loop_writer::entry_head(entry.stream_type, entry.pid, info_length as u16);
    let next = buffers::put(out, at, &head);
    let behind = descriptors::put_record(out, next, record, embedded);
    put_extra(out, behind, base, second, entry)
}
