// The call: judged first, as the loop writer judges and then as reading judges a set, and written only where nothing refuses it.
ghost use Rattle.std.specs.Prelude.{◌≡◌, true, false, length};
ghost use Rattle.syntax.specs.Table.{fits};
ghost use Rattle.mvc_extension.specs.MvcExtension.{mvc_extension_descriptor, mvc_extension_fields};
ghost use Rattle.entry_rows.specs.Rows.{row_count, some_too_wide, entries_below};
ghost use Rattle.stereo_writer.specs.Writing.{AsLong, set_answer, set_content, stereo_answer, stereo_content};

use super::passes::{layers_in, put_stereo_entries};
use es_loop::{MOST_BYTES, MOST_ENTRIES};
use mvc_extension::MvcExtension;
use vocabulary::Refusal;

// The bytes of the two descriptors.
const EXTENSIONS_SIZE: usize = 20;

// Entries that the loop writer does not refuse: 44, 46, then 17, or all of them written. `size` is what a set of them takes.
fn write_set(
    numbers: &[u16],
    base: MvcExtension,
    second: MvcExtension,
    size: usize,
    out: &mut [u8],
) -> Result<usize, Refusal>
    requires numbers_value { (some_too_wide numbers.now ≡ false) × (fits mvc_extension_descriptor (mvc_extension_fields base) ≡ true) × (fits mvc_extension_descriptor (mvc_extension_fields second) ≡ true) }
    requires as_long { AsLong size base second (entries_below numbers.now (row_count numbers.now)) }
    ensures { (result ≡ set_answer (length out.old) base second (entries_below numbers.now (row_count numbers.now))) × (out.new ≡ set_content base second (entries_below numbers.now (row_count numbers.now)) out.old) }
{
    let set = stereo_set::set_of(layers_in(numbers, base, second));
    set.outcome?;
    if out.len() < size {
        return Err(Refusal::NoRoom);
    }
    put_stereo_entries(out, numbers, base, second);
    Ok(size)
}

// Writes the entries of the rows into `out`, from its front on, the two layers with these descriptors. None has a value that is too wide.
pub fn write_stereo(
    numbers: &[u16],
    base: MvcExtension,
    second: MvcExtension,
    out: &mut [u8],
) -> Result<usize, Refusal>
    requires { (some_too_wide numbers.now ≡ false) × (fits mvc_extension_descriptor (mvc_extension_fields base) ≡ true) × (fits mvc_extension_descriptor (mvc_extension_fields second) ≡ true) }
    ensures { (result ≡ stereo_answer (length out.old) base second (entries_below numbers.now (row_count numbers.now))) × (out.new ≡ stereo_content base second (entries_below numbers.now (row_count numbers.now)) out.old) }
{
    if MOST_ENTRIES < numbers.len() / 80 {
        return Err(Refusal::LoopTooLong);
    }
    let pair = row_writer::pair_in(numbers);
    let weighed = row_writer::weigh_rows(pair, numbers);
    let size = weighed.size;
    if MOST_BYTES - EXTENSIONS_SIZE < size {
        return Err(Refusal::LoopTooLong);
    }
    loop_writer::decide(weighed, MOST_BYTES)?;
    write_set(numbers, base, second, size + EXTENSIONS_SIZE, out)
}
