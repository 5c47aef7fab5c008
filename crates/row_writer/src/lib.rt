// A loop written from rows: they are weighed by their numbers, and then their bytes laid into the buffer. No entry is made of them.
#![tactic(auto)]

ghost use Rattle.std.specs.Prelude.{◌≡◌, false, ◌≤◌, length};
ghost use Rattle.buffers.specs.Buffers.{Laid};
ghost use Rattle.loop_writer.specs.Layout.{loop_bytes};
ghost use Rattle.loop_writer.specs.Verdict.{pair_for};
ghost use Rattle.loop_writer.specs.Weighing.{Weighs};
ghost use Rattle.loop_writer.specs.Writing.{answer, content};
ghost use Rattle.entry_rows.specs.Rows.{row_count, some_too_wide, entries_below, entries_in};

use es_loop::{MOST_ENTRIES, no_indices, no_pids};
use loop_writer::{Weighed, nothing_weighed};
use row_bytes::put_row;
use row_taking::view_in;
use row_weighing::weigh_row;
use vocabulary::Refusal;

// Whether the rows have the two views without a hierarchy descriptor, which are to be implied layers.
pub fn pair_in(numbers: &[u16]) -> bool
    requires { some_too_wide numbers.now ≡ false }
    ensures { result ≡ pair_for (entries_below numbers.now (row_count numbers.now)) }
{
    let mut views = implied::no_views();
    let count = numbers.len() / 80;
    for i in 0..count {
        let start = i * 80;
        let end = start + 80;
        views = view_in(views, &numbers[start..end]);
    }
    implied::is_pair(views)
}

// What the entries of the rows come to, by whether they have the two views.
pub fn weigh_rows(pair: bool, numbers: &[u16]) -> Weighed
    requires { (row_count numbers.now ≤ 201) × (some_too_wide numbers.now ≡ false) × (pair ≡ pair_for (entries_below numbers.now (row_count numbers.now))) }
    ensures { Weighs (entries_below numbers.now (row_count numbers.now)) result }
{
    let mut pids = no_pids();
    let mut indices = no_indices();
    let mut weighed = nothing_weighed();
    let count = numbers.len() / 80;
    for i in 0..count {
        let start = i * 80;
        let end = start + 80;
        weighed = weigh_row(
            &mut pids,
            &mut indices,
            weighed,
            pair,
            &numbers[start..end],
            i,
        );
    }
    weighed
}

// The bytes of the entries of the rows, from the front of the buffer on, where there is room for all of them.
fn put_rows(out: &mut [u8], numbers: &[u16]) -> usize
    requires { (some_too_wide numbers.now ≡ false) × (length (loop_bytes (entries_below numbers.now (row_count numbers.now))) ≤ length out.old) }
    ensures { Laid out.old 0 (loop_bytes (entries_below numbers.now (row_count numbers.now))) result out.new }
{
    let count = numbers.len() / 80;
    let mut place = 0;
    for i in 0..count {
        let start = i * 80;
        let end = start + 80;
        place = put_row(out, place, &numbers[start..end]);
    }
    place
}

// Writes the entries of the rows into `out`, from its front on. None has a value that is too wide.
pub fn write_rows(numbers: &[u16], out: &mut [u8]) -> Result<usize, Refusal>
    requires { some_too_wide numbers.now ≡ false }
    ensures { (result ≡ answer (length out.old) (row_count numbers.now) (entries_in numbers.now)) × (out.new ≡ content (row_count numbers.now) (entries_in numbers.now) out.old) }
{
    if MOST_ENTRIES < numbers.len() / 80 {
        return Err(Refusal::LoopTooLong);
    }
    let pair = pair_in(numbers);
    let size = loop_writer::decide(weigh_rows(pair, numbers), out.len())?;
    put_rows(out, numbers);
    Ok(size)
}
