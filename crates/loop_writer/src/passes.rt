// The passes over the entries of an array that are to be written: whether a value is too wide, whether layers are implied, what they come to, and their bytes.
ghost use Rattle.std.specs.Prelude.{◌≡◌, false, ◌≤◌, take};
ghost use Rattle.combinators.specs.Lists.{any};
ghost use Rattle.buffers.specs.Buffers.{Laid};
ghost use Rattle.loop_writer.specs.Layout.{loop_bytes, too_wide};
ghost use Rattle.loop_writer.specs.Verdict.{pair_for};
ghost use Rattle.loop_writer.specs.Weighing.{Weighs};

use super::entry::{put_entry, too_wide, view_of};
use super::weighing::{Weighed, nothing_weighed, weigh_next};
use es_loop::{Entry, MOST_ENTRIES, no_indices, no_pids};

// Whether one of the first `count` entries has a value that is too wide.
pub fn some_too_wide(count: usize, entries: [Entry; MOST_ENTRIES]) -> bool
    requires { count ≤ 201 }
    ensures { result ≡ any too_wide (take count entries) }
{
    for entry in &entries[..count] {
        if too_wide(*entry) {
            return true;
        }
    }
    false
}

// Whether the first `count` entries are to have implied layers: two views, and neither with a hierarchy descriptor.
pub fn implied_pair(count: usize, entries: [Entry; MOST_ENTRIES]) -> bool
    requires { count ≤ 201 }
    ensures { result ≡ pair_for (take count entries) }
{
    let mut views = implied::no_views();
    for entry in &entries[..count] {
        views = view_of(views, *entry);
    }
    implied::is_pair(views)
}

// What the first `count` entries come to, none with a value that is too wide, by whether they are to have implied layers.
pub fn weigh(pair: bool, count: usize, entries: [Entry; MOST_ENTRIES]) -> Weighed
    requires { (count ≤ 201) × (any too_wide (take count entries) ≡ false) × (pair ≡ pair_for (take count entries)) }
    ensures { Weighs (take count entries) result }
{
    let mut pids = no_pids();
    let mut indices = no_indices();
    let mut weighed = nothing_weighed();
    for (i, entry) in entries[..count].iter().enumerate() {
        let given = implied::gives(pair, entry.stream_type);
        weighed = weigh_next(&mut pids, &mut indices, weighed, given, *entry, i);
    }
    weighed
}

// The first `count` entries, from the front of the buffer on.
pub fn put_entries(out: &mut [u8], count: usize, entries: [Entry; MOST_ENTRIES]) -> usize
    requires { (count ≤ 201) × (any too_wide (take count entries) ≡ false) }
    ensures { Laid out.old 0 (loop_bytes (take count entries)) result out.new }
{
    let mut place = buffers::put(out, 0, b"");
    for entry in &entries[..count] {
        place = put_entry(out, place, *entry);
    }
    place
}
