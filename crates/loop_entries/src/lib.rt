// One entry of the elementary-stream loop: its head, and what a reading sees in its descriptors.
#![tactic(auto)]

ghost use Rattle.std.specs.Prelude.{◌≡◌, [], ◌+◌, ◌*◌, ◌%◌, ◌≤◌, length, take, drop};
ghost use Rattle.framing.specs.Pieces.{whole};
ghost use Rattle.descriptors.specs.Finding.{named_by};
ghost use Rattle.loop_entries.specs.Entries.{size_of, stream_of, marked_stream, named_of, seen_in, entry_of, entries_of};

use descriptors::{Named, Record, Seen};
use vocabulary::{LayerIndex, Reading};

// The most bytes of a loop, and the most entries that they can hold.
pub const MOST_BYTES: usize = 1008;

pub const MOST_ENTRIES: usize = 201;

// An entry as it is answered.
#[derive(Clone, Copy)]
pub struct Entry {
    pub stream_type: u8,
    pub pid: u16,
    pub record: Record,
    pub embedded: [LayerIndex; 63],
}

// An entry as it is judged: whether it and its descriptors fit, and what was seen in them.
#[derive(Clone, Copy)]
pub struct Stream {
    pub fits: bool,
    pub stream_type: u8,
    pub pid: u16,
    pub seen: Seen,
}

// Room for every entry that a loop can hold, all blank.
pub fn blank_entries() -> [Entry; MOST_ENTRIES]
    ensures { result ≡ entries_of [] }
{
    let blank = Entry {
        stream_type: 0,
        pid: 0,
        record: Record::NoRecord,
        embedded: descriptors::no_layers(),
    };
    [blank; MOST_ENTRIES]
}

// How many bytes the entry at the front takes: its head, and as many as ES_info_length says. All 12 bits of that count.
pub fn entry_size(left: &[u8]) -> usize
    ensures { result ≡ size_of left.now }
{
    if left.len() < 5 {
        return 5;
    }
    5 + (usize::from(left[3]) % 16 * 256 + usize::from(left[4]))
}

// The descriptors of a stream are looked into only where the reading knows its type.
fn look_into(reading: Reading, stream_type: u8, info: &[u8]) -> Seen
    ensures { result ≡ seen_in reading stream_type info.now }
{
    if vocabulary::knows(reading, stream_type) {
        return descriptors::look_through(reading, info);
    }
    descriptors::nothing_seen()
}

pub fn elementary_pid(high: u8, low: u8) -> u16
    ensures { result ≡ high % 32 * 256 + low }
{
    u16::from(high) % 32 * 256 + u16::from(low)
}

// A whole entry, with its mark where the loop has the two views without a hierarchy descriptor and it is one of them.
pub fn read_stream(reading: Reading, pair: bool, entry: &[u8]) -> Stream
    requires { 5 ≤ length entry.now }
    ensures { result ≡ marked_stream pair (stream_of reading (whole (take 5 entry.now) (drop 5 entry.now))) }
{
    let stream_type = entry[0];
    let pid = elementary_pid(entry[1], entry[2]);
    let seen = implied::mark_seen(
        pair,
        stream_type,
        look_into(reading, stream_type, &entry[5..]),
    );
    Stream {
        fits: seen.fits,
        stream_type,
        pid,
        seen,
    }
}

// The first record of a stream, and the set of the layers that it names. Nothing else is taken from its descriptors.
fn name_in(reading: Reading, stream_type: u8, info: &[u8]) -> Named
    ensures { result ≡ named_by stream_type (seen_in reading stream_type info.now) }
{
    if !vocabulary::knows(reading, stream_type) {
        return descriptors::nothing_named();
    }
    descriptors::name_layers(reading, info)
}

// What makes a whole entry a layer, if anything does, and the set of the layers that it names.
pub fn read_layer(reading: Reading, pair: bool, entry: &[u8]) -> Named
    requires { 5 ≤ length entry.now }
    ensures { result ≡ named_of (marked_stream pair (stream_of reading (whole (take 5 entry.now) (drop 5 entry.now)))) }
{
    let stream_type = entry[0];
    implied::mark_named(
        pair,
        stream_type,
        name_in(reading, stream_type, &entry[5..]),
    )
}

// What is answered of an entry.
pub fn entry_of(stream: Stream) -> Entry
    ensures { result ≡ entry_of stream }
{
    let seen = stream.seen;
    let record = seen.record;
    let embedded = seen.embedded;
    Entry {
        stream_type: stream.stream_type,
        pid: stream.pid,
        record,
        embedded,
    }
}
