// The packets of a recording, or of a part of one, in one walk: what is found in them, the lowest of 30 to 33 and of 20 to 24 each at its earliest packet and the
// number of rows; and the packets in which units start, noted one after another in a list that the caller lends, as far as it has room.
#![tactic(auto)]

ghost use Rattle.std.specs.Prelude.{[], ◌∷◌, map, ◌≡◌, ◌+◌, ◌-◌, ◌*◌, ◌/◌, ◌^◌, ◌≤◌, ◌<◌, length};
ghost use Rattle.std.proofs.lemmas.List.Edits.{sets};
ghost use Rattle.packets.specs.Reading.{packet_bytes};
ghost use Rattle.scanning.specs.Events.{EndsWithin};
ghost use Rattle.unit_starts.specs.Finding.{lower_of, nothing_found, noted, row_in, packet_in, found_in, rows_in, Walks};

use packets::PACKET_BYTES;
use scanning::Event;

// The lowest number so far, and the earliest packet at which it applies.
#[derive(Clone, Copy)]
pub struct Mark {
    pub number: u8,
    pub packet: usize,
}

// The lowest of 30 to 33, or 34; the lowest of 20 to 24, or 25; and the number of rows.
#[derive(Clone, Copy)]
pub struct Found {
    pub fault: Mark,
    pub refusal: Mark,
    pub rows: usize,
}

// Before the first packet.
pub fn nothing() -> Found
    ensures { result ≡ nothing_found }
{
    Found {
        fault: Mark {
            number: 34,
            packet: 0,
        },
        refusal: Mark {
            number: 25,
            packet: 0,
        },
        rows: 0,
    }
}

fn lower(mark: Mark, number: u8, packet: usize) -> Mark
    ensures { result ≡ lower_of mark number packet }
{
    if number < mark.number {
        return Mark { number, packet };
    }
    mark
}

// What is found after one more packet.
pub fn note(number: usize, event: Event, found: Found) -> Found
    requires { found.rows < 2 ^ 64 - 1 }
    ensures { result ≡ noted number event found }
{
    match event {
        Event::Nothing => found,
        Event::Fault(fault_number) => Found {
            fault: lower(found.fault, fault_number, number),
            ..found
        },
        Event::NotRead(reason) => Found {
            refusal: lower(found.refusal, vocabulary::number(reason), number),
            ..found
        },
        Event::Unit(_) => Found {
            rows: found.rows + 1,
            ..found
        },
    }
}

fn put_start(packet: usize, at: usize, starts: &mut [u64])
    ensures { starts.new ≡ sets starts.old at (packet ∷ []) }
{
    if at < starts.len() {
        starts[at] = packet as u64;
    }
}

// The packet in which a unit starts, if one does, at a place of the list. A place that it has not is passed over.
fn note_start(given: Event, at: usize, starts: &mut [u64])
    ensures { starts.new ≡ sets starts.old at (map packet_in (row_in given)) }
{
    match given {
        Event::Nothing | Event::Fault(_) | Event::NotRead(_) => (),
        Event::Unit(row) => put_start(row.packet, at, starts),
    }
}

// THE WALK over whole packets, the first of which has a number in the recording, after all that was found before it.
pub fn walk(
    table: &[u8; 8192],
    kept: &[u8],
    bytes: &[u8],
    first: usize,
    found: Found,
    ends: &mut [usize; 64],
    starts: &mut [u64],
) -> Found
    requires { (length bytes.now ≡ packet_bytes * (length bytes.now / packet_bytes)) × (first + length bytes.now < 2 ^ 64) × (found.rows ≤ first)
        × EndsWithin kept.now bytes.now ends.old }
    ensures { Walks table.now kept.now bytes.now first found ends.old starts.old ends.new starts.new result }
{
    let packets = bytes.len() / PACKET_BYTES;
    let mut so_far = found;
    // A `while`: a turn goes on behind the packets that were passed over.
    let mut step = 0;
    while step < packets {
        let at = scanning::skip(table, kept, bytes, step, packets, ends);
        if packets <= at {
            return so_far;
        }
        let number = first + at;
        let given = scanning::look_at(table, kept, bytes, at, number, ends);
        note_start(given, so_far.rows, starts);
        so_far = note(number, given, so_far);
        step = at + 1;
    }
    so_far
}

// The whole recording: its packets, and a last part of one where bytes are left over, which gives 30.
pub fn judge(table: &[u8; 8192], bytes: &[u8], starts: &mut [u64]) -> Found
    ensures finds { result ≡ found_in table.now bytes.now }
    ensures notes { starts.new ≡ sets starts.old 0 (map packet_in (rows_in table.now bytes.now)) }
{
    let packets = bytes.len() / PACKET_BYTES;
    let whole = PACKET_BYTES * packets;
    let mut ends = [0usize; 64];
    let found = walk(
        table,
        &bytes[..0],
        &bytes[..whole],
        0,
        nothing(),
        &mut ends,
        starts,
    );
    if whole < bytes.len() {
        return note(packets, Event::Fault(30), found);
    }
    found
}
