// The packets that give nothing, passed over.
ghost use Rattle.std.specs.Prelude.{◌≡◌, cond, ◌+◌, ◌*◌, ◌≤◌, ◌<◌, length};
ghost use Rattle.packets.specs.Reading.{packet_bytes};
ghost use Rattle.scanning.specs.Events.{EndsWithin, Passes, begins_with, Runs};

use super::events::pid_of;
use packets::PACKET_BYTES;

// Whether a packet's first four bytes are the sync byte and three others.
fn begins_with(
    first: u8,
    second: u8,
    third: u8,
    fourth: u8,
    other_second: u8,
    other_third: u8,
    other_fourth: u8,
) -> bool
    ensures { result ≡ begins_with first second third fourth other_second other_third other_fourth }
{
    if first != 0x47 {
        return false;
    }
    if second != other_second {
        return false;
    }
    if third != other_third {
        return false;
    }
    fourth == other_fourth
}

// The last packet of the run that starts with a packet: those right after it that begin as it does, with counters that go on. What they should begin with is known
// before they are looked at, so that many are looked at side by side.
fn run_from(bytes: &[u8], from: usize, packets: usize, second: u8, third: u8) -> usize
    requires { (from < packets) × (packet_bytes * packets ≤ length bytes.now) }
    ensures { Runs bytes.now second third from packets result }
{
    // A `while`: what is returned is the last packet of the run, one before the one that is looked at.
    let mut last = from;
    let mut fourth = bytes[PACKET_BYTES * from + 3];
    while last + 1 < packets {
        let at = PACKET_BYTES * (last + 1);
        let next = continuity::ordinary_fourth(fourth);
        if !begins_with(
            bytes[at],
            bytes[at + 1],
            bytes[at + 2],
            bytes[at + 3],
            second,
            third,
            next,
        ) {
            return last;
        }
        fourth = next;
        last += 1;
    }
    last
}

// The number of the packet to go on with after one that was passed over, which stands right before a number: where it is an ordinary one of a layer, the run that starts
// with it is passed over too, and its last packet is then the last one on its PID.
fn pass_run(
    table: &[u8; 8192],
    kept: &[u8],
    bytes: &[u8],
    from: usize,
    packets: usize,
    ends: &mut [usize; 64],
) -> usize
    requires { (0 < from) × (from ≤ packets) × (packet_bytes * packets ≤ length bytes.now) × EndsWithin kept.now bytes.now ends.old }
    ensures { Passes table.now kept.now bytes.now ends.old from packets result ends.new }
{
    let before = from - 1;
    let at = PACKET_BYTES * before;
    let second = bytes[at + 1];
    let third = bytes[at + 2];
    if 64 <= second {
        return from;
    }
    let layer = table[pid_of(second, third)];
    if 63 < layer {
        return from;
    }
    let slot = usize::from(layer);
    let end = ends[slot];
    if end != at + PACKET_BYTES {
        return from;
    }
    let last = run_from(bytes, before, packets, second, third);
    ends[slot] = PACKET_BYTES * last + PACKET_BYTES;
    last + 1
}

// Whether the packet at a number of steps is passed over: it is in sync and on no layer's PID, which its first three bytes tell; or it is an ordinary one of a
// layer, which one byte more tells and one of the packet before it on its PID. It is then the last one there. All others are left to a closer look.
fn pass_one(
    table: &[u8; 8192],
    kept: &[u8],
    bytes: &[u8],
    step: usize,
    ends: &mut [usize; 64],
) -> bool
    requires { (packet_bytes * step + packet_bytes ≤ length bytes.now) × EndsWithin kept.now bytes.now ends.old }
    ensures { Passes table.now kept.now bytes.now ends.old step (step + 1) (cond result (step + 1) step) ends.new }
{
    let at = PACKET_BYTES * step;
    let next = at + PACKET_BYTES;
    let packet = &bytes[at..next];
    if packet[0] != 0x47 {
        return false;
    }
    let layer = table[pid_of(packet[1], packet[2])];
    if 63 < layer {
        return true;
    }
    let slot = usize::from(layer);
    let end = ends[slot];
    if end < PACKET_BYTES {
        return false;
    }
    if !continuity::ordinary_after(packet[1], packet[3], bytes[end - 185]) {
        return false;
    }
    ends[slot] = next;
    true
}

// One after another, whatever PIDs they have.
fn pass_each(
    table: &[u8; 8192],
    kept: &[u8],
    bytes: &[u8],
    from: usize,
    packets: usize,
    ends: &mut [usize; 64],
) -> usize
    requires { (from ≤ packets) × (packet_bytes * packets ≤ length bytes.now) × EndsWithin kept.now bytes.now ends.old }
    ensures { Passes table.now kept.now bytes.now ends.old from packets result ends.new }
{
    for number in from..packets {
        if !pass_one(table, kept, bytes, number, ends) {
            return number;
        }
    }
    packets
}

// So many packets are passed over one after another before a run is looked for: where the PIDs change from packet to packet a run is rarely there, and looking for it after
// each would cost more than it saves.
const BETWEEN_RUNS: usize = 8;

// The number of the first packet, from one on, that is not passed over, or the number of packets.
pub fn skip(
    table: &[u8; 8192],
    kept: &[u8],
    bytes: &[u8],
    from: usize,
    packets: usize,
    ends: &mut [usize; 64],
) -> usize
    requires { (from ≤ packets) × (packet_bytes * packets ≤ length bytes.now) × EndsWithin kept.now bytes.now ends.old }
    ensures { Passes table.now kept.now bytes.now ends.old from packets result ends.new }
{
    // A `while`: a turn goes on behind the packets that it passed over.
    let mut number = from;
    while number < packets {
        let until = packets.min(number + BETWEEN_RUNS);
        let next = pass_each(table, kept, bytes, number, until, ends);
        if next < until {
            return next;
        }
        number = pass_run(table, kept, bytes, next, packets, ends);
    }
    number
}
