// A packet on a layer's PID, after the one before it on that PID: skipped whole, a copy that counts once, a counter gap (31), what it is refused for by
// itself (32, 33), or the start of a unit. The bytes of the packet before it are lent beside its own, so that nothing is kept here.
#![tactic(auto)]

ghost use Rattle.std.specs.Prelude.{◌≡◌, ◌+◌, ◌%◌, ◌≤◌, length};
ghost use Rattle.packets.specs.Reading.{packet_bytes};
ghost use Rattle.continuity.specs.Following.{difference_of, same_bytes, repeats, is_copy, next_counter, is_gap, alone_of, step_of, ordinary_fourth, ordinary_after};

use packets::{PACKET_BYTES, Packet};

// What a packet on a layer's PID is. Skipped whole, it is no packet before another; a copy is judged no further; a fault has its number, 31 to 33; where a
// unit starts, its PES header stands from that place of the packet on.
#[derive(Clone, Copy)]
pub enum Step {
    Skipped,
    Copy,
    Faulty(u8),
    Starts(usize),
    Continues,
}

fn difference(one: u8, other: u8) -> u8
    ensures { result ≡ difference_of one other }
{
    u8::from(one != other)
}

// Whether two parts of packets have the same bytes. All places are looked at, so that they are looked at side by side.
fn same(one: &[u8], other: &[u8]) -> bool
    requires { (length one.now ≡ length other.now) × (length one.now ≤ packet_bytes) }
    ensures { result ≡ same_bytes one.now other.now }
{
    let mut differences: u8 = 0;
    for (at, byte) in one.iter().enumerate() {
        differences += difference(*byte, other[at]);
    }
    differences == 0
}

// Whether two packets have the same bytes, those of the PCR aside where both have one.
fn repeated(pcrs: bool, packet: &[u8], before: &[u8]) -> bool
    requires { (length packet.now ≡ packet_bytes) × (length before.now ≡ packet_bytes) }
    ensures { result ≡ repeats pcrs packet.now before.now }
{
    if !pcrs {
        return same(packet, before);
    }
    if !same(&packet[..6], &before[..6]) {
        return false;
    }
    same(&packet[12..], &before[12..])
}

// A copy: a packet with payload that repeats the counter, and only then are all other bytes compared.
fn is_copy(fields: Packet, packet: &[u8], earlier: Packet, before: &[u8]) -> bool
    requires { (length packet.now ≡ packet_bytes) × (length before.now ≡ packet_bytes) }
    ensures { result ≡ is_copy fields packet.now earlier before.now }
{
    if !packets::has_payload(fields) {
        return false;
    }
    if fields.continuity_counter != earlier.continuity_counter {
        return false;
    }
    repeated(
        fields.adaptation.has_pcr & earlier.adaptation.has_pcr,
        packet,
        before,
    )
}

// The counter that a packet should have after one with this counter.
fn next_counter(fields: Packet, counter: u8) -> u8
    requires { counter ≤ 15 }
    ensures { result ≡ next_counter fields counter }
{
    if !packets::has_payload(fields) {
        return counter;
    }
    (counter + 1) % 16
}

// 31: another counter than the next one, and no discontinuity indicator.
fn is_gap(fields: Packet, earlier: Packet) -> bool
    requires { earlier.continuity_counter ≤ 15 }
    ensures { result ≡ is_gap fields earlier }
{
    (fields.continuity_counter != next_counter(fields, earlier.continuity_counter))
        & !fields.adaptation.discontinuity_indicator
}

// 32 before 33, and else whether a unit starts.
fn alone(fields: Packet, packet: &[u8]) -> Step
    requires { length packet.now ≡ packet_bytes }
    ensures { result ≡ alone_of fields packet.now }
{
    if packets::outside(fields, packet) {
        return Step::Faulty(32);
    }
    if packets::scrambled(fields) {
        return Step::Faulty(33);
    }
    if packets::starts_clear(fields) {
        return Step::Starts(packets::payload_at(fields));
    }
    Step::Continues
}

// THE STEP: a packet, and the bytes of the one before it on its PID, or any other number of bytes where there is none.
pub fn follow(before: &[u8], packet: &[u8]) -> Step
    requires { length packet.now ≡ packet_bytes }
    ensures { result ≡ step_of before.now packet.now }
{
    let fields = packets::fields(packet);
    if packets::skipped(fields) {
        return Step::Skipped;
    }
    if before.len() != PACKET_BYTES {
        return alone(fields, packet);
    }
    let earlier = packets::fields(before);
    if is_copy(fields, packet, earlier, before) {
        return Step::Copy;
    }
    if is_gap(fields, earlier) {
        return Step::Faulty(31);
    }
    alone(fields, packet)
}

// The fourth byte of an ordinary packet after one with this fourth byte: not scrambled, a payload and no adaptation field, and the next counter.
pub fn ordinary_fourth(before: u8) -> u8
    ensures { result ≡ ordinary_fourth before }
{
    16 + (before % 16 + 1) % 16
}

// Whether a packet is an ordinary one after the packet before it, by the second and fourth byte of the one and the fourth of the other: most packets are, and
// nothing else of them need be looked at.
pub fn ordinary_after(second: u8, fourth: u8, before: u8) -> bool
    ensures { result ≡ ordinary_after second fourth before }
{
    if 64 <= second {
        return false;
    }
    fourth == ordinary_fourth(before)
}
