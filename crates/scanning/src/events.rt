// One packet of a recording: what it gives, after the last packet on its layer's PID.
ghost use Rattle.std.specs.Prelude.{◌≡◌, ◌+◌, ◌-◌, ◌*◌, ◌%◌, ◌≤◌, ◌<◌, length};
ghost use Rattle.packets.specs.Reading.{packet_bytes};
ghost use Rattle.continuity.specs.Following.{step_of};
ghost use Rattle.scanning.specs.Events.{layers, last_by, header_event, step_event, start_in, packet_event, packet_lasts, packet_at, last_at, lasts_of, LastWithin, EndsWithin};

use continuity::Step;
use packets::PACKET_BYTES;
use pes_reader::Header;
use vocabulary::Refusal;

// The place of a last packet that was kept of the bytes before these.
pub const KEPT: usize = 1;

// A row of the table that joining takes, whether a TREF was sent, which joining does not read, and the number of the packet in which its unit starts.
#[derive(Clone, Copy)]
pub struct Row {
    pub layer: u8,
    pub decoding: u64,
    pub matching: u64,
    pub tref_sent: bool,
    pub packet: usize,
}

// What a packet gives: a fault by its number, 30 to 33; a PES header that is refused; or a row.
#[derive(Clone, Copy)]
pub enum Event {
    Nothing,
    Fault(u8),
    NotRead(Refusal),
    Unit(Row),
}

fn start_of(end: usize) -> usize
    ensures { result ≡ end - packet_bytes }
{
    end.saturating_sub(PACKET_BYTES)
}

pub fn pid_of(high: u8, low: u8) -> usize
    ensures { result ≡ high % 32 * 256 + low }
{
    usize::from(high) % 32 * 256 + usize::from(low)
}

// Where the last packet ends now: a packet that is skipped whole is none.
fn end_after(step: Step, end: usize, next: usize) -> usize
    ensures { result ≡ last_by step end next }
{
    match step {
        Step::Skipped => end,
        Step::Copy | Step::Faulty(_) | Step::Starts(_) | Step::Continues => next,
    }
}

// The row of a unit that starts, or why its PES header is refused.
fn header_event(layer: u8, packet: usize, answer: Result<Header, Refusal>) -> Event
    ensures { result ≡ header_event layer packet answer }
{
    match answer {
        Ok(header) => Event::Unit(Row {
            layer,
            decoding: header.times.decoding,
            matching: header.times.matching,
            tref_sent: header.tref_sent,
            packet,
        }),
        Err(refusal) => Event::NotRead(refusal),
    }
}

fn step_event(layer: u8, number: usize, packet: &[u8], step: Step) -> Event
    requires { start_in step ≤ length packet.now }
    ensures { result ≡ step_event layer number packet.now step }
{
    match step {
        Step::Skipped | Step::Copy | Step::Continues => Event::Nothing,
        Step::Faulty(fault) => Event::Fault(fault),
        Step::Starts(at) => header_event(layer, number, pes_reader::read(&packet[at..])),
    }
}

// The step of a packet after the last one on its layer's PID: there is none at 0, it was kept of earlier bytes at 1, and else it ends at that place of these.
fn follow_last(kept: &[u8], bytes: &[u8], slot: usize, end: usize, packet: &[u8]) -> Step
    requires { LastWithin kept.now bytes.now slot end × (slot < layers) × (length packet.now ≡ packet_bytes) }
    ensures { result ≡ step_of (last_at kept.now bytes.now slot end) packet.now }
{
    if end == KEPT {
        let from = PACKET_BYTES * slot;
        return continuity::follow(&kept[from..from + PACKET_BYTES], packet);
    }
    let start = start_of(end);
    continuity::follow(&bytes[start..end], packet)
}

// What the packet at a number of steps gives, which has a number of its own in the recording. For each layer stands the place at which the last packet on its
// PID ends.
pub fn look_at(
    table: &[u8; 8192],
    kept: &[u8],
    bytes: &[u8],
    step: usize,
    number: usize,
    ends: &mut [usize; 64],
) -> Event
    requires { (packet_bytes * step + packet_bytes ≤ length bytes.now) × EndsWithin kept.now bytes.now ends.old }
    ensures gives { result
        ≡ packet_event table.now number (packet_at bytes.now step) (lasts_of kept.now bytes.now ends.old) }
    ensures lasts { lasts_of kept.now bytes.now ends.new
        ≡ packet_lasts table.now (packet_at bytes.now step) (lasts_of kept.now bytes.now ends.old) }
    ensures within { EndsWithin kept.now bytes.now ends.new }
{
    let at = PACKET_BYTES * step;
    let next = at + PACKET_BYTES;
    let packet = &bytes[at..next];
    if packet[0] != 0x47 {
        return Event::Fault(30);
    }
    let layer = table[pid_of(packet[1], packet[2])];
    if 63 < layer {
        return Event::Nothing;
    }
    let slot = usize::from(layer);
    let end = ends[slot];
    let given = follow_last(kept, bytes, slot, end, packet);
    ends[slot] = end_after(given, end, next);
    step_event(layer, number, packet, given)
}
