// One transport packet of 188 bytes: what its header and its adaptation field say, and what a packet is judged for by itself. Any bytes get an
// answer; what a packet is to the packets before it is judged in the crate `continuity`.
#![tactic(auto)]

ghost use Rattle.std.specs.Prelude.{◌≡◌, ◌+◌, ◌*◌, ◌%◌, length};
ghost use Rattle.packets.specs.Reading.{packet_bytes, adaptation_of, packet_of, read_of};
ghost use Rattle.packets.specs.Judging.{lost_sync, is_skipped, with_payload, payload_at, adaptation_outside, starts_clear, header_within, is_outside, is_scrambled};

// The bytes of a packet.
pub const PACKET_BYTES: usize = 188;

// What an adaptation field says. Its length is 0 where there is none; the indicator and the PCR are there only where the field reaches so far and ends
// within the packet.
#[derive(Clone, Copy)]
pub struct Adaptation {
    pub adaptation_field_length: u8,
    pub discontinuity_indicator: bool,
    pub has_pcr: bool,
}

// A packet's fields, by the standard's names.
#[derive(Clone, Copy)]
pub struct Packet {
    pub sync_byte: u8,
    pub transport_error_indicator: bool,
    pub payload_unit_start_indicator: bool,
    pub pid: u16,
    pub transport_scrambling_control: u8,
    pub adaptation_field_control: u8,
    pub continuity_counter: u8,
    pub adaptation: Adaptation,
}

fn adaptation_field(packet: &[u8]) -> Adaptation
    requires { length packet.now ≡ packet_bytes }
    ensures { result ≡ adaptation_of packet.now }
{
    let control = packet[3] / 16 % 4;
    if control < 2 {
        return Adaptation {
            adaptation_field_length: 0,
            discontinuity_indicator: false,
            has_pcr: false,
        };
    }
    let length = packet[4];
    if 183 < length {
        return Adaptation {
            adaptation_field_length: length,
            discontinuity_indicator: false,
            has_pcr: false,
        };
    }
    let flags = packet[5];
    Adaptation {
        adaptation_field_length: length,
        discontinuity_indicator: (1 <= length) & (flags / 128 == 1),
        has_pcr: (7 <= length) & (flags / 16 % 2 == 1),
    }
}

fn pid_of(high: u8, low: u8) -> u16
    ensures { result ≡ high % 32 * 256 + low }
{
    u16::from(high) % 32 * 256 + u16::from(low)
}

// The fields of a whole packet.
pub fn fields(packet: &[u8]) -> Packet
    requires { length packet.now ≡ packet_bytes }
    ensures { result ≡ packet_of packet.now }
{
    let adaptation = adaptation_field(packet);
    Packet {
        sync_byte: packet[0],
        transport_error_indicator: packet[1] / 128 == 1,
        payload_unit_start_indicator: packet[1] / 64 % 2 == 1,
        pid: pid_of(packet[1], packet[2]),
        transport_scrambling_control: packet[3] / 64,
        adaptation_field_control: packet[3] / 16 % 4,
        continuity_counter: packet[3] % 16,
        adaptation,
    }
}

// What a packet says, whatever the bytes are.
pub fn read(bytes: &[u8]) -> Option<Packet>
    ensures { result ≡ read_of bytes.now }
{
    if bytes.len() != PACKET_BYTES {
        return None;
    }
    Some(fields(bytes))
}

// 30: no sync byte.
pub fn lost_sync(packet: Packet) -> bool
    ensures { result ≡ lost_sync packet }
{
    packet.sync_byte != 0x47
}

// A packet with its error bit set or adaptation control 00 is skipped whole.
pub fn skipped(packet: Packet) -> bool
    ensures { result ≡ is_skipped packet }
{
    packet.transport_error_indicator | (packet.adaptation_field_control == 0)
}

pub fn has_payload(packet: Packet) -> bool
    ensures { result ≡ with_payload packet }
{
    packet.adaptation_field_control % 2 == 1
}

// Where the payload starts, if there is one: after the header, or after the adaptation field.
pub fn payload_at(packet: Packet) -> usize
    ensures { result ≡ payload_at packet }
{
    if packet.adaptation_field_control < 2 {
        return 4;
    }
    5 + usize::from(packet.adaptation.adaptation_field_length)
}

// 32, its first half: the adaptation field is not within the packet.
fn adaptation_outside(packet: Packet) -> bool
    ensures { result ≡ adaptation_outside packet }
{
    if packet.adaptation_field_control < 2 {
        return false;
    }
    PACKET_BYTES < 5 + usize::from(packet.adaptation.adaptation_field_length)
}

// A unit starts here, in a payload that is not scrambled.
pub fn starts_clear(packet: Packet) -> bool
    ensures { result ≡ starts_clear packet }
{
    (packet.adaptation_field_control % 2 == 1)
        & packet.payload_unit_start_indicator
        & (packet.transport_scrambling_control == 0)
}

// Whether a PES header would end within the payload: 9 bytes, and as many as its length byte says. Nothing else of it is looked at.
fn header_within(payload: &[u8]) -> bool
    ensures { result ≡ header_within payload.now }
{
    if payload.len() < 9 {
        return false;
    }
    9 + usize::from(payload[8]) <= payload.len()
}

// 32: the adaptation field, or the PES header of a unit that starts here, is not within the packet.
pub fn outside(fields: Packet, packet: &[u8]) -> bool
    requires { length packet.now ≡ packet_bytes }
    ensures { result ≡ is_outside fields packet.now }
{
    if adaptation_outside(fields) {
        return true;
    }
    if !starts_clear(fields) {
        return false;
    }
    let at = payload_at(fields);
    !header_within(&packet[at..])
}

// 33: a payload with scrambling bits.
pub fn scrambled(packet: Packet) -> bool
    ensures { result ≡ is_scrambled packet }
{
    (packet.adaptation_field_control % 2 == 1) & (packet.transport_scrambling_control != 0)
}
