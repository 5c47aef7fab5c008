// The last packet on each layer's PID, kept where the bytes in which it stands are about to go: 64 places of 188 bytes, in a buffer that the caller lends.
#![tactic(auto)]

ghost use Rattle.std.specs.Prelude.{[], ◌≡◌, ◌+◌, ◌*◌, ◌≤◌, ◌<◌, length};
ghost use Rattle.packets.specs.Reading.{packet_bytes};
ghost use Rattle.scanning.specs.Events.{layers, LastWithin, EndsWithin};
ghost use Rattle.kept_packets.specs.Keeping.{kept_after, end_after, Kept};

use packets::PACKET_BYTES;
use scanning::KEPT;

// The bytes that are kept: a packet for each layer.
pub const KEPT_BYTES: usize = 12032;

// The last packet of one layer, if it stands in these bytes, is copied to its place. The answer is where it stands now.
fn settle_one(kept: &mut [u8], bytes: &[u8], slot: usize, end: usize) -> usize
    requires { (packet_bytes * slot + packet_bytes ≤ length kept.old) × LastWithin kept.old bytes.now slot end }
    ensures place { result ≡ end_after end }
    ensures content { kept.new ≡ kept_after kept.old bytes.now slot end }
{
    if end <= KEPT {
        return end;
    }
    let start = end - PACKET_BYTES;
    one_by_one::put_whole(kept, PACKET_BYTES * slot, &bytes[start..end]);
    KEPT
}

// All layers: after it no last packet stands in the bytes, and each is what it was.
pub fn settle(kept: &mut [u8], bytes: &[u8], ends: &mut [usize; 64])
    requires { (packet_bytes * layers ≤ length kept.old) × (length ends.old ≡ layers) × EndsWithin kept.old bytes.now ends.old }
    ensures { Kept kept.old bytes.now ends.old kept.new ends.new }
{
    for slot in 0..64 {
        let end = settle_one(kept, bytes, slot, ends[slot]);
        ends[slot] = end;
    }
}
