// A recording fed in pieces: the bytes of a packet that is not whole yet are carried from one piece to the next, and so are the last packets on the layers' PIDs.
// What is known is a few numbers by value beside buffers that the caller lends, as large whatever the recording's length. Here are the two halves of a piece: what
// goes to the packet that is not whole yet, and what starts where a packet does.
#![tactic(auto)]

ghost use Rattle.std.specs.Prelude.{◌≡◌, ◌+◌, ◌^◌, ◌≤◌, ◌<◌, length};
ghost use Rattle.packets.specs.Reading.{packet_bytes};
ghost use Rattle.recording_rows.specs.Columns.{columns, room_in};
ghost use Rattle.feeding.specs.Pieces.{Ready, Feeds};

use packets::PACKET_BYTES;
use unit_starts::Found;

// How many bytes of a packet are carried, how many packets were whole, and what was found in them.
#[derive(Clone, Copy)]
pub struct Progress {
    pub part: usize,
    pub number: usize,
    pub found: Found,
}

// A piece that goes no further than the packet that is not whole yet.
pub fn feed_front(
    table: &[u8; 8192],
    bytes: &[u8],
    progress: Progress,
    room: usize,
    part: &mut [u8],
    kept: &mut [u8],
    ends: &mut [usize; 64],
    indices: &mut [u8],
    decodings: &mut [u64],
    matches: &mut [u64],
    trefs: &mut [u8],
    numbers: &mut [u64],
) -> Progress
    requires { (progress.part + length bytes.now ≤ packet_bytes) × (progress.number + packet_bytes < 2 ^ 64) × Ready progress part.old kept.old ends.old
        × (room ≤ room_in (columns indices.old decodings.old matches.old trefs.old numbers.old)) }
    ensures { Feeds table.now bytes.now room progress part.old kept.old ends.old
        (columns indices.old decodings.old matches.old trefs.old numbers.old)
        result part.new kept.new ends.new
        (columns indices.new decodings.new matches.new trefs.new numbers.new) }
{
    buffers::put_whole(part, progress.part, bytes);
    let size = progress.part + bytes.len();
    let before = progress.found;
    if size < PACKET_BYTES {
        return Progress {
            part: size,
            ..progress
        };
    }
    let found = passing::pass(
        table,
        part,
        progress.number,
        before,
        room,
        kept,
        ends,
        indices,
        decodings,
        matches,
        trefs,
        numbers,
    );
    Progress {
        part: 0,
        number: progress.number + 1,
        found,
    }
}

// A piece that starts where a packet does: no bytes are carried before it.
pub fn feed_rest(
    table: &[u8; 8192],
    bytes: &[u8],
    progress: Progress,
    room: usize,
    part: &mut [u8],
    kept: &mut [u8],
    ends: &mut [usize; 64],
    indices: &mut [u8],
    decodings: &mut [u64],
    matches: &mut [u64],
    trefs: &mut [u8],
    numbers: &mut [u64],
) -> Progress
    requires { (progress.part ≡ 0) × (progress.number + length bytes.now < 2 ^ 64) × Ready progress part.old kept.old ends.old
        × (room ≤ room_in (columns indices.old decodings.old matches.old trefs.old numbers.old)) }
    ensures { Feeds table.now bytes.now room progress part.old kept.old ends.old
        (columns indices.old decodings.old matches.old trefs.old numbers.old)
        result part.new kept.new ends.new
        (columns indices.new decodings.new matches.new trefs.new numbers.new) }
{
    let packets = bytes.len() / PACKET_BYTES;
    let whole = PACKET_BYTES * packets;
    let found = passing::pass(
        table,
        &bytes[..whole],
        progress.number,
        progress.found,
        room,
        kept,
        ends,
        indices,
        decodings,
        matches,
        trefs,
        numbers,
    );
    buffers::put_whole(part, 0, &bytes[whole..]);
    Progress {
        part: bytes.len() - whole,
        number: progress.number + packets,
        found,
    }
}
