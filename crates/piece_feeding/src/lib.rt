// A recording fed in pieces of any lengths, cut anywhere: the first bytes of a piece go to the packet that is not whole yet, and the others start where a packet does.
#![tactic(auto)]

ghost use Rattle.std.specs.Prelude.{◌≡◌, ◌+◌, ◌-◌, ◌^◌, ◌≤◌, ◌<◌, length};
ghost use Rattle.packets.specs.Reading.{packet_bytes};
ghost use Rattle.recording_rows.specs.Columns.{columns, room_in};
ghost use Rattle.feeding.specs.Pieces.{Ready, Feeds};
ghost use Rattle.piece_feeding.specs.Told.{starts_with, found_at_end};

use feeding::Progress;
use packets::PACKET_BYTES;
use scanning::Event;
use unit_starts::Found;

// ONE PIECE MORE, of any length.
pub fn feed(
    table: &[u8; 8192],
    bytes: &[u8],
    progress: Progress,
    room: usize,
    part: &mut [u8],
    kept: &mut [u8],
    ends: &mut [usize; 64],
    indices: &mut [u8],
    decodings: &mut [u64],
    matches: &mut [u64],
    trefs: &mut [u8],
    numbers: &mut [u64],
) -> Progress
    requires { (progress.number + length bytes.now + packet_bytes < 2 ^ 64) × Ready progress part.old kept.old ends.old
        × (room ≤ room_in (columns indices.old decodings.old matches.old trefs.old numbers.old)) }
    ensures { Feeds table.now bytes.now room progress part.old kept.old ends.old
        (columns indices.old decodings.old matches.old trefs.old numbers.old)
        result part.new kept.new ends.new
        (columns indices.new decodings.new matches.new trefs.new numbers.new) }
{
    let count = (PACKET_BYTES - progress.part).min(bytes.len());
    let first = feeding::feed_front(
        table,
        &bytes[..count],
        progress,
        room,
        part,
        kept,
        ends,
        indices,
        decodings,
        matches,
        trefs,
        numbers,
    );
    if first.part != 0 {
        return first;
    }
    feeding::feed_rest(
        table,
        &bytes[count..],
        first,
        room,
        part,
        kept,
        ends,
        indices,
        decodings,
        matches,
        trefs,
        numbers,
    )
}

// Before the first piece: nothing is carried. No layer has a last packet then, which is 0 at each of its places.
pub fn start() -> Progress
    ensures { result ≡ starts_with }
{
    Progress {
        part: 0,
        number: 0,
        found: unit_starts::nothing(),
    }
}

// AT THE END: what is found in all pieces. A part of a packet that is left over gives 30.
pub fn at_end(progress: Progress) -> Found
    requires { progress.found.rows < 2 ^ 64 - 1 }
    ensures { result ≡ found_at_end progress }
{
    let found = progress.found;
    if progress.part == 0 {
        return found;
    }
    unit_starts::note(progress.number, Event::Fault(30), found)
}
