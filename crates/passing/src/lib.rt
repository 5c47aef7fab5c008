// The whole packets of one piece of a recording: they are walked through, the rows of the units that start in them are laid behind those that were laid before,
// and the last packets on the layers' PIDs are kept, so that the bytes may go.
#![tactic(auto)]

ghost use Rattle.std.specs.Prelude.{◌≡◌, ◌+◌, ◌*◌, ◌/◌, ◌^◌, ◌≤◌, ◌<◌, length};
ghost use Rattle.packets.specs.Reading.{packet_bytes};
ghost use Rattle.recording_rows.specs.Columns.{columns, room_in};
ghost use Rattle.passing.specs.Passing.{Held, Passed};

use unit_starts::Found;

// THE PIECE. The first of its packets has a number in the recording, and so much was found before it. Rows are laid as far as there is room for them, and the
// others are passed over; whether there was room is to be seen from the number of rows.
pub fn pass(
    table: &[u8; 8192],
    bytes: &[u8],
    first: usize,
    found: Found,
    room: usize,
    kept: &mut [u8],
    ends: &mut [usize; 64],
    indices: &mut [u8],
    decodings: &mut [u64],
    matches: &mut [u64],
    trefs: &mut [u8],
    numbers: &mut [u64],
) -> Found
    requires { (length bytes.now ≡ packet_bytes * (length bytes.now / packet_bytes)) × (first + length bytes.now < 2 ^ 64) × (found.rows ≤ first)
        × (room ≤ room_in (columns indices.old decodings.old matches.old trefs.old numbers.old)) × Held kept.old ends.old }
    ensures { Passed table.now bytes.now first found room kept.old ends.old
        (columns indices.old decodings.old matches.old trefs.old numbers.old)
        kept.new ends.new
        (columns indices.new decodings.new matches.new trefs.new numbers.new) result }
{
    let after = unit_starts::walk(table, kept, bytes, first, found, ends, &mut numbers[..room]);
    let from = found.rows.min(room);
    let to = after.rows.min(room);
    recording_rows::lay(
        table,
        bytes,
        first,
        &numbers[from..to],
        from,
        indices,
        decodings,
        matches,
        trefs,
    );
    kept_packets::settle(kept, bytes, ends);
    after
}
