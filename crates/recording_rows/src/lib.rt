// The rows of a recording, out of the packets in which their units start: each header is read once more, and its row is laid into columns that the caller lends.
#![tactic(auto)]

ghost use Rattle.std.specs.Prelude.{[], ◌∷◌, map, ◌≡◌, ◌+◌, ◌≤◌, length};
ghost use Rattle.std.proofs.lemmas.List.Edits.{sets};
ghost use Rattle.syntax.specs.Filled.{bit_of};
ghost use Rattle.packets.specs.Reading.{packet_bytes};
ghost use Rattle.recording_rows.specs.Columns.{columns, room_in, stored_all, beside, room_beside, stored_beside};
ghost use Rattle.recording_rows.specs.Again.{row_of, row_again, row_from, Inside, Starts};

use packets::PACKET_BYTES;
use pes_reader::Header;
use scanning::Row;
use vocabulary::Refusal;

// The row of a header that was read. A header that is refused has no times.
fn row_of(layer: u8, packet: usize, answer: Result<Header, Refusal>) -> Row
    ensures { result ≡ row_of layer packet answer }
{
    match answer {
        Ok(header) => Row {
            layer,
            decoding: header.times.decoding,
            matching: header.times.matching,
            tref_sent: header.tref_sent,
            packet,
        },
        Err(_) => Row {
            layer,
            decoding: 0,
            matching: 0,
            tref_sent: false,
            packet,
        },
    }
}

// The row of the unit that starts in a packet.
fn row_again(table: &[u8; 8192], packet: &[u8], number: usize) -> Row
    requires { length packet.now ≡ packet_bytes }
    ensures { result ≡ row_again table.now number packet.now }
{
    let layer = table[scanning::pid_of(packet[1], packet[2])];
    let at = packets::payload_at(packets::fields(packet));
    if PACKET_BYTES < at {
        return row_of(layer, number, pes_reader::read(&packet[PACKET_BYTES..]));
    }
    row_of(layer, number, pes_reader::read(&packet[at..]))
}

// The same by the number of the packet, where the first packet of the bytes has a number too.
fn row_from(table: &[u8; 8192], bytes: &[u8], first: usize, number: usize) -> Row
    requires { Inside bytes.now first number }
    ensures { result ≡ row_from table.now bytes.now first number }
{
    let from = PACKET_BYTES * (number - first);
    row_again(table, &bytes[from..from + PACKET_BYTES], number)
}

// One row, at a place of each column.
fn put_row(
    row: Row,
    at: usize,
    indices: &mut [u8],
    decodings: &mut [u64],
    matches: &mut [u64],
    trefs: &mut [u8],
)
    requires { at + 1 ≤ room_beside (beside indices.old decodings.old matches.old trefs.old) }
    ensures { beside indices.new decodings.new matches.new trefs.new
        ≡ stored_beside at (row ∷ []) (beside indices.old decodings.old matches.old trefs.old) }
{
    indices[at] = row.layer;
    decodings[at] = row.decoding;
    matches[at] = row.matching;
    trefs[at] = u8::from(row.tref_sent);
}

// The rows of the units that start in these packets, from a place of the columns on.
pub fn lay(
    table: &[u8; 8192],
    bytes: &[u8],
    first: usize,
    starts: &[u64],
    place: usize,
    indices: &mut [u8],
    decodings: &mut [u64],
    matches: &mut [u64],
    trefs: &mut [u8],
)
    requires { (place + length starts.now ≤ room_beside (beside indices.old decodings.old matches.old trefs.old)) × Starts bytes.now first starts.now }
    ensures { beside indices.new decodings.new matches.new trefs.new
        ≡ stored_beside place (map (row_from table.now bytes.now first) starts.now)
        (beside indices.old decodings.old matches.old trefs.old) }
{
    for (i, start) in starts.iter().enumerate() {
        let row = row_from(table, bytes, first, *start as usize);
        put_row(row, place + i, indices, decodings, matches, trefs);
    }
}

// The numbers of the packets, over the front of their column.
fn put_numbers(starts: &[u64], numbers: &mut [u64])
    requires { length starts.now ≤ length numbers.old }
    ensures { numbers.new ≡ sets numbers.old 0 starts.now }
{
    one_by_one::put_whole(numbers, 0, starts);
}

// All columns: the rows of the units that start in these packets, from the front on.
pub fn lay_all(
    table: &[u8; 8192],
    bytes: &[u8],
    starts: &[u64],
    indices: &mut [u8],
    decodings: &mut [u64],
    matches: &mut [u64],
    trefs: &mut [u8],
    numbers: &mut [u64],
)
    requires { (length starts.now ≤ room_in (columns indices.old decodings.old matches.old trefs.old numbers.old)) × Starts bytes.now 0 starts.now }
    ensures { columns indices.new decodings.new matches.new trefs.new numbers.new
        ≡ stored_all (map (row_from table.now bytes.now 0) starts.now) starts.now
        (columns indices.old decodings.old matches.old trefs.old numbers.old) }
{
    put_numbers(starts, numbers);
    lay(
        table, bytes, 0, starts, 0, indices, decodings, matches, trefs,
    );
}
