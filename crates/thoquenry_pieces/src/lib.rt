// A recording in pieces for C, and for whatever calls C: a state that is begun with a loop, fed piece after piece of any lengths, and asked. The caller owns the
// state and the columns. include/thoquenry.h documents each function; specs/ has, for each, its answer and what its lists hold afterwards.
#![tactic(auto)]

ghost use Rattle.std.specs.Prelude.{◌≡◌, true, min, ◌≤◌, length};
ghost use Rattle.recording_rows.specs.Columns.{columns};
ghost use Rattle.packet_states.specs.States.{state_bytes, state_numbers, is_state};
ghost use Rattle.thoquenry_pieces.specs.Calls.{state_reply, begun, start_call, FeedCall, room_told, told_by, told_call};

use c_answers::{accepted, not_a_call, refused};
use loop_layers::LayerTable;
use packet_answers::rows_answer;
use packet_states::{STATE_BYTES, STATE_NUMBERS};
use recordings::RecordingFault;
use vocabulary::Reading;

// A state of the layers, with nothing known yet. Counts the layers.
fn begin(table: LayerTable, state: &mut [u8], counts: &mut [u64]) -> u64
    requires { (length state.old ≡ state_bytes) × (length counts.old ≡ state_numbers) }
    ensures { state_reply result state.new counts.new ≡ begun table state.old }
{
    let layers = table.layers;
    let by_pid = recording_imports::pid_table(table);
    buffers::put_whole(state, 0, &by_pid);
    let ends = [0usize; 64];
    packet_states::put_counts(piece_feeding::start(), 0, &ends, counts);
    accepted(sets::size(layers.present))
}

pub fn thq_packets_start(bytes: &[u8], state: &mut [u8], counts: &mut [u64]) -> u64
    ensures { state_reply result state.new counts.new ≡ start_call bytes.now state.old counts.old }
{
    if state.len() != STATE_BYTES {
        return not_a_call();
    }
    if counts.len() != STATE_NUMBERS {
        return not_a_call();
    }
    let read = loop_layers::read_table(Reading::Edition2015, bytes);
    let outcome = read.outcome;
    match outcome {
        Ok(()) => begin(read.table, state, counts),
        Err(refusal) => refused(refusal),
    }
}

// The rows that there is room for.
fn shortest(indices: usize, decodings: usize, matches: usize, trefs: usize, numbers: usize) -> usize
    ensures { result ≡ min indices (min decodings (min matches (min trefs numbers))) }
{
    indices.min(decodings.min(matches.min(trefs.min(numbers))))
}

pub fn thq_packets_feed(
    piece: &[u8],
    state: &mut [u8],
    counts: &mut [u64],
    indices: &mut [u8],
    decodings: &mut [u64],
    matches: &mut [u64],
    trefs: &mut [u8],
    numbers: &mut [u64],
) -> u64
    ensures { FeedCall piece.now state.old counts.old
        (columns indices.old decodings.old matches.old trefs.old numbers.old)
        result state.new counts.new
        (columns indices.new decodings.new matches.new trefs.new numbers.new) }
{
    if !packet_states::may_feed(piece.len(), state, counts) {
        return not_a_call();
    }
    let progress = packet_states::progress_in(counts);
    let no_room = counts[71];
    let mut ends = packet_states::ends_in(counts);
    let table = packet_states::table_in(state);
    let mut part = packet_states::part_in(state);
    let room = shortest(
        indices.len(),
        decodings.len(),
        matches.len(),
        trefs.len(),
        numbers.len(),
    );
    let after = piece_feeding::feed(
        &table,
        piece,
        progress,
        room,
        &mut part,
        &mut state[8380..],
        &mut ends,
        indices,
        decodings,
        matches,
        trefs,
        numbers,
    );
    buffers::put_whole(state, 8192, &part);
    let rows = after.found.rows;
    packet_states::put_counts(
        after,
        packet_states::no_room_after(no_room, room, rows),
        &ends,
        counts,
    );
    accepted(rows)
}

// No room where a row found none, and else room for all.
fn room_told(no_room: u64, rows: usize) -> usize
    ensures { result ≡ room_told no_room rows }
{
    if no_room == 1 {
        return 0;
    }
    rows
}

// What the recording is if it ends here.
pub fn told(state: &[u8], counts: &[u64]) -> Result<usize, RecordingFault>
    requires { is_state state.now counts.now ≡ true }
    ensures { result ≡ told_by counts.now }
{
    let progress = packet_states::progress_in(counts);
    let found = piece_feeding::at_end(progress);
    recordings::answer_of(found, room_told(counts[71], found.rows))
}

pub fn thq_packets_told(state: &[u8], counts: &[u64]) -> u64
    ensures { result ≡ told_call state.now counts.now }
{
    if !packet_states::is_state(state, counts) {
        return not_a_call();
    }
    rows_answer(recording_imports::rows_told(told(state, counts)))
}
