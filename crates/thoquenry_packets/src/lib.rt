// The rows of a recording for C, and for whatever calls C, in one call. include/thoquenry.h documents it; specs/Calls.antt has one definition of its answer and of what its
// columns hold afterwards. The loop is read by the 2015 reading. The call takes the steps of `recording_imports::read_rows` itself: what a step promises is of values at hand.
#![tactic(auto)]

ghost use Rattle.std.specs.Prelude.{◌≡◌, length};
ghost use Rattle.recording_rows.specs.Columns.{columns};
ghost use Rattle.thoquenry_packets.specs.Calls.{rows_call};

use packet_answers::rows_answer;
use recording_imports::{pid_table, read_for};
use vocabulary::Reading;

pub fn thq_packets_rows(
    bytes: &[u8],
    packets: &[u8],
    starts: &mut [u64],
    indices: &mut [u8],
    decodings: &mut [u64],
    matches: &mut [u64],
    trefs: &mut [u8],
    numbers: &mut [u64],
) -> u64
    ensures answer { result ≡ (rows_call bytes.now packets.now (length starts.old) (columns indices.old decodings.old matches.old trefs.old numbers.old)).answer }
    ensures content { columns indices.new decodings.new matches.new trefs.new numbers.new ≡ (rows_call bytes.now packets.now (length starts.old) (columns indices.old decodings.old matches.old trefs.old numbers.old)).after }
{
    let read = loop_layers::read_table(Reading::Edition2015, bytes);
    let outcome = read.outcome;
    let table = pid_table(read.table);
    rows_answer(read_for(
        outcome, &table, packets, starts, indices, decodings, matches, trefs, numbers,
    ))
}
