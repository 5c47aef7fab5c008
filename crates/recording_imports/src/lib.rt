// From a loop and the packets of a recording to the rows of its layers, and what the whole import of loop, target and packets answers: the rows under a loop,
// what a target asks of it, and the order in which refusals come. The loop is read by the 2015 reading. The crate `long_imports` joins the rows.
#![tactic(auto)]

ghost use Rattle.std.specs.Prelude.{◌≡◌, length};
ghost use Rattle.unit_starts.specs.Finding.{rows_in};
ghost use Rattle.recording_rows.specs.Columns.{columns};
ghost use Rattle.recordings.specs.Reading.{recording_of};
ghost use Rattle.recording_imports.specs.Rows.{pid_table_of, rows_told, rows_for, rows_under, columns_with, columns_under, number_of as numberOfRows, place_of as placeOfRows};
ghost use Rattle.recording_imports.specs.Imports.{outcome_of, outcome_for, asked_of, held_rows, imported_of, number_of, place_of};

use closure::Layers;
use join_answers::Units;
use loop_layers::LayerTable;
use recordings::RecordingFault;
use vocabulary::{Reading, Refusal};

// Why there are no rows or no units: the refusal, of the loop, of the target, of a packet, or 13; or that of a PES header, with the packet in which it stands.
#[derive(Clone, Copy)]
pub enum Unread {
    Refused(Refusal),
    NotRead(Refusal, usize),
}

// A loop that a target was asked of: whether it has all that the target rests on, or the refusal; and the loop's layers.
#[derive(Clone, Copy)]
pub struct LoopAsked {
    pub outcome: Result<(), Refusal>,
    pub table: LayerTable,
}

// The number of a refusal, and 0 where there is none.
pub fn rows_number(rows: Result<usize, Unread>) -> u8
    ensures { result ≡ numberOfRows rows }
{
    match rows {
        Ok(_) => 0,
        Err(Unread::Refused(refusal)) => vocabulary::number(refusal),
        Err(Unread::NotRead(refusal, _)) => vocabulary::number(refusal),
    }
}

// The place of a refusal: for that of a PES header the packet's number.
pub fn rows_place(rows: Result<usize, Unread>) -> usize
    ensures { result ≡ placeOfRows rows }
{
    match rows {
        Ok(_) => 0,
        Err(Unread::Refused(refusal)) => vocabulary::place(refusal),
        Err(Unread::NotRead(_, packet)) => packet,
    }
}

// The same of an import.
pub fn number(imported: Result<Units, Unread>) -> u8
    ensures { result ≡ number_of imported }
{
    match imported {
        Ok(_) => 0,
        Err(Unread::Refused(refusal)) => vocabulary::number(refusal),
        Err(Unread::NotRead(refusal, _)) => vocabulary::number(refusal),
    }
}

pub fn place(imported: Result<Units, Unread>) -> usize
    ensures { result ≡ place_of imported }
{
    match imported {
        Ok(_) => 0,
        Err(Unread::Refused(refusal)) => vocabulary::place(refusal),
        Err(Unread::NotRead(_, packet)) => packet,
    }
}

// What a recording answered, with 13 at place 0.
pub fn rows_told(recording: Result<usize, RecordingFault>) -> Result<usize, Unread>
    ensures { result ≡ rows_told recording }
{
    match recording {
        Ok(count) => Ok(count),
        Err(RecordingFault::Faulty(fault)) => Err(Unread::Refused(fault)),
        Err(RecordingFault::NotRead(refusal, packet)) => Err(Unread::NotRead(refusal, packet)),
        Err(RecordingFault::TooManyRows) => Err(Unread::Refused(Refusal::OutOfRange(0))),
    }
}

// The same after what was found of the loop, whose refusal comes first.
pub fn rows_for(
    outcome: Result<(), Refusal>,
    recording: Result<usize, RecordingFault>,
) -> Result<usize, Unread>
    ensures { result ≡ rows_for outcome recording }
{
    outcome.map_err(Unread::Refused)?;
    rows_told(recording)
}

// 13 where there are more rows than there is room for.
pub fn held_rows(room: usize, rows: Result<usize, Unread>) -> Result<usize, Unread>
    ensures { result ≡ held_rows room rows }
{
    let count = rows?;
    if room < count {
        return Err(Unread::Refused(Refusal::OutOfRange(0)));
    }
    Ok(count)
}

// The answer of joining as that of an import.
pub fn imported_of(joined: Result<Units, Refusal>) -> Result<Units, Unread>
    ensures { result ≡ imported_of joined }
{
    joined.map_err(Unread::Refused)
}

// The layer of each PID.
pub fn pid_table(table: LayerTable) -> [u8; 8192]
    ensures { result ≡ pid_table_of table }
{
    let layers = table.layers;
    let pids = table.pids;
    pid_layers::layers_by_pid(layers.present, &pids)
}

fn outcome_of(closure: Result<u64, Refusal>) -> Result<(), Refusal>
    ensures { result ≡ outcome_of closure }
{
    closure?;
    Ok(())
}

fn outcome_for(outcome: Result<(), Refusal>, layers: Layers, target: u64) -> Result<(), Refusal>
    ensures { result ≡ outcome_for outcome layers target }
{
    outcome?;
    outcome_of(closure::closure_of(layers, target))
}

// THE LOOP AND ITS TARGET: the loop's refusal, or 11, or 12; and the layers of the loop.
pub fn ask(bytes: &[u8], target: u64) -> LoopAsked
    ensures { result ≡ asked_of bytes.now target }
{
    let read = loop_layers::read_table(Reading::Edition2015, bytes);
    let outcome = read.outcome;
    let table = read.table;
    let layers = table.layers;
    LoopAsked {
        outcome: outcome_for(outcome, layers, target),
        table,
    }
}

// THE RECORDING, read where nothing was refused before it. After a refusal every column is as it was.
pub fn read_for(
    outcome: Result<(), Refusal>,
    table: &[u8; 8192],
    packets: &[u8],
    starts: &mut [u64],
    indices: &mut [u8],
    decodings: &mut [u64],
    matches: &mut [u64],
    trefs: &mut [u8],
    numbers: &mut [u64],
) -> Result<usize, Unread>
    ensures answer { result
        ≡ rows_for outcome
        (recording_of table.now packets.now (length starts.old)
        (columns indices.old decodings.old matches.old trefs.old numbers.old)) }
    ensures content { columns indices.new decodings.new matches.new trefs.new numbers.new
        ≡ columns_with (rows_in table.now packets.now) result
        (columns indices.old decodings.old matches.old trefs.old numbers.old) }
{
    outcome.map_err(Unread::Refused)?;
    rows_told(recordings::read_recording(
        table, packets, starts, indices, decodings, matches, trefs, numbers,
    ))
}

// THE ROWS OF A RECORDING UNDER A LOOP: the bytes of both, work space in which the packets are noted in which units start, and the columns, all of any lengths,
// which together say how many rows there may be. It answers how many rows there are, which the columns then hold from place 0 on, or the refusal: the loop's, then 30 to
// 33, 20 to 24 and 13. After a refusal every column is as it was.
pub fn read_rows(
    bytes: &[u8],
    packets: &[u8],
    starts: &mut [u64],
    indices: &mut [u8],
    decodings: &mut [u64],
    matches: &mut [u64],
    trefs: &mut [u8],
    numbers: &mut [u64],
) -> Result<usize, Unread>
    ensures answer { result
        ≡ rows_under bytes.now packets.now (length starts.old)
        (columns indices.old decodings.old matches.old trefs.old numbers.old) }
    ensures content { columns indices.new decodings.new matches.new trefs.new numbers.new
        ≡ columns_under bytes.now packets.now result
        (columns indices.old decodings.old matches.old trefs.old numbers.old) }
{
    let read = loop_layers::read_table(Reading::Edition2015, bytes);
    let outcome = read.outcome;
    let table = pid_table(read.table);
    read_for(
        outcome, &table, packets, starts, indices, decodings, matches, trefs, numbers,
    )
}
