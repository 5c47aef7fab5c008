// The rows of a recording of transport packets, straight from its bytes: each unit that starts on a layer's PID is one, laid into columns that the caller lends,
// or the refusal (30 to 33, 20 to 24, 13), with every column as it was. One walk over the packets judges them and notes where units start; the rows are then laid
// from there alone.
#![tactic(auto)]

ghost use Rattle.std.specs.Prelude.{◌≡◌, min, length};
ghost use Rattle.recording_rows.specs.Columns.{columns};
ghost use Rattle.recordings.specs.Reading.{fault_of, header_refusal, answer_of, recording_of, rows_count, columns_after, number_of, place_of};

use unit_starts::Found;
use vocabulary::Refusal;

// Why a recording gives no rows: a packet that is refused, a PES header that is refused with the packet in which it stands, or more rows than the columns hold.
#[derive(Clone, Copy)]
pub enum RecordingFault {
    Faulty(Refusal),
    NotRead(Refusal, usize),
    TooManyRows,
}

// The number of a refusal, and 0 where there is none.
pub fn number(recording: Result<usize, RecordingFault>) -> u8
    ensures { result ≡ number_of recording }
{
    match recording {
        Ok(_) => 0,
        Err(RecordingFault::Faulty(fault)) => vocabulary::number(fault),
        Err(RecordingFault::NotRead(refusal, _)) => vocabulary::number(refusal),
        Err(RecordingFault::TooManyRows) => 13,
    }
}

// The place of a refusal: the packet's number.
pub fn place(recording: Result<usize, RecordingFault>) -> usize
    ensures { result ≡ place_of recording }
{
    match recording {
        Ok(_) | Err(RecordingFault::TooManyRows) => 0,
        Err(RecordingFault::Faulty(fault)) => vocabulary::place(fault),
        Err(RecordingFault::NotRead(_, packet)) => packet,
    }
}

fn fault_of(number: u8, packet: usize) -> Refusal
    ensures { result ≡ fault_of number packet }
{
    match number {
        30 => Refusal::LostSync(packet),
        31 => Refusal::CounterGap(packet),
        32 => Refusal::OutsidePacket(packet),
        _ => Refusal::Scrambled(packet),
    }
}

fn header_refusal(number: u8) -> Refusal
    ensures { result ≡ header_refusal number }
{
    match number {
        20 => Refusal::NotVideoHeader,
        21 => Refusal::NoPts,
        22 => Refusal::FieldsDoNotFit,
        23 => Refusal::WrongMarker,
        _ => Refusal::PtsBeforeDts,
    }
}

// THE ANSWER to what was found, where there is room for so many rows.
pub fn answer_of(found: Found, room: usize) -> Result<usize, RecordingFault>
    ensures { result ≡ answer_of found room }
{
    let fault = found.fault;
    if fault.number < 34 {
        return Err(RecordingFault::Faulty(fault_of(fault.number, fault.packet)));
    }
    let refusal = found.refusal;
    if refusal.number < 25 {
        return Err(RecordingFault::NotRead(header_refusal(refusal.number), refusal.packet));
    }
    if room < found.rows {
        return Err(RecordingFault::TooManyRows);
    }
    Ok(found.rows)
}

// The number of rows, and 0 where there is a refusal.
fn rows_in(recording: Result<usize, RecordingFault>) -> usize
    ensures { result ≡ rows_count recording }
{
    match recording {
        Ok(rows) => rows,
        Err(_) => 0,
    }
}

// The rows that there is room for.
fn room_for(
    starts: usize,
    indices: usize,
    decodings: usize,
    matches: usize,
    trefs: usize,
    numbers: usize,
) -> usize
    ensures { result ≡ min starts (min indices (min decodings (min matches (min trefs numbers)))) }
{
    starts.min(indices.min(decodings.min(matches.min(trefs.min(numbers)))))
}

// THE CALL. For each PID its layer index, or 64 or more where it is no layer's; the bytes of the recording; work space, in which the packets are noted in which
// units start; and the columns. They and the work space may have any lengths, which together say how many rows there may be.
pub fn read_recording(
    table: &[u8; 8192],
    bytes: &[u8],
    starts: &mut [u64],
    indices: &mut [u8],
    decodings: &mut [u64],
    matches: &mut [u64],
    trefs: &mut [u8],
    numbers: &mut [u64],
) -> Result<usize, RecordingFault>
    ensures answer { result
        ≡ recording_of table.now bytes.now (length starts.old)
        (columns indices.old decodings.old matches.old trefs.old numbers.old) }
    ensures content { columns indices.new decodings.new matches.new trefs.new numbers.new
        ≡ columns_after table.now bytes.now result
        (columns indices.old decodings.old matches.old trefs.old numbers.old) }
{
    let found = unit_starts::judge(table, bytes, starts);
    let room = room_for(
        starts.len(),
        indices.len(),
        decodings.len(),
        matches.len(),
        trefs.len(),
        numbers.len(),
    );
    let answer = answer_of(found, room);
    let rows = rows_in(answer);
    recording_rows::lay_all(
        table,
        bytes,
        &starts[..rows],
        indices,
        decodings,
        matches,
        trefs,
        numbers,
    );
    answer
}
