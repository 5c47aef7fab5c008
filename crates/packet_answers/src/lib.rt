// What the functions for C answer of a recording: the rows, or the units, as one number of 64 bits. A PES header that is refused has the number of its packet as
// its place.
#![tactic(auto)]

ghost use Rattle.std.specs.Prelude.{◌≡◌};
ghost use Rattle.c_answers.specs.Answers.{answer_of};
ghost use Rattle.packet_answers.specs.Answers.{refused_at, rows_answer, imported_answer};

use c_answers::{accepted, refused};
use join_answers::Units;
use recording_imports::Unread;
use vocabulary::Refusal;

// A refusal at the packet in which it stands.
fn refused_at(refusal: Refusal, packet: usize) -> u64
    ensures { result ≡ refused_at refusal packet }
{
    u64::from(vocabulary::number(refusal)) + 256 * (packet as u64 % 72057594037927936)
}

// Counts the rows.
pub fn rows_answer(rows: Result<usize, Unread>) -> u64
    ensures { result ≡ rows_answer rows }
{
    match rows {
        Ok(count) => accepted(count),
        Err(Unread::Refused(refusal)) => refused(refusal),
        Err(Unread::NotRead(refusal, packet)) => refused_at(refusal, packet),
    }
}

// Counts the rows of layers that the target rests on.
pub fn imported_answer(imported: Result<Units, Unread>) -> u64
    ensures { result ≡ imported_answer imported }
{
    match imported {
        Ok(joined) => accepted(joined.rows),
        Err(Unread::Refused(refusal)) => refused(refusal),
        Err(Unread::NotRead(refusal, number)) => refused_at(refusal, number),
    }
}
