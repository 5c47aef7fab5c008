// All packets in one slice: the rows, and the whole import. Whatever is answered here is asked again in pieces, and what differs is told.
ghost use Rattle.std.specs.Prelude.{◌≤◌};

use super::{answers, pieces};
use crate::lists::{Lists, Recording, Rows};
use cases::{Numbers, number_or};
use std::io::{Result, Write};

// The rows, in columns of 512 places.
pub fn answer_rows<W: Write>(out: &mut W, recording: Recording<'_>) -> Result<()> {
    let mut rows = Rows::empty();
    let answer = rows.read(recording);
    answers::print_rows(out, answer, &rows)?;
    pieces::compare_rows(out, recording, answer, &rows)
}

// The most places that a case can ask for.
const MOST_PLACES: u64 = 64;

// The places of a list.
fn places(numbers: Numbers, list: usize) -> usize
    ensures { result ≤ 64 }
{
    number_or(numbers, list, 0).min(MOST_PLACES) as usize
}

// The rows, in columns of so many places, each holding 170 before.
pub fn answer_columns<W: Write>(
    out: &mut W,
    room: Numbers,
    recording: Recording<'_>,
) -> Result<()> {
    let count = places(room, 0);
    let indices = &mut [170; 64][..count];
    let decodings = &mut [170; 64][..count];
    let matches = &mut [170; 64][..count];
    let trefs = &mut [170; 64][..count];
    let numbers = &mut [170; 64][..count];
    let answer = thoquenry_packets::thq_packets_rows(
        recording.streams,
        recording.packets,
        &mut [170; 64],
        indices,
        decodings,
        matches,
        trefs,
        numbers,
    );
    answers::print_answer(out, answer)?;
    answers::print_list(out, "\n  leaves packets", numbers)?;
    answers::print_list(out, " layers", indices)?;
    answers::print_list(out, " decodings", decodings)?;
    answers::print_list(out, " matches", matches)?;
    answers::print_list(out, " trefs", trefs)?;
    out.write_all(b"\n")
}

// The units of at most 512 rows.
pub fn answer_units<W: Write>(out: &mut W, recording: Recording<'_>, target: u64) -> Result<()> {
    let mut lists = Lists::empty();
    let answer = lists.import(recording, target);
    answers::print_units(out, answer, &lists)?;
    pieces::compare_units(out, recording, target, answer, &lists)
}

// The units, in lists of so many places, each holding 170 before.
pub fn answer_lists<W: Write>(
    out: &mut W,
    room: Numbers,
    recording: Recording<'_>,
    target: u64,
) -> Result<()> {
    let numbers = &mut [170; 64][..places(room, 0)];
    let lags = &mut [170; 64][..places(room, 1)];
    let sizes = &mut [170; 64][..places(room, 2)];
    let summary = &mut [170; 64][..places(room, 3)];
    let answer = thoquenry_packet_imports::thq_packets_import(
        recording.streams,
        target,
        recording.packets,
        numbers,
        lags,
        sizes,
        summary,
    );
    answers::print_answer(out, answer)?;
    answers::print_list(out, "\n  leaves numbers", numbers)?;
    answers::print_lags(out, " lags", lags)?;
    answers::print_list(out, " sizes", sizes)?;
    answers::print_list(out, " summary", summary)?;
    out.write_all(b"\n")
}
