// Reads row tables that a person can read, and prints the whole answer of joining for each. What it prints is held to the file
// 'stdout', whose answers were worked out by hand from documents 01 and 02 (W-204).
//
// Standard input, one case a line:
//
//     # any text          a comment that names the case; it is copied to the output, and so is an empty line
//
// Every other line is a case: words, each after one blank or more. A word that begins with a letter says what the words after it
// give, and its first letter is enough. A word that begins with a digit has decimal numbers, at most eight, each parted from the
// next by one character that is no digit:
//
//     layers 0 1:0 2:0,1                   a layer of the loop by its index, and after it the indices that it embeds
//     target 2                             the target
//     rows 0,9000,9000 1,12000,12600       a row: layer index, decoding time, match time
//     rows 0,100,100*5+10                  five rows, with 100, 110, .. 140 for their times
//     indices 0 1 0*3                      more of the one column alone; 0 three times
//     decodings 9000 100*5+10              the same for the decoding times,
//     matches 9000                         and for the match times
//     places 4,5,4                         room for 4 row numbers, for 5 lags and for 4 sizes; 0 where the line does not say
//
// An index above 255 counts as 255, and what goes beyond 600 rows or places is not kept. The answer to a case is one line:
//
//     accepted closure 0 1 units 2 rows 4 numbers 0 1 2 3 lags 0 0 600 0 . sizes 2 2 . .
//     refused 15 place 3 numbers . . . . lags . . . . . sizes . . . .
//
// The three lists are printed to their ends, a '.' for each place that holds what it held before the call. A line of any other form is
// answered by 'unreadable', and an input of more than 65,535 bytes, which is not read to its end, by 'too long'.
#![tactic(auto)]

mod answers;
mod columns;
mod tables;

use columns::ROOM;
use std::io::{self, Result, Write};
use tables::Case;

// Lends the columns and the lists to the call, and prints what it answers and what it leaves in the lists.
fn answer_case<W: Write>(out: &mut W, case: &Case) -> Result<()> {
    let indices = columns::bytes_of(&case.indices);
    let mut numbers = answers::no_numbers();
    let mut lags = answers::no_lags();
    let mut sizes = answers::no_numbers();
    let numbers = &mut numbers[..case.number_places.min(ROOM)];
    let lags = &mut lags[..case.lag_places.min(ROOM)];
    let sizes = &mut sizes[..case.size_places.min(ROOM)];
    let joined = joining::join(
        case.layers,
        case.target,
        indices.as_slice(),
        case.decodings.as_slice(),
        case.matches.as_slice(),
        numbers,
        lags,
        sizes,
    );
    answers::print(out, joined)?;
    answers::print_numbers(out, numbers)?;
    answers::print_lags(out, lags)?;
    answers::print_sizes(out, sizes)
}

fn answer_line<W: Write>(out: &mut W, line: &[u8]) -> Result<()> {
    if cases::is_comment(line) {
        return cases::copy(out, line);
    }
    match tables::read(line) {
        Some(case) => answer_case(out, &case),
        None => cases::unreadable(out),
    }
}

fn main(rt: HostRuntime) -> Result<()> {
    cases::answer_cases(&mut rt.reader(), &mut io::writer(&rt), answer_line)
}
