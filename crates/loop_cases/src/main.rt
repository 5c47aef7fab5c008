// Reads loops that a person can read, and prints the whole answer of the loop reader for each. What it prints is held to the
// file 'stdout', whose answers were worked out by hand from the rules.
//
// Standard input, one case a line:
//
//     # any text          a comment that names the case; it is copied to the output, and so is an empty line
//     2009 BYTES ..       the loop of these bytes, in the 2009 reading
//     2015 BYTES ..       the same in the 2015 reading
//
// Each BYTES, after one blank or more, is HH, a byte as two hexadecimal digits, or HH*N, that byte N times, N in decimal. Nothing
// after the year is the empty loop. A line of any other form is answered by 'unreadable', and an input of more than
// 65,535 bytes, which is not read to its end, by 'too long'.
#![tactic(auto)]

mod answers;

use cases::unreadable;
use std::io::{self, Result, Write};
use vocabulary::Reading;

// The reading of the year that a case begins with, and the words after it: past the year there is nothing more, or a blank.
fn case_of(line: &[u8]) -> Option<(Reading, &[u8])> {
    let (year, words) = line.split_at_checked(4)?;
    if !words.first().is_none_or(|character| *character == b' ') {
        return None;
    }
    match year {
        b"2009" => Some((Reading::Edition2009, words)),
        b"2015" => Some((Reading::Edition2015, words)),
        _ => None,
    }
}

fn answer_case<W: Write>(out: &mut W, reading: Reading, words: &[u8]) -> Result<()> {
    let mut room = cases::empty_room();
    match cases::read_bytes(words, &mut room) {
        Some(count) => answers::print(out, es_loop::read_loop(reading, &room[..count])),
        None => unreadable(out),
    }
}

fn answer_line<W: Write>(out: &mut W, line: &[u8]) -> Result<()> {
    if cases::is_comment(line) {
        return cases::copy(out, line);
    }
    match case_of(line) {
        Some((reading, words)) => answer_case(out, reading, words),
        None => unreadable(out),
    }
}

fn main(rt: HostRuntime) -> Result<()> {
    cases::answer_cases(&mut rt.reader(), &mut io::writer(&rt), answer_line)
}
