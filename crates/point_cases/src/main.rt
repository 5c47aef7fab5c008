// Reads the operation points of a program, and writes operation point descriptors, from bytes and numbers that a person can read, by the functions for C, and prints the whole
// answer for each. What it prints is held to the file 'stdout', whose answers were worked out by hand from the rules.
//
// Standard input, one case a line:
//
//     # any text          a comment that names the case; it is copied to the output, and so is an empty line
//     read BYTES .. | BYTES ..                     the program's descriptor loop, then the elementary-stream loop, with lists that are long enough
//     room A,B,C,D,E,F,G BYTES .. | BYTES ..       the same with lists of so many places, at most 64 each: descriptors, profiles, points, references, layers, streams, summary; each
//                                                  place holds 170 before
//     write ROOM | BYTES .. | NUMBERS .. | BYTES .. | BYTES ..     a descriptor of profiles, points, references and layers, into so many bytes, at most 300, each 0xAA before
//
// Each BYTES, after one blank or more, is HH, a byte as two hexadecimal digits, or HH*N, that byte N times, N in decimal. Each NUMBERS has decimal numbers with a comma between two,
// at most eight, as a point has twelve of them; or it is *N: all the numbers before it, N times in all. A number above 4294967295 counts as that. A part that is not there is empty.
//
// Reading is answered by how many points there are, and a line for each list and each point, or by the refusal; a case `room` by all seven lists to their ends; writing by how many
// bytes there are, or the refusal, and the room to its end. A line of any other form is answered by 'unreadable', and an input of more than 65,535 bytes, which is not read to its
// end, by 'too long'.
#![tactic(auto)]

mod answers;
mod reading;
mod writing;

use cases::{first_part, unreadable};
use std::io::{self, Result, Write};

// What stands before the first mark, and what behind it.
fn parted(mark: u8, text: &[u8]) -> (&[u8], &[u8]) {
    let part = first_part(mark, text);
    (&text[..part.size], &text[part.step..])
}

// The bytes of words, at the start of the room.
fn bytes_in<'a>(words: &[u8], room: &'a mut [u8; 2048]) -> Option<&'a [u8]> {
    let count = cases::read_bytes(words, room)?;
    Some(&room[..count])
}

fn answer_case<W: Write>(out: &mut W, line: &[u8]) -> Result<()> {
    let (kind, words) = parted(b' ', line);
    match kind {
        b"read" => reading::read_case(out, words),
        b"room" => reading::room_case(out, words),
        b"write" => writing::write_case(out, words),
        _ => unreadable(out),
    }
}

fn answer_line<W: Write>(out: &mut W, line: &[u8]) -> Result<()> {
    if cases::is_comment(line) {
        return cases::copy(out, line);
    }
    answer_case(out, line)
}

fn main(rt: HostRuntime) -> Result<()> {
    cases::answer_cases(&mut rt.reader(), &mut io::writer(&rt), answer_line)
}
