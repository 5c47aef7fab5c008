// Reads loops and writes loops that a person can read, as stereo sets, and prints the whole answer for each. What it prints is held to the file 'stdout',
// whose answers were worked out by hand from the rules.
//
// Standard input, one case a line:
//
//     # any text          a comment that names the case; it is copied to the output, and so is an empty line
//     read BYTES ..       the loop of these bytes is read
//     write ROOM FIRST SECOND ENTRY ..    the loop of these entries is written with the descriptors of layers 0 and 1, into so many bytes, at most 64
//
// Each BYTES, after one blank or more, is HH, a byte as two hexadecimal digits, or HH*N, that byte N times, N in decimal. FIRST and SECOND are the eight fields
// of an MVC extension descriptor in their order, in decimal with a comma between two. An ENTRY is
//
//     TYPE,PID                                             a stream that is no layer,
//     TYPE,PID,0,TIMES                                     so many of them, with rising PIDs,
//     TYPE,PID,1,HIERARCHY_TYPE,INDEX,EMBEDDED,CHANNEL     one with a hierarchy descriptor whose flags are all 1, or, after one comma more, the four as a number,
//     TYPE,PID,3                                           or one with the implied mark.
//
// A value above the greatest of its type counts as that. A line of any other form is answered by 'unreadable', and an input of more than 65,535 bytes, which is
// not read to its end, by 'too long'.
#![tactic(auto)]

ghost use Rattle.std.specs.Prelude.{◌≤◌};

mod answers;
mod given;

use cases::unreadable;
use given::Given;
use std::io::{self, Result, Write};

fn read_case<W: Write>(out: &mut W, words: &[u8]) -> Result<()> {
    let mut room = cases::empty_room();
    match cases::read_bytes(words, &mut room) {
        Some(count) => answers::print_read(out, stereo_set::read_stereo(&room[..count])),
        None => unreadable(out),
    }
}

// Each byte of the room holds 0xAA before.
fn answer_written<W: Write>(out: &mut W, given: &Given, room: usize) -> Result<()>
    requires { room ≤ 64 }
{
    let mut buffer = [0xAA; 64];
    let buffer = &mut buffer[..room];
    let answer = thoquenry_stereo::thq_write_stereo(
        given.entries.numbers(),
        &given.extensions,
        buffer,
    );
    answers::print_written(out, answer, buffer)
}

// A line with more room than there is here is none that can be read.
fn write_case<W: Write>(out: &mut W, words: &[u8]) -> Result<()> {
    match given::read(words) {
        Some(given) if given.room <= 64 => answer_written(out, &given, given.room as usize),
        _ => unreadable(out),
    }
}

fn answer_line<W: Write>(out: &mut W, line: &[u8]) -> Result<()> {
    if cases::is_comment(line) {
        return cases::copy(out, line);
    }
    let size = cases::first_part(b' ', line).size;
    let (kind, words) = line.split_at(size);
    match kind {
        b"read" => read_case(out, words),
        b"write" => write_case(out, words),
        _ => unreadable(out),
    }
}

fn main(rt: HostRuntime) -> Result<()> {
    cases::answer_cases(&mut rt.reader(), &mut io::writer(&rt), answer_line)
}
