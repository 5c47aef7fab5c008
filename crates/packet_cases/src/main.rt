// Reads recordings that a person can read, and prints their rows and their units, by the functions for C: all packets in one call, and in pieces. What it prints is held to the
// file 'stdout', whose answers were worked out by hand from documents 01 and 02 (W-202).
//
// Standard input, one case a line:
//
//     # any text            a comment that names the case; it is copied to the output, and so is an empty line
//     loop BYTES ..         the elementary-stream loop of the cases that follow, to which nothing is answered
//     rows PACKETS          the rows of a recording
//     units T | PACKETS     its units, with the target T
//     cut A,B,.. T | PACKETS        its rows and its units, in pieces of so many bytes, at most eight, and one of what is left
//     room A,B,C,D T | PACKETS      its units, in lists of so many places, at most 64 each: row numbers, lags, sizes, summary; each place holds 170 before
//     places A | PACKETS    its rows, in columns of so many places, at most 64, each holding 170 before
//
// Each BYTES, after one blank or more, is HH, a byte as two hexadecimal digits, or HH*N, that byte N times, N in decimal. PACKETS are the bytes of packets, each ended by a slash and
// filled with FF to 188 bytes; what stands behind the last slash is a part of a packet, as it is. 'times N /' has all packets before it N times.
//
// The rows are answered by 'accepted', how many there are, and a line for each: its number, packet, layer, decoding time, match time, and 1 where a TREF was sent. The units are
// answered by 'accepted', how many rows of the closure there are, the set of its layers and how many units there are, and a line for each unit: its row numbers, then its lags. A
// refusal is answered by its number and place, and 'room' and 'places' by all lists to their ends. Cases 'rows' and 'units' are asked again in pieces of 1 byte (701 where they
// are long), 61, 188 and 1,000: where an answer or a list differs, a line more says so. A line of any other form is answered by 'unreadable', and an input of more than 65,535 bytes, which is not read
// to its end, by 'too long'.
#![tactic(auto)]

ghost use Rattle.std.specs.Prelude.{◌≤◌, length, IfSome};

mod answers;
mod lists;
mod pieces;
mod recording;
mod whole;

use cases::{Numbers, first_part, number_or, numbers_of, unreadable};
use lists::Recording;
use std::io::{self, Result, Write};

// What is asked of a recording: by which call, with which numbers, and for which target.
#[derive(Clone, Copy)]
enum Question {
    Rows,
    Units { target: u64 },
    Cut { lengths: Numbers, target: u64 },
    Room { places: Numbers, target: u64 },
    Places { places: Numbers },
}

fn ask<W: Write>(out: &mut W, question: Question, recording: Recording<'_>) -> Result<()> {
    match question {
        Question::Rows => whole::answer_rows(out, recording),
        Question::Units { target } => whole::answer_units(out, recording, target),
        Question::Cut { lengths, target } => pieces::answer_cut(out, lengths, recording, target),
        Question::Room { places, target } => whole::answer_lists(out, places, recording, target),
        Question::Places { places } => whole::answer_columns(out, places, recording),
    }
}

// What stands before the first mark, and what behind it.
fn parted(mark: u8, text: &[u8]) -> (&[u8], &[u8]) {
    let part = first_part(mark, text);
    (&text[..part.size], &text[part.step..])
}

// The numbers of a word that has one, or eight at most.
fn numbers_in(word: &[u8], most: usize) -> Option<Numbers> {
    let numbers = numbers_of(word);
    if most <= numbers.last {
        return None;
    }
    Some(numbers)
}

// A target in front, and behind a bar the words of the packets.
fn target_in(words: &[u8]) -> Option<(u64, &[u8])> {
    let (word, _) = parted(b' ', words);
    let (_, packets) = parted(b'|', words);
    let numbers = numbers_in(word, 1)?;
    Some((number_or(numbers, 0, 0), packets))
}

// What a case asks, and the words of its packets.
fn question_in(line: &[u8]) -> Option<(Question, &[u8])> {
    let (kind, words) = parted(b' ', line);
    let (first, others) = parted(b' ', words);
    match kind {
        b"rows" => Some((Question::Rows, words)),
        b"units" => {
            let (target, packets) = target_in(words)?;
            Some((Question::Units { target }, packets))
        }
        b"cut" => {
            let lengths = numbers_in(first, 8)?;
            let (target, packets) = target_in(others)?;
            Some((Question::Cut { lengths, target }, packets))
        }
        b"room" => {
            let places = numbers_in(first, 8)?;
            let (target, packets) = target_in(others)?;
            Some((Question::Room { places, target }, packets))
        }
        b"places" => {
            let places = numbers_in(first, 1)?;
            let (_, packets) = parted(b'|', words);
            Some((Question::Places { places }, packets))
        }
        _ => None,
    }
}

// The bytes of the loop that was named last, at the start of the room.
fn streams_in<'a>(named: &[u8], room: &'a mut [u8; 2048]) -> Option<&'a [u8]> {
    let (_, words) = parted(b' ', named);
    let count = cases::read_bytes(words, room)?;
    Some(&room[..count])
}

// The packets of a case, at the start of the room.
fn packets_in<'a>(words: &[u8], room: &'a mut [u8]) -> Option<&'a [u8]> {
    let count = recording::lay_packets(words, room)?;
    Some(&room[..count])
}

// What a case asks, and of which recording.
fn case_in<'a>(
    named: &[u8],
    line: &[u8],
    loop_room: &'a mut [u8; 2048],
    room: &'a mut [u8],
) -> Option<(Question, Recording<'a>)> {
    let streams = streams_in(named, loop_room)?;
    let (question, words) = question_in(line)?;
    let packets = packets_in(words, room)?;
    Some((question, Recording { streams, packets }))
}

fn answer_case<W: Write>(out: &mut W, named: &[u8], line: &[u8], room: &mut [u8]) -> Result<()> {
    let mut loop_room = cases::empty_room();
    match case_in(named, line, &mut loop_room, room) {
        Some((question, recording)) => ask(out, question, recording),
        None => unreadable(out),
    }
}

fn is_loop(line: &[u8]) -> bool {
    let (kind, _) = parted(b' ', line);
    matches!(kind, b"loop")
}

// Answers each line; `named` is the line of the loop that was named last, at first the first line.
fn answer_lines<W: Write>(out: &mut W, text: &[u8], room: &mut [u8]) -> Result<()> {
    let (mut named, _) = parted(b'\n', text);
    for line in cases::lines(text) {
        if cases::is_comment(line) {
            cases::copy(out, line)?;
        } else if is_loop(line) {
            named = line;
        } else {
            answer_case(out, named, line, room)?;
        }
    }
    Ok(())
}

fn main(rt: HostRuntime) -> Result<()> {
    let mut buffer = [0; 65536];
    let mut out = io::writer(&rt);
    let count = cases::read_cases(&mut rt.reader(), &mut out, &mut buffer)?;
    // Room for 600 packets.
    let mut room = [0; 112800];
    answer_lines(&mut out, &buffer[..count], &mut room)
}
