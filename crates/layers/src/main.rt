// Reads the elementary-stream loop of a program map section on standard input, under the 2015 reading or the one of the year that its argument
// names, and writes its layers with what each rests on, or the refusal, to standard output. What goes wrong at the edge is told on standard
// error: an argument that is no reading, an input that cannot be read, an output that cannot be written whole. The program itself ends with 0
// in any case: the command `layers` beside the crates gives a status that tells more.
#![tactic(auto)]

ghost use Rattle.layers.specs.Words.{Asks};

use std::env::{Env, FillError};
use std::io;
use std::io::Write;
use vocabulary::Reading;

// The reading that a word asks for.
fn reading_of(word: &[u8]) -> Option<Reading>
    ensures { Asks result word.now }
{
    match word {
        b"2009" => Some(Reading::Edition2009),
        b"2015" => Some(Reading::Edition2015),
        _ => None,
    }
}

// Whether there is a second word, however long.
fn has_second(rt: &HostRuntime) -> bool {
    let mut word = [0u8; 4];
    !matches!(rt.arg(2, &mut word), Err(FillError::NotPresent))
}

// The reading that the arguments ask for. A word that is longer than a year, and a second word, are no reading.
fn reading_asked(rt: &HostRuntime) -> Option<Reading> {
    let mut word = [0u8; 4];
    match rt.arg(1, &mut word) {
        Err(FillError::NotPresent) => Some(Reading::Edition2015),
        Err(FillError::TooLong) => None,
        Ok(_) if has_second(rt) => None,
        Ok(length) => reading_of(&word[..length]),
    }
}

// A recording handed over where a loop was expected is refused as a loop, for some number that says little.
fn hint(rt: &HostRuntime, bytes: &[u8]) {
    if console::looks_like_packets(bytes) {
        let _ = eprintln!(rt; "layers: this looks like a transport stream, not a loop");
    }
}

// Writes the text for a loop of these bytes.
fn answer(rt: &HostRuntime, reading: Reading, bytes: &[u8]) {
    // No loop's text is longer than 93,406 bytes (`loop_length` of the crate `listing`), so the buffer holds all of it (`whole_text`).
    let mut text = [0u8; 93406];
    let end = listing::put_loop(&mut text, 0, reading, bytes);
    let written = io::writer(rt).write_all(&text[..end]);
    if let Err(error) = written {
        let _ = eprintln!(rt; "layers: standard output was not written whole: {error}");
    }
    // 'refused', and not 'accepted'
    if text[0] == b'r' {
        hint(rt, bytes);
    }
}

fn list(rt: &HostRuntime, reading: Reading) {
    // A loop has at most 1,008 bytes, so one byte more is enough to know that it is too long.
    let mut input = [0u8; 1009];
    match console::read_input(&mut rt.reader(), &mut input) {
        Ok(count) => answer(rt, reading, &input[..count]),
        Err(error) => {
            let _ = eprintln!(rt; "layers: standard input cannot be read: {error}");
        }
    }
}

fn main(rt: HostRuntime) {
    match reading_asked(&rt) {
        Some(reading) => list(&rt, reading),
        None => {
            let _ = eprintln!(rt; "layers: the only argument is the reading, 2009 or 2015");
        }
    }
}
