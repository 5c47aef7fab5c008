// Reads the elementary-stream loop of a program map section on standard input and writes its stereo set to standard output: the two layers with their PIDs, their ranges of
// view order index and their rates, or the refusal. What goes wrong at the edge is told on standard error: an argument, of which it takes none, an input that cannot be
// read, an output that cannot be written whole. The program itself ends with 0 in any case: the command `stereo` beside the crates gives a status that tells more.
#![tactic(auto)]

use std::env::{Env, FillError};
use std::io;
use std::io::Write;

// Whether there is a word, however long.
fn has_argument(rt: &HostRuntime) -> bool {
    let mut word = [0u8; 4];
    match rt.arg(1, &mut word) {
        Err(FillError::NotPresent) => false,
        _ => true,
    }
}

// A recording handed over where a loop was expected is refused as a loop, for some number that says little.
fn hint(rt: &HostRuntime, bytes: &[u8]) {
    if console::looks_like_packets(bytes) {
        let _ = eprintln!(rt; "stereo: this looks like a transport stream, not a loop");
    }
}

// Writes the text for a loop of these bytes.
fn answer(rt: &HostRuntime, bytes: &[u8]) {
    // No loop's text is longer than 333 bytes (`text_length` of the crate `stereo_lines`), so the buffer holds all of it (`whole_text`).
    let mut text = [0u8; 333];
    let end = stereo_lines::put_stereo(&mut text, 0, bytes);
    let written = io::writer(rt).write_all(&text[..end]);
    if let Err(error) = written {
        let _ = eprintln!(rt; "stereo: standard output was not written whole: {error}");
    }
    // 'refused', and not 'accepted'
    if text[0] == b'r' {
        hint(rt, bytes);
    }
}

fn show(rt: &HostRuntime) {
    // A loop has at most 1,008 bytes, so one byte more is enough to know that it is too long.
    let mut input = [0u8; 1009];
    let read = console::read_input(&mut rt.reader(), &mut input);
    match read {
        Ok(count) => answer(rt, &input[..count]),
        Err(error) => {
            let _ = eprintln!(rt; "stereo: standard input cannot be read: {error}");
        }
    }
}

fn main(rt: HostRuntime) {
    if has_argument(&rt) {
        let _ = eprintln!(rt; "stereo: it takes no argument");
        return;
    }
    show(&rt);
}
