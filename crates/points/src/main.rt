// Reads the program's own descriptor loop of a program map section from the file of the path that its first argument is and the elementary-stream loop from that of its second,
// each on standard input where the path is `-`, as where there is no second; and writes the operation points to standard output, each with its target_ols, its highest temporal
// id, its rates, whether its list of streams is closed, and that list; or the refusal. What goes wrong at the edge is told on standard error: an argument more, an input that
// cannot be read, an output that cannot be written whole. The program itself ends with 0 in any case: the command `points` beside the crates gives a status that tells more, and
// opens, as descriptor 3, what is not on standard input.
#![tactic(auto)]

ghost use Rattle.std.specs.Prelude.{◌<◌, length};
ghost use Rattle.console.specs.Inputs.{Counted};

use std::env::{Env, FillError};
use std::io::Write;
use std::{fs, io, str};

// A recording handed over where a loop was expected is refused as a loop, for some number that says little.
fn hint(rt: &HostRuntime, program: &[u8], bytes: &[u8]) {
    let either = console::looks_like_packets(program) | console::looks_like_packets(bytes);
    if either {
        let _ = eprintln!(rt; "points: this looks like a transport stream, not a loop");
    }
}

// Writes the text for two loops of these bytes, by way of this buffer.
fn write_text(rt: &HostRuntime, text: &mut [u8], program: &[u8], bytes: &[u8])
    requires { 0 < length text.old }
{
    let end = point_listing::put_points(text, 0, program, bytes);
    let written = io::writer(rt).write_all(&text[..end]);
    if let Err(error) = written {
        let _ = eprintln!(rt; "points: standard output was not written whole: {error}");
    }
    // 'refused', and not 'accepted'
    if text[0] == b'r' {
        hint(rt, program, bytes);
    }
}

// Writes the text for two loops of these bytes.
fn answer(rt: &HostRuntime, program: &[u8], bytes: &[u8]) {
    // No two loops' text is longer than 521,166 bytes (`text_length` of the crate `point_listing`), so the buffer holds all of it (`whole_text`).
    let room = vec![in rt.alloc(); 0u8; 521166];
    match room {
        Ok(mut text) => write_text(rt, &mut text, program, bytes),
        Err(error) => {
            let _ = eprintln!(rt; "points: there is no room for the text: {error}");
        }
    }
}

// Reads from the file of this path, or from standard input. The file is closed again here, so that it is never taken for a standard stream that was closed.
fn read_at(rt: &HostRuntime, path: &str, input: &mut [u8]) -> io::Result<usize>
    ensures { Counted result input.new }
{
    if path == "-" {
        return console::read_input(&mut rt.reader(), input);
    }
    let mut file = fs::open(rt, path)?;
    console::read_input(&mut file, input)
}

// Reads from where the argument of this number says, or from standard input where there is none.
fn read_argument(rt: &HostRuntime, argument: usize, input: &mut [u8]) -> io::Result<usize>
    ensures { Counted result input.new }
{
    let mut word = [0u8; 4096];
    match rt.arg(argument, &mut word) {
        Err(FillError::NotPresent) => read_at(rt, "-", input),
        Err(FillError::TooLong) => Err(io::Error::from(io::ErrorKind::InvalidFilename)),
        Ok(length) => match str::from_utf8(&word[..length]) {
            Ok(path) => read_at(rt, path, input),
            Err(_) => Err(io::Error::from(io::ErrorKind::InvalidFilename)),
        },
    }
}

// Either loop has at most 1,008 bytes, so one byte more is enough to know that it is too long.
fn list(rt: &HostRuntime, program: &[u8]) {
    let mut input = [0u8; 1009];
    let read = read_argument(rt, 2, &mut input);
    match read {
        Ok(count) => answer(rt, program, &input[..count]),
        Err(error) => {
            let _ = eprintln!(rt; "points: standard input cannot be read: {error}");
        }
    }
}

fn show(rt: &HostRuntime) {
    let mut input = [0u8; 1009];
    let read = read_argument(rt, 1, &mut input);
    match read {
        Ok(count) => list(rt, &input[..count]),
        Err(error) => {
            let _ = eprintln!(rt; "points: descriptor 3 cannot be read: {error}");
        }
    }
}

// Whether there is an argument of this number, however long.
fn has_argument(rt: &HostRuntime, argument: usize) -> bool {
    let mut word = [0u8; 4];
    match rt.arg(argument, &mut word) {
        Err(FillError::NotPresent) => false,
        _ => true,
    }
}

fn main(rt: HostRuntime) {
    if !has_argument(&rt, 1) {
        let _ = eprintln!(rt; "points: no loop is named");
        return;
    }
    if has_argument(&rt, 3) {
        let _ = eprintln!(rt; "points: it takes no argument but the paths of two loops");
        return;
    }
    show(&rt);
}
