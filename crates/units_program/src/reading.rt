// What is read: the loop, and the recording piece by piece, each from the file of a path, or from standard input where the path is `-` or there is none.
ghost use Rattle.console.specs.Inputs.{Counted};

use crate::{Recording, asking};
use std::io::Read;
use std::{fs, io, str};

// The most reads, so that reading ends: no recording takes 2^60 of them.
const MOST_READS: u64 = 1152921504606846976;

// Whether a path stands for standard input.
fn is_standard(path: &[u8]) -> bool {
    matches!(path, b"" | b"-")
}

// Opens the file of this path.
fn open(rt: &HostRuntime, path: &[u8]) -> io::Result<fs::File> {
    let path = str::from_utf8(path).map_err(|_| io::Error::from(io::ErrorKind::InvalidFilename))?;
    fs::open(rt, path)
}

// Reads the loop: a buffer that it fills has one byte more than any loop, and else the input ends there. Its file is closed again here, so that it is never taken for a standard stream
// that was closed.
pub fn read_loop(rt: &HostRuntime, input: &mut [u8]) -> io::Result<usize>
    ensures { Counted result input.new }
{
    let mut buffer = [0; 4096];
    let path = asking::argument(rt, asking::LOOP, &mut buffer);
    if is_standard(path) {
        return console::read_input(&mut rt.reader(), input);
    }
    console::read_input(&mut open(rt, path)?, input)
}

// Feeds the recording to the state, to its end, and answers whether it has one.
fn read_recording<R: Read>(
    reader: &mut R,
    buffer: &mut [u8],
    recording: &mut Recording<'_>,
) -> io::Result<bool> {
    for _ in 0..MOST_READS {
        let count = reader.read(buffer)?;
        if count == 0 {
            return Ok(true);
        }
        recording.feed(&buffer[..count]);
    }
    Ok(false)
}

// Feeds the recording from where it is.
fn find_recording(
    rt: &HostRuntime,
    buffer: &mut [u8],
    recording: &mut Recording<'_>,
) -> io::Result<bool> {
    let mut word = [0; 4096];
    let path = asking::argument(rt, asking::RECORDING, &mut word);
    if is_standard(path) {
        return read_recording(&mut rt.reader(), buffer, recording);
    }
    read_recording(&mut open(rt, path)?, buffer, recording)
}

// Feeds the recording, and answers whether all of it was read; where it was not, that is told.
pub fn read_whole(rt: &HostRuntime, buffer: &mut [u8], recording: &mut Recording<'_>) -> bool {
    match find_recording(rt, buffer, recording) {
        Ok(true) => true,
        Ok(false) => {
            let _ = eprintln!(rt; "units: standard input does not end");
            false
        }
        Err(error) => {
            let _ = eprintln!(rt; "units: standard input cannot be read: {error}");
            false
        }
    }
}
