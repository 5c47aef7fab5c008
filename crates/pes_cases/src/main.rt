// Runs PES headers through the reader and times through the writer. Each line of the input is a case: its name, a colon, and the
// bytes of a header in hexadecimal, or PTS, decoding time, match time, 1 or 0 for a TREF or none, and the room of a buffer. The file
// `stdin` has the cases, and `stdout` what every line has to say; both were worked out by hand from Table 2-21 of H.222.0, source 003 and
// documents 01 and 02.
#![tactic(auto)]

use cases::{number_or, numbers_of, say, say_number};
use pes::{Header, Times};
use std::io::{self, Result, Write};
use vocabulary::Refusal;

fn say_refused<W: Write>(out: &mut W, refusal: Refusal) -> Result<()> {
    say_number(out, b"refused ", vocabulary::number(refusal))
}

fn say_times<W: Write>(out: &mut W, times: Times) -> Result<()> {
    say_number(out, b"times ", times.pts)?;
    say_number(out, b" ", times.decoding)?;
    say_number(out, b" ", times.matching)
}

fn say_header<W: Write>(out: &mut W, header: Header) -> Result<()> {
    say_times(out, header.times)?;
    if header.tref_sent {
        say(out, b", TREF")?;
    } else {
        say(out, b", no TREF")?;
    }
    say_number(out, b", ends at ", header.end)
}

fn say_bytes<W: Write>(out: &mut W, bytes: &[u8]) -> Result<()> {
    for byte in bytes {
        write!(out, " {byte:02x}")?;
    }
    Ok(())
}

// A header, and what the reader answers.
fn read<W: Write>(out: &mut W, header: &[u8]) -> Result<()> {
    let answer = pes::read(header);
    match answer {
        Ok(header) => say_header(out, header)?,
        Err(refusal) => say_refused(out, refusal)?,
    }
    Ok(())
}

fn read_case<W: Write>(out: &mut W, words: &[u8]) -> Result<()> {
    let mut room = cases::empty_room();
    match cases::read_bytes(words, &mut room) {
        Some(count) => read(out, &room[..count]),
        None => say(out, b"unreadable"),
    }
}

// Three times, whether a TREF is asked for and a buffer, what the writer answers, and the whole buffer after it.
fn write<W: Write>(out: &mut W, times: Times, with_tref: bool, buffer: &mut [u8]) -> Result<()> {
    let written = pes::write(times, with_tref, buffer);
    match written {
        Ok(n) => say_number(out, b"bytes ", n)?,
        Err(refusal) => say_refused(out, refusal)?,
    }
    say(out, b" leaves")?;
    say_bytes(out, buffer)
}

fn write_case<W: Write>(out: &mut W, words: &[u8]) -> Result<()> {
    let numbers = numbers_of(words);
    let mut buffer = [0xAAu8; 32];
    let size = number_or(numbers, 5, 0);
    if size <= 32 {
        let end = size as usize;
        let times = Times {
            pts: number_or(numbers, 1, 0),
            decoding: number_or(numbers, 2, 0),
            matching: number_or(numbers, 3, 0),
        };
        write(
            out,
            times,
            number_or(numbers, 4, 0) == 1,
            &mut buffer[..end],
        )?;
    }
    Ok(())
}

// A line of the input: its name is repeated, and what stands after the colon is the case. A blank parts the two, and so the numbers of a
// word that starts with it count from 1.
fn answer_line<W: Write>(out: &mut W, line: &[u8]) -> Result<()> {
    let Some(kind) = line.first() else {
        return Ok(());
    };
    let name = cases::first_part(b':', line);
    let case = &line[name.step..];
    say(out, &line[..name.size])?;
    say(out, b": ")?;
    if *kind == b'r' {
        read_case(out, case)?;
    } else {
        write_case(out, case)?;
    }
    say(out, b"\n")
}

fn main(rt: HostRuntime) -> Result<()> {
    cases::answer_cases(&mut rt.reader(), &mut io::writer(&rt), answer_line)
}
