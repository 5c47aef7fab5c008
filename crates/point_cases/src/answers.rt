// What is printed: the answers of the two functions for C, and their lists, one a line.
use super::reading::Lists;
use cases::say_number;
use std::fmt::Display;
use std::io::{Result, Write};

fn print_refusal<W: Write>(out: &mut W, answer: u64) -> Result<()> {
    let number = answer % 256;
    let place = answer / 256;
    write!(out, "refused {number} place {place}")
}

fn print_outcome<W: Write>(out: &mut W, answer: u64) -> Result<()> {
    let points = answer / 256;
    if answer % 256 == 0 {
        write!(out, "accepted {points}")?;
    } else {
        print_refusal(out, answer)?;
    }
    out.write_all(b"\n")
}

// The answer of writing, and the buffer to its end, on one line.
pub fn print_written<W: Write>(out: &mut W, answer: u64, buffer: &[u8]) -> Result<()> {
    let bytes = answer / 256;
    if answer % 256 == 0 {
        write!(out, "bytes {bytes}")?;
    } else {
        print_refusal(out, answer)?;
    }
    print_bytes(out, " leaves", buffer)
}

// A list behind a label, in decimal.
fn print_list<W: Write, T: Display>(out: &mut W, label: &str, list: &[T]) -> Result<()> {
    write!(out, "{label}")?;
    for number in list {
        write!(out, " {number}")?;
    }
    out.write_all(b"\n")
}

// Bytes behind a label, in hexadecimal.
fn print_bytes<W: Write>(out: &mut W, label: &str, bytes: &[u8]) -> Result<()> {
    write!(out, "{label}")?;
    for byte in bytes {
        write!(out, " {byte:02x}")?;
    }
    out.write_all(b"\n")
}

// The table's names for the twelve numbers of a point, each with what stands before it and behind it: a number is then two writes, where `write!` with
// the name in it takes four.
static NAMES: [&str; 12] = [
    "  point target_ols ",
    " ES_count ",
    " numEsInOp ",
    " avg_bit_rate_info_flag ",
    " max_bit_rate_info_flag ",
    " constant_frame_rate_info_idc ",
    " applicable_temporal_id ",
    " frame_rate_indicator ",
    " avg_bit_rate ",
    " max_bit_rate ",
    " streams ",
    " closed ",
];

fn print_point<W: Write>(out: &mut W, point: &[u32]) -> Result<()> {
    for (name, value) in NAMES.iter().zip(point) {
        say_number(out, name.as_bytes(), *value)?;
    }
    out.write_all(b"\n")
}

// The first so many of a list.
fn front<T>(list: &[T], count: usize) -> &[T] {
    &list[..list.len().min(count)]
}

// What reading wrote of each list, by the summary: so many descriptors of 2 numbers, profiles of 12 bytes, points of 12 numbers, references, layers and streams.
fn print_lists<W: Write>(out: &mut W, lists: &Lists<'_>) -> Result<()> {
    let [descriptors, profiles, points, references, layers, streams] = *lists.summary else {
        return Ok(());
    };
    print_list(
        out,
        "  descriptors",
        front(lists.descriptors, 2 * descriptors as usize),
    )?;
    print_bytes(
        out,
        "  profiles",
        front(lists.profiles, 12 * profiles as usize),
    )?;
    for point in lists.points.chunks_exact(12).take(points as usize) {
        print_point(out, point)?;
    }
    print_bytes(
        out,
        "  references",
        front(lists.references, references as usize),
    )?;
    print_bytes(out, "  layers", front(lists.layers, layers as usize))?;
    print_list(out, "  streams", front(lists.streams, streams as usize))
}

// The answer of reading, and what it wrote; a refusal writes nothing.
pub fn print_read<W: Write>(out: &mut W, answer: u64, lists: &Lists<'_>) -> Result<()> {
    print_outcome(out, answer)?;
    if answer % 256 == 0 {
        print_lists(out, lists)?;
    }
    Ok(())
}

// The answer of reading, and all seven lists to their ends.
pub fn print_left<W: Write>(out: &mut W, answer: u64, lists: &Lists<'_>) -> Result<()> {
    print_outcome(out, answer)?;
    print_list(out, "  leaves descriptors", lists.descriptors)?;
    print_bytes(out, "  leaves profiles", lists.profiles)?;
    print_list(out, "  leaves points", lists.points)?;
    print_bytes(out, "  leaves references", lists.references)?;
    print_bytes(out, "  leaves layers", lists.layers)?;
    print_list(out, "  leaves streams", lists.streams)?;
    print_list(out, "  leaves summary", lists.summary)
}
