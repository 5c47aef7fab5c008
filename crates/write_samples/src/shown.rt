// What is printed of a loop: its name, and its bytes in hexadecimal, or its refusal.

use std::io::{self, Write};
use vocabulary::Refusal;

fn show_bytes<W: Write>(out: &mut W, bytes: &[u8]) -> io::Result<()> {
    for byte in bytes {
        write!(out, " {byte:02X}")?;
    }
    Ok(())
}

fn show_refusal<W: Write>(out: &mut W, refusal: Refusal) -> io::Result<()> {
    let number = vocabulary::number(refusal);
    let place = vocabulary::place(refusal);
    write!(out, " refused {number} entry {place}")
}

pub fn show<W: Write>(
    out: &mut W,
    name: &[u8],
    written: Result<usize, Refusal>,
    buffer: &[u8],
) -> io::Result<()> {
    out.write_all(name)?;
    match written {
        Ok(count) => {
            if count <= buffer.len() {
                show_bytes(out, &buffer[..count])?;
            }
        }
        Err(refusal) => show_refusal(out, refusal)?,
    }
    out.write_all(b"\n")
}
