#![tactic(auto)]
// What the programs share that answer cases which a person can read, one a line:
//
//     # any text          a comment that names the case; it is copied to the output, and so is an empty line
//
// Every other line is a case. What its words mean is said by the program; how a line ends, a word, a byte in hexadecimal and a decimal
// number, and how an answer is told, is said here.
ghost use Rattle.std.specs.Prelude.{◌+◌, ◌<◌, min, ◌≡◌, length, take, IfOk};
ghost use Rattle.std.specs.Io.KnownBytes.{Consumes, IsAtEnd};
ghost use Rattle.io.specs.Counts.{IsPrefixLen};
ghost use Rattle.std.specs.Iterator.{YieldsFirstRef, item_count};
ghost use Rattle.cases.specs.Parts.{bytes_before, parts_of};
ghost use Rattle.cases.specs.Left.{parts_left};
ghost use Rattle.cases.specs.Inputs.{ReadInto};
ghost use Rattle.cases.specs.Numbers.{is_comment};

mod bytes;
mod numbers;
mod said;

pub use bytes::{empty_room, read_bytes};
pub use numbers::{Numbers, is_digit, number_or, numbers_of};
pub use said::{copy, say, say_number, too_long, unreadable};
use std::io::{Read, Result, Write};

// The first part of a text, which ends at a mark or with the text: how many bytes it has, and how many stand before the next part. Two
// numbers and not two slices: its clauses and its callers hold them.
#[derive(Clone, Copy)]
pub struct Part {
    pub size: usize,
    pub step: usize,
}

// How many bytes stand before the first `mark`, or all of them where there is none.
fn before(mark: u8, text: &[u8]) -> usize
    ensures value { result ≡ bytes_before mark text.now }
    ensures prefix_len { IsPrefixLen result text.now }
{
    text.iter()
        .position(|byte| *byte == mark)
        .unwrap_or(text.len())
}

pub fn first_part(mark: u8, text: &[u8]) -> Part
    ensures size_value { result.size ≡ bytes_before mark text.now }
    ensures prefix_len { IsPrefixLen result.size text.now }
    ensures step_value { result.step ≡ min (result.size + 1) (length text.now) }
{
    let size = before(mark, text);
    Part {
        size,
        step: (size + 1).min(text.len()),
    }
}

// The parts of a text that are still to come.
#[derive(Clone, Copy)]
pub struct Parts<'a> {
    mark: u8,
    rest: &'a [u8],
}

// The parts of a text, in order.
pub fn split(mark: u8, text: &[u8]) -> Parts<'_>
    ensures { parts_left result ≡ parts_of mark text.now }
{
    Parts { mark, rest: text }
}

pub fn lines(text: &[u8]) -> Parts<'_>
    ensures { parts_left result ≡ parts_of 10 text.now }
{
    split(b'\n', text)
}

pub fn words(line: &[u8]) -> Parts<'_>
    ensures { parts_left result ≡ parts_of 32 line.now }
{
    split(b' ', line)
}

impl<'a> Iterator for Parts<'a> {
    type Item = &'a [u8];

    ghost next_gives = { YieldsFirstRef parts_left };

    ghost remaining = { item_count parts_left };

    fn next(&mut self) -> Option<&'a [u8]> {
        let text = self.rest;
        if text.is_empty() {
            return None;
        }
        let part = first_part(self.mark, text);
        self.rest = &text[part.step..];
        Some(&text[..part.size])
    }
}

// A comment or an empty line.
pub fn is_comment(line: &[u8]) -> bool
    ensures { result ≡ is_comment line.now }
{
    line.first().is_none_or(|character| *character == b'#')
}

// Reads the cases to the start of the buffer, and answers how many bytes they are. An input that fills the buffer, so that there may be more of
// it, is not read to its end: this is told, and there are no cases.
pub fn read_cases<R: Read, W: Write>(
    reader: &mut R,
    out: &mut W,
    buffer: &mut [u8],
) -> Result<usize>
    ensures counted { IfOk result (λ count. IsPrefixLen count buffer.new) }
    ensures cases { IfOk result
        (λ count. 0 < count →
        Consumes (R.remaining reader.old) (R.remaining reader.new) (take count buffer.new)
        × IsAtEnd (R.remaining reader.new)) }
    ensures read { IfOk result
        (λ count. ReadInto (length buffer.new) (R.remaining reader.old) (R.remaining reader.new)) }
{
    let count = console::read_input(reader, buffer)?;
    if count < buffer.len() {
        return Ok(count);
    }
    too_long(out)?;
    Ok(0)
}

// Hands each line of a text to `answer_line`, in order, until one cannot be answered.
fn answer_lines<W: Write, F: FnMut(&mut W, &[u8]) -> Result<()>>(
    out: &mut W,
    text: &[u8],
    mut answer_line: F,
) -> Result<()>
    requires { F.IsAlwaysCallable answer_line }
{
    for line in lines(text) {
        answer_line(out, line)?;
    }
    Ok(())
}

// What a program of cases does: it reads them, and answers each line as `answer_line` does. Where it ends well it has read the whole input, or
// as much as there is room for.
pub fn answer_cases<R: Read, W: Write, F: FnMut(&mut W, &[u8]) -> Result<()>>(
    reader: &mut R,
    out: &mut W,
    answer_line: F,
) -> Result<()>
    requires { F.IsAlwaysCallable answer_line }
    ensures { IfOk result (λ done. ReadInto 65536 (R.remaining reader.old) (R.remaining reader.new)) }
{
    let mut buffer = [0u8; 65536];
    let count = read_cases(reader, out, &mut buffer)?;
    answer_lines(out, &buffer[..count], answer_line)
}
