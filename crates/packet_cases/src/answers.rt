// What is printed: an answer, the rows and the units as the program `units` prints them, and lists to their ends.
ghost use Rattle.std.specs.Prelude.{◌<◌, ◌≤◌, length};

use crate::lists::{Lists, PLACES, Rows};
use std::fmt::Display;
use std::io::{Result, Write};

pub fn is_refusal(answer: u64) -> bool {
    answer % 256 != 0
}

// The answer of a call: how much it counts, or the refusal.
pub fn print_answer<W: Write>(out: &mut W, answer: u64) -> Result<()> {
    let number = answer % 256;
    let count = answer / 256;
    if number == 0 {
        write!(out, "accepted {count}")
    } else {
        write!(out, "refused {number} place {count}")
    }
}

// The first `end` bytes of a line.
fn print_line<W: Write>(out: &mut W, line: &[u8], end: usize) -> Result<()>
    requires { end ≤ length line.now }
{
    out.write_all(b"  ")?;
    out.write_all(&line[..end])
}

fn print_row<W: Write>(out: &mut W, rows: &Rows, row: usize) -> Result<()>
    requires { row < 512 }
{
    let mut line = [0; 4096];
    let end = unit_lines::put_row(
        &mut line,
        0,
        row as u64,
        rows.numbers[row],
        rows.indices[row],
        rows.decodings[row],
        rows.matches[row],
        rows.trefs[row],
    );
    print_line(out, &line, end)
}

// The answer of reading rows, and each row on a line.
pub fn print_rows<W: Write>(out: &mut W, answer: u64, rows: &Rows) -> Result<()> {
    print_answer(out, answer)?;
    out.write_all(b"\n")?;
    if is_refusal(answer) {
        return Ok(());
    }
    let count = PLACES.min((answer / 256) as usize);
    for row in 0..count {
        print_row(out, rows, row)?;
    }
    Ok(())
}

fn print_unit<W: Write>(out: &mut W, numbers: &[u64], lags: &[i64]) -> Result<()> {
    let mut line = [0; 4096];
    let end = unit_lines::put_unit(&mut line, 0, numbers, lags);
    print_line(out, &line, end)
}

// The first so many units, each on a line.
fn print_each<W: Write>(out: &mut W, units: u64, lists: &Lists) -> Result<()> {
    let mut at = 0;
    for size in lists.sizes.iter().take(units as usize) {
        let end = at + (*size as usize).min(PLACES - at);
        print_unit(out, &lists.numbers[at..end], &lists.lags[at..end])?;
        at = end;
    }
    Ok(())
}

// The answer of an import, the closure and the number of units out of its summary, and each unit on a line.
pub fn print_units<W: Write>(out: &mut W, answer: u64, lists: &Lists) -> Result<()> {
    print_answer(out, answer)?;
    if is_refusal(answer) {
        return out.write_all(b"\n");
    }
    let [closure, units] = lists.summary;
    write!(out, " closure {closure} units {units}\n")?;
    print_each(out, units, lists)
}

// Lags to their end, behind a label, in one write.
pub fn print_lags<W: Write>(out: &mut W, label: &str, lags: &[i64]) -> Result<()> {
    let mut line = [0; 4096];
    let end = unit_lines::put_lags(&mut line, 0, lags);
    write!(out, "{label}")?;
    out.write_all(&line[..end])
}

// A list to its end, behind a label.
pub fn print_list<W: Write, T: Display>(out: &mut W, label: &str, list: &[T]) -> Result<()> {
    write!(out, "{label}")?;
    for item in list {
        write!(out, " {item}")?;
    }
    Ok(())
}
