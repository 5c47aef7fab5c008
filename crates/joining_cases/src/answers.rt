// What is printed: for an accepted table the closure, the number of units and that of closure rows, for a refusal its number and place,
// and after either the three lists to their ends.
use cases::{say, say_number};
use joining::Units;
use std::fmt::Display;
use std::io::{self, Write};
use vocabulary::Refusal;

// What the lists hold before the call. No row has this number, and no lag is so large.
const NO_NUMBER: u64 = 1000000;

const NO_LAG: i64 = 1000000000000;

pub fn no_numbers() -> [u64; 600] {
    [NO_NUMBER; 600]
}

pub fn no_lags() -> [i64; 600] {
    [NO_LAG; 600]
}

// The members of a set of layer indices.
fn print_set<W: Write>(out: &mut W, set: u64) -> io::Result<()> {
    for index in 0..64 {
        if sets::member(set, index) {
            say_number(out, b" ", index)?;
        }
    }
    Ok(())
}

fn print_units<W: Write>(out: &mut W, closure: u64, units: usize, rows: usize) -> io::Result<()> {
    say(out, b"accepted closure")?;
    print_set(out, closure)?;
    say_number(out, b" units ", units)?;
    say_number(out, b" rows ", rows)
}

fn print_refusal<W: Write>(out: &mut W, refusal: Refusal) -> io::Result<()> {
    say_number(out, b"refused ", vocabulary::number(refusal))?;
    say_number(out, b" place ", vocabulary::place(refusal))
}

pub fn print<W: Write>(out: &mut W, joined: Result<Units, Refusal>) -> io::Result<()> {
    match joined {
        Ok(
            Units {
                closure,
                units,
                rows,
            },
        ) => print_units(out, closure, units, rows)?,
        Err(refusal) => print_refusal(out, refusal)?,
    }
    Ok(())
}

// Values, to the end of their list: a '.' for each place that holds what it held before.
fn print_list<W: Write, N: Display + PartialEq + Copy>(
    out: &mut W,
    list: &[N],
    before: N,
) -> io::Result<()> {
    for value in list {
        if *value == before {
            say(out, b" .")?;
        } else {
            say_number(out, b" ", *value)?;
        }
    }
    Ok(())
}

pub fn print_numbers<W: Write>(out: &mut W, numbers: &[u64]) -> io::Result<()> {
    say(out, b" numbers")?;
    print_list(out, numbers, NO_NUMBER)
}

// The lags beside them, to the end of theirs.
pub fn print_lags<W: Write>(out: &mut W, lags: &[i64]) -> io::Result<()> {
    say(out, b" lags")?;
    print_list(out, lags, NO_LAG)
}

// The sizes of the units, to the end of their list, and of the line.
pub fn print_sizes<W: Write>(out: &mut W, sizes: &[u64]) -> io::Result<()> {
    say(out, b" sizes")?;
    print_list(out, sizes, NO_NUMBER)?;
    say(out, b"\n")
}
