// A set of layers as the functions for C lay it out, and what is printed: the answer to an operation, and the whole set after it.
ghost use Rattle.std.specs.Prelude.{◌≤◌, ◌<◌, length};

use cases::{say, say_number};
use std::io::{self, Write};

// The numbers of an entry.
const ROW: usize = 80;

// One entry for each index, and behind each other the three lists that are stored of the layers.
#[derive(Clone, Copy)]
pub struct Set {
    pub layers: [u16; 5120],
    pub stored: [u64; 192],
}

impl Set {
    pub fn new() -> Set {
        Set {
            layers: [0; 5120],
            stored: [0; 192],
        }
    }
}

#[derive(Clone, Copy)]
struct Refused {
    number: u64,
    place: u64,
}

// What an answer's number means: the number of a refusal and above it its place, or a count above a 0.
fn told(answer: u64) -> Result<u64, Refused> {
    match answer % 256 {
        0 => Ok(answer / 256),
        number => Err(Refused {
            number,
            place: answer / 256,
        }),
    }
}

fn print_refusal<W: Write>(out: &mut W, refused: Refused) -> io::Result<()> {
    say_number(out, b"refused ", refused.number)?;
    say_number(out, b" place ", refused.place)?;
    say(out, b"\n")
}

// The answer to a change, and the set after it.
pub fn print_change<W: Write>(out: &mut W, answer: u64, set: &Set) -> io::Result<()> {
    match told(answer) {
        Ok(layers) => {
            say_number(out, b"accepted ", layers)?;
            say(out, b"\n")?;
        }
        Err(refused) => print_refusal(out, refused)?,
    }
    print_set(out, set)
}

// The members of a set of layer indices.
fn print_members<W: Write>(out: &mut W, set: u64) -> io::Result<()> {
    for index in 0..64 {
        if sets::member(set, index) {
            say_number(out, b" ", index)?;
        }
    }
    Ok(())
}

// The answer to a target.
pub fn print_closure<W: Write>(out: &mut W, answer: u64, closure: u64) -> io::Result<()> {
    match told(answer) {
        Ok(_) => {
            say(out, b"closure")?;
            print_members(out, closure)?;
            say(out, b"\n")
        }
        Err(refused) => print_refusal(out, refused),
    }
}

// How many numbers of an entry there are up to the last that its record has.
fn record_end(kind: u16, listed: u16) -> usize
    ensures { (2 ≤ result) × (result ≤ 80) }
{
    match kind {
        1 => 12,
        2 => 16 + usize::from(listed).min(63),
        _ => 3,
    }
}

// A layer: its index, the numbers of its entry, and what is stored of its closure.
fn print_layer<W: Write>(out: &mut W, index: usize, row: &[u16], set: &Set) -> io::Result<()>
    requires { (index < 64) × (80 ≤ length row.now) }
{
    say_number(out, b"  layer ", index)?;
    say_number(out, b" type ", row[0])?;
    say_number(out, b" pid ", row[1])?;
    say(out, b" record")?;
    for number in &row[2..record_end(row[2], row[15])] {
        say_number(out, b" ", *number)?;
    }
    say(out, b" closure")?;
    print_members(out, set.stored[index])?;
    say_number(out, b" size ", set.stored[64 + index])?;
    if set.stored[128 + index] != 0 {
        say(out, b" absent")?;
    }
    say(out, b"\n")
}

// The whole set: its layers, by index. An index whose entry has no record's kind has no layer.
pub fn print_set<W: Write>(out: &mut W, set: &Set) -> io::Result<()> {
    // By index: the layout for C has four lists that are read at it.
    for index in 0..64 {
        let start = index * ROW;
        let end = start + ROW;
        let row = &set.layers[start..end];
        if row[2] != 0 {
            print_layer(out, index, row, set)?;
        }
    }
    Ok(())
}
