// Changes layer sets, by operations that a person can read, and prints the answer to each and the whole set after it. What it prints is held to the
// file 'stdout', whose answers were worked out by hand from document 02.
//
// Standard input, one operation a line, each on the set that the one before it has left; its first letter is enough:
//
//     # any text             a comment that names the case; it is copied to the output, and so is an empty line
//     empty                  the set of no layer
//     loop YEAR BYTES ..     the set of a loop's bytes in the reading of a year; each BYTES is HH or HH*N, as in loop_cases
//     add NUMBER ..          a layer more: the numbers of an entry in decimal, as include/thoquenry.h lays them out. Those that are not given are 0, and one
//                            above 65535 counts as that
//     remove INDEX           a layer less
//     target INDEX           what a layer rests on
//     stored PLACE VALUE     a number that the caller puts where what is stored stands, which none may do
//
// A change is answered by 'accepted' and the number of layers, or by 'refused', its number and place; then comes each layer, with its entry's numbers from
// the record's kind to the last that the record has, its closure, how many indices are in it, and 'absent' where one of them is. A line of any other form
// is answered by 'unreadable', and an input of more than 65,535 bytes, which is not read to its end, by 'too long'.
#![tactic(auto)]

mod answers;
mod operations;

use answers::Set;
use operations::Operation;
use std::io::{self, Result, Write};

// The set of a loop's bytes, in the reading of a year.
fn answer_loop<W: Write>(out: &mut W, year: u64, words: &[u8], set: &mut Set) -> Result<()> {
    let mut room = cases::empty_room();
    let Some(count) = cases::read_bytes(words, &mut room) else {
        return cases::unreadable(out);
    };
    let answer = thoquenry_sets::thq_set_read(
        year,
        &room[..count],
        &mut set.layers,
        &mut set.stored,
    );
    answers::print_change(out, answer, set)
}

fn answer_add<W: Write>(out: &mut W, row: [u16; 80], set: &mut Set) -> Result<()> {
    let answer = thoquenry_sets::thq_set_add(&mut set.layers, &mut set.stored, &row);
    answers::print_change(out, answer, set)
}

fn answer_remove<W: Write>(out: &mut W, index: u64, set: &mut Set) -> Result<()> {
    let answer = thoquenry_sets::thq_set_remove(&mut set.layers, &mut set.stored, index);
    answers::print_change(out, answer, set)
}

fn answer_target<W: Write>(out: &mut W, target: u64, set: &Set) -> Result<()> {
    let mut closure = [0];
    let answer = thoquenry_sets::thq_set_closure(&set.layers, &set.stored, target, &mut closure);
    answers::print_closure(out, answer, closure[0])
}

// A number put by the caller.
fn answer_stored<W: Write>(out: &mut W, place: u64, value: u64, set: &mut Set) -> Result<()> {
    let Some(stored) = set.stored.get_mut(place as usize) else {
        return cases::unreadable(out);
    };
    *stored = value;
    cases::say(out, b"stored\n")?;
    answers::print_set(out, set)
}

fn answer_line<W: Write>(out: &mut W, line: &[u8], set: &mut Set) -> Result<()> {
    if cases::is_comment(line) {
        return cases::copy(out, line);
    }
    match operations::read(line) {
        Some(Operation::Empty) => answer_loop(out, 2015, b"", set),
        Some(Operation::Loop { year, words }) => answer_loop(out, year, words, set),
        Some(Operation::Add(row)) => answer_add(out, row, set),
        Some(Operation::Remove(index)) => answer_remove(out, index, set),
        Some(Operation::Target(index)) => answer_target(out, index, set),
        Some(Operation::Stored { place, value }) => answer_stored(out, place, value, set),
        None => cases::unreadable(out),
    }
}

// Each line is answered on the set that the one before it has left.
fn main(rt: HostRuntime) -> Result<()> {
    let mut set = Set::new();
    cases::answer_cases(&mut rt.reader(), &mut io::writer(&rt), |out, line| {
        answer_line(out, line, &mut set)
    })
}
