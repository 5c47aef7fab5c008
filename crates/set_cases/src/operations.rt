// The operation that a line asks for.
use cases::{first_part, number_or, numbers_of};

#[derive(Clone, Copy)]
pub enum Operation<'a> {
    Empty,
    Loop { year: u64, words: &'a [u8] },
    Add([u16; 80]),
    Remove(u64),
    Target(u64),
    Stored { place: u64, value: u64 },
}

// The number of a word that has no other.
fn only_number(word: &[u8]) -> Option<u64> {
    let numbers = numbers_of(word);
    if numbers.last != 0 {
        return None;
    }
    Some(number_or(numbers, 0, 0))
}

// A year and the bytes of a loop. No year is a 0.
fn loop_of(words: &[u8]) -> Option<Operation<'_>> {
    let year = first_part(b' ', words);
    Some(Operation::Loop {
        year: only_number(&words[..year.size])?,
        words: &words[year.step..],
    })
}

// The numbers of an entry, from its first on. What goes beyond the last is read, and not kept.
fn row_of(words: &[u8]) -> Option<[u16; 80]> {
    let mut row = [0; 80];
    let mut place = 0;
    for word in cases::words(words) {
        if !word.is_empty() {
            let number = only_number(word)?;
            if place < 80 {
                row[place] = u16::try_from(number).unwrap_or(u16::MAX);
                place += 1;
            }
        }
    }
    Some(row)
}

fn index_of(words: &[u8]) -> Option<u64> {
    if words.is_empty() {
        return None;
    }
    only_number(words)
}

// A place and the number that is put there.
fn stored_of(words: &[u8]) -> Option<Operation<'_>> {
    let numbers = numbers_of(words);
    if numbers.last != 1 {
        return None;
    }
    Some(Operation::Stored {
        place: number_or(numbers, 0, 0),
        value: number_or(numbers, 1, 0),
    })
}

// None where the line has no form that is known.
pub fn read(line: &[u8]) -> Option<Operation<'_>> {
    let words = &line[first_part(b' ', line).step..];
    match line.first()? {
        b'e' => Some(Operation::Empty),
        b'l' => loop_of(words),
        b'a' => Some(Operation::Add(row_of(words)?)),
        b'r' => Some(Operation::Remove(index_of(words)?)),
        b't' => Some(Operation::Target(index_of(words)?)),
        b's' => stored_of(words),
        _ => None,
    }
}
