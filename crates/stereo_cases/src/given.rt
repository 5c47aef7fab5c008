// A loop to be written, gathered word by word: the room, the descriptor of layer 0, that of layer 1, and the entries, as the numbers that the function for C
// takes. Each word has decimal numbers, at most eight.
ghost use Rattle.std.specs.Prelude.{◌≤◌};

use cases::{Numbers, number_or, numbers_of, words};

// The numbers of an entry, and those of one entry more than a loop can have.
const ROW: usize = 80;

const MOST: usize = 202;

const ROWS: usize = 16160;

// A number as a field holds it: one above the greatest counts as that.
fn narrow(value: u64) -> u16 {
    u16::try_from(value).unwrap_or(u16::MAX)
}

// A number of a word, 0 where it ends before.
fn field(numbers: Numbers, place: usize) -> u16 {
    narrow(number_or(numbers, place, 0))
}

// The entry of a stream that is no layer.
fn other(stream_type: u64, pid: u64) -> [u16; ROW] {
    let mut row = [0; ROW];
    row[0] = narrow(stream_type);
    row[1] = narrow(pid);
    row
}

// The entry of a layer: its record, and of a hierarchy descriptor its type, index, embedded index and channel, and its flags as one number, 15 where the word ends
// before it.
fn layer(numbers: Numbers) -> [u16; ROW] {
    let flags = number_or(numbers, 7, 15);
    let mut row = other(number_or(numbers, 0, 0), number_or(numbers, 1, 0));
    row[2] = field(numbers, 2);
    row[3] = narrow(flags / 8 % 2);
    row[4] = narrow(flags / 4 % 2);
    row[5] = narrow(flags / 2 % 2);
    row[6] = narrow(flags % 2);
    row[7] = field(numbers, 3);
    row[8] = field(numbers, 4);
    row[10] = field(numbers, 5);
    row[11] = field(numbers, 6);
    row
}

// The eight fields of a descriptor.
fn extension(numbers: Numbers) -> [u16; 8] {
    std::array::from_fn(|place| field(numbers, place))
}

// The entries so far, those past the most that are kept left out.
#[derive(Clone, Copy)]
pub struct Entries {
    count: usize,
    rows: [u16; ROWS],
    ghost within: { count ≤ 202 },
}

impl Entries {
    fn none() -> Entries {
        Entries {
            count: 0,
            rows: [0; ROWS],
        }
    }

    fn push(&mut self, row: &[u16; ROW]) {
        if self.count < MOST {
            let at = self.count * ROW;
            self.rows[at..at + ROW].copy_from_slice(row);
            self.count += 1;
        }
    }

    // The third number of a word says what its entry has. Where that is no record, the fourth says how many such entries there are, with rising PIDs.
    fn push_all(&mut self, numbers: Numbers) {
        if number_or(numbers, 2, 0) != 0 {
            return self.push(&layer(numbers));
        }
        let pid = number_or(numbers, 1, 0);
        for more in 0..number_or(numbers, 3, 1) {
            self.push(&other(number_or(numbers, 0, 0), pid.wrapping_add(more)));
        }
    }

    // The numbers of all entries.
    pub fn numbers(&self) -> &[u16] {
        &self.rows[..self.count * ROW]
    }
}

// What a line has given so far: `words` counts the first three of its words.
#[derive(Clone, Copy)]
pub struct Given {
    words: usize,
    pub room: u64,
    pub extensions: [u16; 16],
    pub entries: Entries,
}

impl Given {
    fn nothing() -> Given {
        Given {
            words: 0,
            room: 0,
            extensions: [0; 16],
            entries: Entries::none(),
        }
    }

    fn take(&mut self, numbers: Numbers) {
        match self.words {
            0 => self.room = number_or(numbers, 0, 0),
            1 => self.extensions[..8].copy_from_slice(&extension(numbers)),
            2 => self.extensions[8..].copy_from_slice(&extension(numbers)),
            _ => self.entries.push_all(numbers),
        }
        if self.words < 3 {
            self.words += 1;
        }
    }
}

// What all words give: the room and two descriptors at least, each word with numbers that can be read.
pub fn read(line: &[u8]) -> Option<Given> {
    let mut given = Given::nothing();
    for word in words(line) {
        if !word.is_empty() {
            let numbers = numbers_of(word);
            if 7 < numbers.last {
                return None;
            }
            given.take(numbers);
        }
    }
    if given.words < 3 {
        return None;
    }
    Some(given)
}
