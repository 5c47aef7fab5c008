// A case, gathered word by word.
use super::columns::{Column, extend};
use cases::{Numbers, is_digit, number_or, numbers_of};
use closure::Layers;

// What a word that begins with a letter says of the numbers after it.
#[derive(Clone, Copy)]
enum Heading {
    Layers,
    Target,
    Rows,
    Indices,
    Decodings,
    Matches,
    Places,
}

fn heading_of(letter: u8) -> Option<Heading> {
    match letter {
        b'l' => Some(Heading::Layers),
        b't' => Some(Heading::Target),
        b'r' => Some(Heading::Rows),
        b'i' => Some(Heading::Indices),
        b'd' => Some(Heading::Decodings),
        b'm' => Some(Heading::Matches),
        b'p' => Some(Heading::Places),
        _ => None,
    }
}

// What a line has given so far.
#[derive(Clone, Copy)]
pub struct Case {
    pub layers: Layers,
    pub target: u64,
    pub indices: Column,
    pub decodings: Column,
    pub matches: Column,
    pub number_places: usize,
    pub lag_places: usize,
    pub size_places: usize,
}

// The set of the numbers after the first.
fn embedded_of(numbers: Numbers) -> u64 {
    let mut set = 0;
    for place in 1..8 {
        set = sets::with(set, number_or(numbers, place, 64) as usize);
    }
    set
}

// A value, how many times it stands in the column, and by how much it rises.
fn extend_by(column: &mut Column, numbers: Numbers) {
    extend(
        column,
        number_or(numbers, 0, 0),
        number_or(numbers, 1, 1),
        number_or(numbers, 2, 0),
    );
}

impl Case {
    fn new() -> Case {
        Case {
            layers: Layers {
                present: 0,
                embedded: [0; 64],
            },
            target: 0,
            indices: Column::new(),
            decodings: Column::new(),
            matches: Column::new(),
            number_places: 0,
            lag_places: 0,
            size_places: 0,
        }
    }

    // An index and the indices that it embeds.
    fn add_layer(&mut self, numbers: Numbers) -> Option<()> {
        let index = number_or(numbers, 0, 64) as usize;
        let embedded = self.layers.embedded.get_mut(index)?;
        *embedded = *embedded | embedded_of(numbers);
        self.layers.present = sets::with(self.layers.present, index);
        Some(())
    }

    // A row, how many times it stands in the table, and by how much its times rise.
    fn add_rows(&mut self, numbers: Numbers) -> Option<()> {
        if numbers.last < 2 {
            return None;
        }
        let times = number_or(numbers, 3, 1);
        let step = number_or(numbers, 4, 0);
        extend(&mut self.indices, number_or(numbers, 0, 0), times, 0);
        extend(&mut self.decodings, number_or(numbers, 1, 0), times, step);
        extend(&mut self.matches, number_or(numbers, 2, 0), times, step);
        Some(())
    }

    fn set_places(&mut self, numbers: Numbers) {
        self.number_places = number_or(numbers, 0, 0) as usize;
        self.lag_places = number_or(numbers, 1, 0) as usize;
        self.size_places = number_or(numbers, 2, 0) as usize;
    }

    // The numbers of a word, under the heading before it. Above 7 there is a number too many, or one that is too large.
    fn add(&mut self, heading: Heading, numbers: Numbers) -> Option<()> {
        if 7 < numbers.last {
            return None;
        }
        match heading {
            Heading::Layers => self.add_layer(numbers)?,
            Heading::Target => self.target = number_or(numbers, 0, 0),
            Heading::Rows => self.add_rows(numbers)?,
            Heading::Indices => extend_by(&mut self.indices, numbers),
            Heading::Decodings => extend_by(&mut self.decodings, numbers),
            Heading::Matches => extend_by(&mut self.matches, numbers),
            Heading::Places => self.set_places(numbers),
        }
        Some(())
    }
}

// The case that a line's words give, or none where one of them has no form that is known.
pub fn read(line: &[u8]) -> Option<Case> {
    let mut case = Case::new();
    let mut heading = None;
    for word in cases::words(line) {
        if let Some(character) = word.first() {
            if is_digit(*character) {
                case.add(heading?, numbers_of(word))?;
            } else {
                heading = heading_of(*character);
            }
        }
    }
    Some(case)
}
