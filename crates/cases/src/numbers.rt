// Decimal numbers out of a word, at most eight, each parted from the next by one character that is no digit.
ghost use Rattle.std.specs.Prelude.{◌≡◌, ◌≤◌};
ghost use Rattle.cases.specs.Numbers.{is_digit, digit_of, with_character, numbers_of, number_or};

// The numbers of a word: `last` is the place of the last one in the list. A `last` above 7 is of a word that has more than eight
// numbers, or one that is too large. No Option: the definition `numbers_of` and the edit `ninth_number_kept` hold the two fields.
#[derive(Clone, Copy)]
pub struct Numbers {
    pub last: usize,
    pub list: [u64; 8],
}

pub fn is_digit(character: u8) -> bool
    ensures { result ≡ is_digit character }
{
    character.is_ascii_digit()
}

// The numbers with one more digit in the last, or with one more number where the character is no digit.
fn with_character(numbers: Numbers, character: u8) -> Numbers
    ensures { result ≡ with_character numbers character }
{
    let last = numbers.last;
    let mut list = numbers.list;
    if 7 < last {
        return Numbers { last: 8, list };
    }
    let Some(digit) = (character as char).to_digit(10) else {
        return Numbers {
            last: last + 1,
            list,
        };
    };
    let value = list[last];
    if 1844674407370955160 < value {
        return Numbers { last: 8, list };
    }
    list[last] = value * 10 + u64::from(digit);
    Numbers { last, list }
}

pub fn numbers_of(word: &[u8]) -> Numbers
    ensures { result ≡ numbers_of word.now }
{
    let mut numbers = Numbers {
        last: 0,
        list: [0; 8],
    };
    for character in word {
        numbers = with_character(numbers, *character);
    }
    numbers
}

// The number at a place, or another where the word ends before it.
pub fn number_or(numbers: Numbers, place: usize, other: u64) -> u64
    ensures { result ≡ number_or numbers place other }
{
    if numbers.last < place {
        return other;
    }
    numbers.list.get(place).copied().unwrap_or(other)
}
