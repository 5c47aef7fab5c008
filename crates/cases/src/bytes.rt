// Bytes out of words, each after one blank or more: HH, a byte as two hexadecimal digits, or HH*N, that byte N times, N in decimal.
ghost use Rattle.std.specs.Prelude.{◌≡◌, ◌≤◌, replicate, IfSome};

use super::words;

// Room for the bytes of a case. What goes beyond it is not kept.
pub fn empty_room() -> [u8; 2048]
    ensures { result ≡ replicate 2048 0 }
{
    [0; 2048]
}

// What one word says: a byte so many times.
#[derive(Clone, Copy)]
struct Run {
    byte: u8,
    times: usize,
}

// The value of a hexadecimal digit. Small letters are none, though `to_digit` takes them.
fn digit(character: u8) -> Option<u8>
    ensures { IfSome result (λ value. value ≤ 15) }
{
    match character {
        b'0'..=b'9' => Some(character - b'0'),
        b'A'..=b'F' => Some(character - b'A' + 10),
        _ => None,
    }
}

fn byte_of(high: u8, low: u8) -> Option<u8> {
    Some(digit(high)? * 16 + digit(low)?)
}

// A number of at most five digits, which `parse` would not hold it to: no digit at all is 0, and a sign is none.
fn times_of(decimal: &[u8]) -> Option<usize> {
    let mut times = 0;
    for character in decimal {
        let value = (*character as char).to_digit(10)?;
        if 9999 < times {
            return None;
        }
        times = times * 10 + value as usize;
    }
    Some(times)
}

// No run where the word has neither form. Between two blanks stands a word of nothing, which is no byte.
fn read_word(word: &[u8]) -> Option<Run> {
    match word {
        [] => Some(Run { byte: 0, times: 0 }),
        [high, low] => Some(Run {
            byte: byte_of(*high, *low)?,
            times: 1,
        }),
        [high, low, b'*', decimal @ ..] => Some(Run {
            byte: byte_of(*high, *low)?,
            times: times_of(decimal)?,
        }),
        _ => None,
    }
}

// Puts a run after the first `from` bytes, and answers how many there are then.
fn put(run: Run, from: usize, room: &mut [u8; 2048]) -> usize
    requires { from ≤ 2048 }
    ensures { result ≤ 2048 }
{
    let end = from + run.times.min(2048 - from);
    room[from..end].fill(run.byte);
    end
}

// Puts the bytes of all words at the start of the room, and answers how many they are, or that a word has not the form that it should.
pub fn read_bytes(text: &[u8], room: &mut [u8; 2048]) -> Option<usize>
    ensures { IfSome result (λ count. count ≤ 2048) }
{
    let mut count = 0;
    for word in words(text) {
        let run = read_word(word)?;
        count = put(run, count, room);
    }
    Some(count)
}
