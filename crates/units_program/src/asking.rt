// What is asked for, by the words of the command line: the target; the paths of the loop, of the recording and of the file in which the command is told what was written; then 'rows'
// for the rows, and 'more' where a larger program is at hand for more rows than there are places.
use std::env::Env;

// Of the arguments, the target and those that are paths.
const TARGET: usize = 1;

pub const LOOP: usize = 2;

pub const RECORDING: usize = 3;

pub const TOLD: usize = 4;

#[derive(Clone, Copy)]
pub struct Question {
    pub target: u64,
    pub rows: bool,
    pub more: bool,
}

// A decimal number. All numbers above 63 are targets that no loop has, so that a long one is as good as 1,000.
fn number_in(word: &[u8]) -> Option<u64> {
    if word.is_empty() {
        return None;
    }
    let mut number = 0u64;
    for character in word {
        let digit = match character {
            b'0'..=b'9' => u64::from(character - b'0'),
            _ => return None,
        };
        number = number.saturating_mul(10).saturating_add(digit).min(1000);
    }
    Some(number)
}

// The argument of this number, or no byte where there is none or it finds no room.
pub fn argument<'a>(rt: &HostRuntime, number: usize, buffer: &'a mut [u8]) -> &'a [u8] {
    match rt.arg(number, buffer) {
        Ok(count) => &buffer[..count],
        Err(_) => &[],
    }
}

// Whether one of the last two arguments is this word.
fn is_asked(rt: &HostRuntime, word: &[u8]) -> bool {
    let mut buffer = [0; 4096];
    argument(rt, 5, &mut buffer) == word || argument(rt, 6, &mut buffer) == word
}

// What the words ask for; where the first is no number, this is told.
pub fn asked(rt: &HostRuntime) -> Option<Question> {
    let mut buffer = [0; 4096];
    let Some(target) = number_in(argument(rt, TARGET, &mut buffer)) else {
        let _ = eprintln!(rt; "units: the target is a decimal number");
        return None;
    };
    Some(Question {
        target,
        rows: is_asked(rt, b"rows"),
        more: is_asked(rt, b"more"),
    })
}
