// What every function for C has: its answer as one number of 64 bits, by which a caller has a count, or a refusal with its place; and readings by their
// year. include/thoquenry.h says it in its own words.
#![tactic(auto)]

ghost use Rattle.std.specs.Prelude.{◌≡◌};
ghost use Rattle.c_answers.specs.Answers.{answer_of, accepted as acceptedOf, refused as refusedOf, not_a_call, asked_for};

use vocabulary::{Reading, Refusal};

fn answer(number: u8, value: usize) -> u64
    ensures { result ≡ answer_of number value }
{
    u64::from(number) + 256 * (value as u64 % 72057594037927936)
}

pub fn accepted(count: usize) -> u64
    ensures { result ≡ acceptedOf count }
{
    answer(0, count)
}

pub fn refused(refusal: Refusal) -> u64
    ensures { result ≡ refusedOf refusal }
{
    answer(vocabulary::number(refusal), vocabulary::place(refusal))
}

pub fn not_a_call() -> u64
    ensures { result ≡ not_a_call }
{
    answer(255, 0)
}

pub fn reading_of(year: u64) -> Option<Reading>
    ensures { result ≡ asked_for year }
{
    match year {
        2009 => Some(Reading::Edition2009),
        2015 => Some(Reading::Edition2015),
        _ => None,
    }
}
