// Cases of writing: the room, the bytes of the profiles, the numbers of the points, the bytes of the references and of the layers, with a bar between two.
ghost use Rattle.std.specs.Prelude.{◌≤◌, IfSome};

use super::{answers, bytes_in, parted};
use cases::{Numbers, number_or, numbers_of, unreadable};
use std::io::{Result, Write};

// The most numbers of a case: one point more than a descriptor can have, and one more.
const MOST: usize = 3084;

// The numbers of a word behind the first `count`. Answers how many there are then, where the word has no more than eight and they find room.
fn put_numbers(list: &mut [u32; MOST], count: usize, numbers: Numbers) -> Option<usize>
    requires { count ≤ 3084 }
    ensures { IfSome result (λ end. end ≤ 3084) }
{
    if 7 < numbers.last {
        return None;
    }
    let end = count + numbers.last + 1;
    if MOST < end {
        return None;
    }
    for (place, slot) in list[count..end].iter_mut().enumerate() {
        *slot = u32::try_from(number_or(numbers, place, 0)).unwrap_or(u32::MAX);
    }
    Some(end)
}

// All numbers so far, so many times in all.
fn repeat(list: &mut [u32; MOST], count: usize, times: u64) -> Option<usize>
    requires { count ≤ 3084 }
    ensures { IfSome result (λ end. end ≤ 3084) }
{
    if 3084 < times {
        return None;
    }
    let end = count * times as usize;
    if MOST < end {
        return None;
    }
    // By place: chunks would need a case of their own for no numbers.
    for at in count..end {
        list[at] = list[at - count];
    }
    Some(end)
}

// One word more. Numbers that were none, or too many, are so whatever follows, until a word says that there are none at all.
fn put_word(list: &mut [u32; MOST], count: Option<usize>, word: &[u8]) -> Option<usize>
    requires { IfSome count (λ end. end ≤ 3084) }
    ensures { IfSome result (λ end. end ≤ 3084) }
{
    match word {
        [] => count,
        [b'*', times @ ..] => match number_or(numbers_of(times), 0, 0) {
            0 => Some(0),
            times => repeat(list, count?, times),
        },
        _ => put_numbers(list, count?, numbers_of(word)),
    }
}

// The numbers of all words, at the start of the list.
fn numbers_in<'a>(words: &[u8], list: &'a mut [u32; MOST]) -> Option<&'a [u32]> {
    let mut count = Some(0);
    for word in cases::words(words) {
        count = put_word(list, count, word);
    }
    Some(&list[..count?])
}

// The room is a word of one number.
fn room_in(word: &[u8]) -> Option<usize>
    ensures { IfSome result (λ room. room ≤ 300) }
{
    let numbers = numbers_of(word);
    let room = number_or(numbers, 0, 0);
    if numbers.last != 0 || 300 < room {
        return None;
    }
    Some(room as usize)
}

// What is to be written, and into how many bytes.
#[derive(Clone, Copy)]
struct Given<'a> {
    room: usize,
    profiles: &'a [u8],
    points: &'a [u32],
    references: &'a [u8],
    layers: &'a [u8],
    ghost within: { room ≤ 300 },
}

// Room for the parts of a case.
#[derive(Clone, Copy)]
struct Rooms {
    profiles: [u8; 2048],
    points: [u32; MOST],
    references: [u8; 2048],
    layers: [u8; 2048],
}

fn given_in<'a>(words: &[u8], rooms: &'a mut Rooms) -> Option<Given<'a>> {
    let (word, _) = parted(b' ', words);
    let (_, parts) = parted(b'|', words);
    let (profiles, parts) = parted(b'|', parts);
    let (points, parts) = parted(b'|', parts);
    let (references, layers) = parted(b'|', parts);
    Some(Given {
        room: room_in(word)?,
        profiles: bytes_in(profiles, &mut rooms.profiles)?,
        points: numbers_in(points, &mut rooms.points)?,
        references: bytes_in(references, &mut rooms.references)?,
        layers: bytes_in(layers, &mut rooms.layers)?,
    })
}

// Each byte of the room holds 0xAA before.
fn answer_written<W: Write>(out: &mut W, given: Given<'_>) -> Result<()> {
    let mut buffer = [0xAA; 300];
    let buffer = &mut buffer[..given.room];
    let answer = thoquenry_points_written::thq_write_points(
        given.profiles,
        given.points,
        given.references,
        given.layers,
        buffer,
    );
    answers::print_written(out, answer, buffer)
}

pub fn write_case<W: Write>(out: &mut W, words: &[u8]) -> Result<()> {
    let mut rooms = Rooms {
        profiles: cases::empty_room(),
        points: [0; MOST],
        references: cases::empty_room(),
        layers: cases::empty_room(),
    };
    match given_in(words, &mut rooms) {
        Some(given) => answer_written(out, given),
        None => unreadable(out),
    }
}
