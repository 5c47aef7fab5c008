// Cases of reading: the program's descriptor loop, behind a bar the elementary-stream loop, and how long the lists are that are lent.
ghost use Rattle.std.specs.Prelude.{◌≤◌};

use super::{answers, bytes_in, parted};
use cases::{Numbers, number_or, numbers_of, unreadable};
use std::io::{Result, Write};

// The lists that reading is lent.
#[derive(Drop)]
pub struct Lists<'a> {
    pub descriptors: &'a mut [u32],
    pub profiles: &'a mut [u8],
    pub points: &'a mut [u32],
    pub references: &'a mut [u8],
    pub layers: &'a mut [u8],
    pub streams: &'a mut [u8],
    pub summary: &'a mut [u32],
}

// The program's descriptor loop, and the elementary-stream loop.
#[derive(Clone, Copy)]
struct Loops<'a> {
    program: &'a [u8],
    streams: &'a [u8],
}

impl Loops<'_> {
    fn read(self, lists: &mut Lists<'_>) -> u64 {
        thoquenry_points::thq_read_points(
            self.program,
            self.streams,
            lists.descriptors,
            lists.profiles,
            lists.points,
            lists.references,
            lists.layers,
            lists.streams,
            lists.summary,
        )
    }
}

// A loop of 1,008 bytes has at most 336 descriptors and 336 points, each with at most 64 streams.
fn answer_read<W: Write>(out: &mut W, loops: Loops<'_>) -> Result<()> {
    let mut lists = Lists {
        descriptors: &mut [0; 672],
        profiles: &mut [0; 1008],
        points: &mut [0; 4032],
        references: &mut [0; 1008],
        layers: &mut [0; 1008],
        streams: &mut [0; 21504],
        summary: &mut [0; 6],
    };
    let answer = loops.read(&mut lists);
    answers::print_read(out, answer, &lists)
}

// The most places of a list of a case `room`.
const MOST_PLACES: u64 = 64;

// The places of a list.
fn places(rooms: Numbers, list: usize) -> usize
    ensures { result ≤ 64 }
{
    number_or(rooms, list, 0).min(MOST_PLACES) as usize
}

// Each place holds 170 before.
fn answer_room<W: Write>(out: &mut W, loops: Loops<'_>, rooms: Numbers) -> Result<()> {
    let mut lists = Lists {
        descriptors: &mut [170; 64][..places(rooms, 0)],
        profiles: &mut [170; 64][..places(rooms, 1)],
        points: &mut [170; 64][..places(rooms, 2)],
        references: &mut [170; 64][..places(rooms, 3)],
        layers: &mut [170; 64][..places(rooms, 4)],
        streams: &mut [170; 64][..places(rooms, 5)],
        summary: &mut [170; 64][..places(rooms, 6)],
    };
    let answer = loops.read(&mut lists);
    answers::print_left(out, answer, &lists)
}

// The bytes of both loops, each at the start of its room; those of the program's end at a bar.
fn loops_in<'a>(
    words: &[u8],
    program_room: &'a mut [u8; 2048],
    room: &'a mut [u8; 2048],
) -> Option<Loops<'a>> {
    let (program, streams) = parted(b'|', words);
    Some(Loops {
        program: bytes_in(program, program_room)?,
        streams: bytes_in(streams, room)?,
    })
}

// A case of lists that are long enough.
pub fn read_case<W: Write>(out: &mut W, words: &[u8]) -> Result<()> {
    let mut program_room = cases::empty_room();
    let mut room = cases::empty_room();
    match loops_in(words, &mut program_room, &mut room) {
        Some(loops) => answer_read(out, loops),
        None => unreadable(out),
    }
}

// The places of all seven lists, in a word.
fn rooms_in(word: &[u8]) -> Option<Numbers> {
    let rooms = numbers_of(word);
    if rooms.last != 6 || rooms.list.iter().any(|places| *places > MOST_PLACES) {
        return None;
    }
    Some(rooms)
}

// A case whose first word has the places of all seven lists.
pub fn room_case<W: Write>(out: &mut W, words: &[u8]) -> Result<()> {
    let (word, words) = parted(b' ', words);
    let mut program_room = cases::empty_room();
    let mut room = cases::empty_room();
    match (
        rooms_in(word),
        loops_in(words, &mut program_room, &mut room),
    ) {
        (Some(rooms), Some(loops)) => answer_room(out, loops, rooms),
        _ => unreadable(out),
    }
}
