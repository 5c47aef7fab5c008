// A recording in pieces: the state and the rows that its pieces leave, what is told at its end, and the units. Each call for C is lent the lists that it needs.
use super::answers;
use crate::lists::{Lists, PLACES, Recording, Rows};
use cases::{Numbers, number_or};
use std::io::{Result, Write};

// How a recording is cut: into pieces of one size, or into pieces of these lengths, at most eight, and one of what is left.
#[derive(Clone, Copy)]
enum Cut {
    Every(usize),
    At(Numbers),
}

// A recording that was read in pieces: what the loop was answered, the state, and the rows.
#[derive(Clone, Copy)]
struct Pieces {
    begun: u64,
    state: [u8; 20412],
    counts: [u64; 72],
    rows: Rows,
}

impl Pieces {
    fn empty() -> Pieces {
        Pieces {
            begun: 0,
            state: [0; 20412],
            counts: [0; 72],
            rows: Rows::empty(),
        }
    }

    // From the start of a recording to its end, or to the loop's refusal. In place, as it has 34 KB, and a case reads its recording four times.
    fn read(&mut self, recording: Recording<'_>, cut: Cut) {
        self.begun = thoquenry_pieces::thq_packets_start(
            recording.streams,
            &mut self.state,
            &mut self.counts,
        );
        if !answers::is_refusal(self.begun) {
            self.feed_all(recording.packets, cut);
        }
    }

    fn feed(&mut self, piece: &[u8]) {
        thoquenry_pieces::thq_packets_feed(
            piece,
            &mut self.state,
            &mut self.counts,
            &mut self.rows.indices,
            &mut self.rows.decodings,
            &mut self.rows.matches,
            &mut self.rows.trefs,
            &mut self.rows.numbers,
        );
    }

    fn feed_all(&mut self, packets: &[u8], cut: Cut) {
        match cut {
            Cut::Every(size) => {
                for piece in packets.chunks(size.max(1)) {
                    self.feed(piece);
                }
            }
            Cut::At(lengths) => self.feed_cuts(packets, lengths),
        }
    }

    fn feed_cuts(&mut self, packets: &[u8], lengths: Numbers) {
        let mut left = packets;
        for place in 0..8 {
            let length = number_or(lengths, place, 0) as usize;
            let (piece, rest) = left.split_at(length.min(left.len()));
            self.feed(piece);
            left = rest;
        }
        self.feed(left);
    }

    // The loop's refusal, or what is told of all pieces.
    fn told(&self) -> u64 {
        if answers::is_refusal(self.begun) {
            return self.begun;
        }
        thoquenry_pieces::thq_packets_told(&self.state, &self.counts)
    }

    // The loop's refusal, or the import of all pieces, into the lists.
    fn units(&self, streams: &[u8], target: u64, lists: &mut Lists) -> u64 {
        if answers::is_refusal(self.begun) {
            return self.begun;
        }
        self.join(streams, target, lists)
    }

    fn join(&self, streams: &[u8], target: u64, lists: &mut Lists) -> u64 {
        let mut order = [0; PLACES];
        let mut keys = [0; PLACES];
        let mut kept = [0; PLACES];
        let mut places = [0; PLACES];
        let mut heads = [0; PLACES];
        let mut claimed = [false; PLACES];
        let mut used = [false; PLACES];
        thoquenry_units::thq_packets_units(
            streams,
            target,
            &self.state,
            &self.counts,
            &self.rows.indices,
            &self.rows.decodings,
            &self.rows.matches,
            &mut order,
            &mut keys,
            &mut kept,
            &mut places,
            &mut heads,
            &mut claimed,
            &mut used,
            &mut lists.numbers,
            &mut lists.lags,
            &mut lists.sizes,
            &mut lists.summary,
        )
    }
}

// One byte, or for a long recording, which would be long in bytes, less than a few packets.
fn smallest(length: usize) -> usize {
    if length < 4096 { 1 } else { 701 }
}

// Reads a recording in pieces of one byte, of less than a packet, of a packet, and of more. `outcome` has the answer for the pieces, and whether all is as for the whole: where it is not,
// that is printed, and held to no answer by hand, so that it fails the case.
fn compare<W: Write, F: Fn(&Pieces) -> (u64, bool)>(
    out: &mut W,
    recording: Recording<'_>,
    outcome: F,
) -> Result<()>
    requires { F.IsAlwaysCallable outcome }
{
    for size in [smallest(recording.packets.len()), 61, 188, 1000] {
        let mut pieces = Pieces::empty();
        pieces.read(recording, Cut::Every(size));
        let (answer, same) = outcome(&pieces);
        if !same {
            write!(out, "differs in pieces of {size} bytes: ")?;
            answers::print_answer(out, answer)?;
            out.write_all(b"\n")?;
        }
    }
    Ok(())
}

// Whether the rows of a recording, and what is told, are the same in pieces.
pub fn compare_rows<W: Write>(
    out: &mut W,
    recording: Recording<'_>,
    answer: u64,
    rows: &Rows,
) -> Result<()> {
    compare(out, recording, |pieces| {
        let told = pieces.told();
        // After a refusal the columns hold rows of the pieces before it.
        let same = answers::is_refusal(answer) || pieces.rows == *rows;
        (told, told == answer && same)
    })
}

// Whether the units of a recording, or the refusal, are the same in pieces.
pub fn compare_units<W: Write>(
    out: &mut W,
    recording: Recording<'_>,
    target: u64,
    answer: u64,
    lists: &Lists,
) -> Result<()> {
    compare(out, recording, |pieces| {
        let mut left = Lists::empty();
        let joined = pieces.units(recording.streams, target, &mut left);
        (joined, joined == answer && left == *lists)
    })
}

// The rows and the units of a recording that is cut into pieces of these lengths.
pub fn answer_cut<W: Write>(
    out: &mut W,
    lengths: Numbers,
    recording: Recording<'_>,
    target: u64,
) -> Result<()> {
    let mut pieces = Pieces::empty();
    pieces.read(recording, Cut::At(lengths));
    answers::print_rows(out, pieces.told(), &pieces.rows)?;
    let mut lists = Lists::empty();
    let answer = pieces.units(recording.streams, target, &mut lists);
    answers::print_units(out, answer, &lists)
}
