// What the program `units` does, over a state, columns and work space that it is lent: how long a recording it takes is decided by whoever has the room. It reads the loop and the
// recording, in large pieces, from the files of two paths or from standard input, and writes a line for each unit, or for each row, or the refusal, to standard output. What goes wrong at
// the edge is told on standard error. The program itself ends with 0 in any case: the command `units` beside the crates, which opens descriptor 3 for what is not on standard input, and 4
// for what was written, gives a status that tells more.
#![tactic(auto)]

mod asking;
mod reading;

pub use asking::{Question, asked};
use std::str;
use unit_writing::{Answer, Output};

// The columns that rows are read into. (Beside those of `unit_writing`, which are only looked at there: whoever writes rows need not be able to change them.)
#[derive(Drop)]
pub struct Rows<'a> {
    pub indices: &'a mut [u8],
    pub decodings: &'a mut [u64],
    pub matches: &'a mut [u64],
    pub trefs: &'a mut [u8],
    pub packets: &'a mut [u64],
}

impl Rows<'_> {
    fn read(&self) -> unit_writing::Rows<'_> {
        unit_writing::Rows {
            indices: self.indices,
            decodings: self.decodings,
            matches: self.matches,
            trefs: self.trefs,
            packets: self.packets,
        }
    }
}

// The lists that units are joined into: row numbers and lags, and how many of them each unit has.
#[derive(Drop)]
pub struct Units<'a> {
    pub numbers: &'a mut [u64],
    pub lags: &'a mut [i64],
    pub sizes: &'a mut [u64],
}

impl Units<'_> {
    fn joined(&self) -> unit_writing::Units<'_> {
        unit_writing::Units {
            numbers: self.numbers,
            lags: self.lags,
            sizes: self.sizes,
        }
    }
}

// The work space of joining, a place in each list for every row.
#[derive(Drop)]
pub struct Work<'a> {
    pub order: &'a mut [usize],
    pub keys: &'a mut [u64],
    pub kept: &'a mut [usize],
    pub places: &'a mut [usize],
    pub heads: &'a mut [usize],
    pub claimed: &'a mut [bool],
    pub used: &'a mut [bool],
}

// A recording that is read in pieces: its state, as long as the functions for C ask, and its rows, a place in each column for every one.
#[derive(Drop)]
pub struct Recording<'a> {
    pub state: &'a mut [u8],
    pub counts: &'a mut [u64],
    pub rows: Rows<'a>,
}

impl Recording<'_> {
    // Begins under a loop of these bytes.
    fn start(&mut self, bytes: &[u8]) -> u64 {
        thoquenry_pieces::thq_packets_start(bytes, self.state, self.counts)
    }

    fn feed(&mut self, piece: &[u8]) {
        let rows = &mut self.rows;
        thoquenry_pieces::thq_packets_feed(
            piece,
            self.state,
            self.counts,
            rows.indices,
            rows.decodings,
            rows.matches,
            rows.trefs,
            rows.packets,
        );
    }

    // How many rows there are.
    fn held(&self) -> u64 {
        thoquenry_pieces::thq_packets_told(self.state, self.counts) / 256
    }

    // The rows joined, and how many units there are.
    fn join(
        &self,
        bytes: &[u8],
        target: u64,
        work: &mut Work<'_>,
        units: &mut Units<'_>,
    ) -> (u64, u64) {
        let mut summary = [0; 2];
        let joined = thoquenry_units::thq_packets_units(
            bytes,
            target,
            self.state,
            self.counts,
            self.rows.indices,
            self.rows.decodings,
            self.rows.matches,
            work.order,
            work.keys,
            work.kept,
            work.places,
            work.heads,
            work.claimed,
            work.used,
            units.numbers,
            units.lags,
            units.sizes,
            &mut summary,
        );
        (joined, summary[1])
    }
}

// The room in which a recording is read and joined.
#[derive(Drop)]
pub struct Room<'a> {
    pub buffer: &'a mut [u8],
    pub recording: Recording<'a>,
    pub work: Work<'a>,
    pub units: Units<'a>,
}

impl Room<'_> {
    // The recording under a loop of these bytes, from its start to what is written.
    fn run_loop(&mut self, question: Question, bytes: &[u8], output: &mut Output<'_>) {
        let begun = self.recording.start(bytes);
        if begun % 256 != 0 {
            output.write_refusal(begun, bytes);
        } else if reading::read_whole(output.rt, self.buffer, &mut self.recording) {
            let (joined, units) = self
                .recording
                .join(bytes, question.target, &mut self.work, &mut self.units);
            let answer = Answer {
                listed: question.rows,
                more: question.more,
                joined,
                rows: self.recording.held(),
                units,
            };
            output.write_answer(
                answer,
                bytes,
                &self.recording.rows.read(),
                &self.units.joined(),
            );
        }
    }
}

// All of it, for what is asked; what is written goes through the text.
pub fn run<'a>(rt: &'a HostRuntime, question: Question, room: &mut Room<'_>, text: &'a mut [u8]) {
    let mut input = [0; 1009];
    match reading::read_loop(rt, &mut input) {
        Ok(count) => {
            let mut word = [0; 4096];
            let told = asking::argument(rt, asking::TOLD, &mut word);
            let told = str::from_utf8(told).unwrap_or("");
            let mut output = Output { rt, told, text };
            room.run_loop(question, &input[..count], &mut output);
        }
        Err(error) => {
            let _ = eprintln!(rt; "units: descriptor 3 cannot be read: {error}");
        }
    }
}
