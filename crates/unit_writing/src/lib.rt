// What the program `units` writes: units or rows, a line each, through a buffer; or a refusal. Once everything is written it tells the command beside the crates what was, at the end of
// the file of a path that the command gives: 'units', 'rows' or the refusal, or 'more' where there were more rows than places and it was asked to leave that to another run. So nothing
// that was half written is told as whole.
#![tactic(auto)]

ghost use Rattle.std.specs.Prelude.{◌≤◌, length, IfOk};

use std::fs::OpenOptions;
use std::io;
use std::io::Write;

// No line of a unit or of a row is longer: a unit has at most 64 rows (`unit_line_short` of the crate `unit_lines`).
const LONGEST_LINE: usize = 2753;

// The columns of rows.
#[derive(Clone, Copy)]
pub struct Rows<'a> {
    pub indices: &'a [u8],
    pub decodings: &'a [u64],
    pub matches: &'a [u64],
    pub trefs: &'a [u8],
    pub packets: &'a [u64],
}

// The lists of units: row numbers and lags, and how many of them each unit has.
#[derive(Clone, Copy)]
pub struct Units<'a> {
    pub numbers: &'a [u64],
    pub lags: &'a [i64],
    pub sizes: &'a [u64],
}

// Where it is written: to standard output, through a text; and the path of the file in which the command is told what was written, empty where nobody is.
#[derive(Drop)]
pub struct Output<'a> {
    pub rt: &'a HostRuntime,
    pub told: &'a str,
    pub text: &'a mut [u8],
}

// What was answered, and what of it is to be written: rows where they are to be listed, and else units; or nothing yet, where there were more rows than places and `more` is asked for.
#[derive(Clone, Copy)]
pub struct Answer {
    pub listed: bool,
    pub more: bool,
    pub joined: u64,
    pub rows: u64,
    pub units: u64,
}

// What stands at a place of a list, or nothing where it ends before.
fn at<T: Copy + Default>(list: &[T], place: usize) -> T {
    list.get(place).copied().unwrap_or_default()
}

// A recording handed over where a loop was expected is refused as a loop, for some number that says little.
fn hint(rt: &HostRuntime, bytes: &[u8]) {
    if console::looks_like_packets(bytes) {
        let _ = eprintln!(rt; "units: the loop looks like a transport stream");
    }
}

// Writes at the end of the file of this path.
fn append(rt: &HostRuntime, path: &str, what: &[u8]) -> io::Result<()> {
    let mut file = OpenOptions::new().append(true).open(rt, path)?;
    file.write_all(what)
}

// Tells the command what was written, where it was and there is a command to tell.
fn tell(rt: &HostRuntime, told: &str, written: io::Result<()>, what: &[u8]) {
    if let Err(error) = written {
        let _ = eprintln!(rt; "units: standard output was not written whole: {error}");
    } else if !told.is_empty() {
        if let Err(error) = append(rt, told, what) {
            let _ = eprintln!(rt; "units: what was written cannot be told: {error}");
        }
    }
}

impl Output<'_> {
    // Writes the text out.
    fn write_out(&self, end: usize) -> io::Result<()>
        requires { end ≤ length self.now.text.now }
    {
        io::writer(self.rt).write_all(&self.text[..end])
    }

    // Writes the text out where a line more might find no room, and answers where the next one begins.
    fn make_room(&self, end: usize) -> io::Result<usize>
        requires { end ≤ length self.now.text.now }
        ensures { IfOk result (λ next. next ≤ end) }
    {
        if LONGEST_LINE <= self.text.len() - end {
            return Ok(end);
        }
        self.write_out(end)?;
        Ok(0)
    }

    // A line for each of so many units.
    fn write_units(&mut self, count: u64, units: &Units<'_>) -> io::Result<()> {
        let rows = units.numbers.len().min(units.lags.len());
        let mut at = 0;
        let mut end = 0;
        for size in units.sizes.iter().take(count as usize) {
            let next = at + (*size as usize).min(rows - at);
            end = unit_lines::put_unit(
                self.text,
                end,
                &units.numbers[at..next],
                &units.lags[at..next],
            );
            end = self.make_room(end)?;
            at = next;
        }
        self.write_out(end)
    }

    fn put_row(&mut self, end: usize, row: usize, rows: &Rows<'_>) -> usize
        ensures { result ≤ length self.new.text.now }
    {
        unit_lines::put_row(
            self.text,
            end,
            row as u64,
            at(rows.packets, row),
            at(rows.indices, row),
            at(rows.decodings, row),
            at(rows.matches, row),
            at(rows.trefs, row),
        )
    }

    // A line for each of so many rows.
    fn write_rows(&mut self, count: u64, rows: &Rows<'_>) -> io::Result<()> {
        let mut end = 0;
        for row in 0..rows.indices.len().min(count as usize) {
            end = self.put_row(end, row, rows);
            end = self.make_room(end)?;
        }
        self.write_out(end)
    }

    // Writes the text out, and tells the command the same.
    fn write_and_tell(&self, end: usize)
        requires { end ≤ length self.now.text.now }
    {
        let written = self.write_out(end);
        tell(self.rt, self.told, written, &self.text[..end]);
    }

    // Writes a refusal.
    pub fn write_refusal(&mut self, answer: u64, bytes: &[u8]) {
        let end = unit_lines::put_refusal(self.text, 0, answer % 256, answer / 256);
        self.write_and_tell(end);
        hint(self.rt, bytes);
    }

    // Writes the answer. The refusals of joining, 14 to 18, are none of the rows that they name.
    pub fn write_answer(
        &mut self,
        answer: Answer,
        bytes: &[u8],
        rows: &Rows<'_>,
        units: &Units<'_>,
    ) {
        match answer.joined % 256 {
            13 if answer.more => tell(self.rt, self.told, Ok(()), b"more\n"),
            0 | 14..=18 if answer.listed => {
                let written = self.write_rows(answer.rows, rows);
                tell(self.rt, self.told, written, b"rows\n");
            }
            0 => {
                let written = self.write_units(answer.units, units);
                tell(self.rt, self.told, written, b"units\n");
            }
            _ => self.write_refusal(answer.joined, bytes),
        }
    }
}
