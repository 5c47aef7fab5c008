// Reads an elementary-stream loop and a recording, and writes its units or its rows, a line each, or the refusal, to standard output. It holds
// 65,536 rows, as many as find room within the ordinary 8 MB of stack; `units_long` holds more. What it does is said in the crate `units_program`, and the command `units` beside the
// crates gives an exit status.
#![tactic(auto)]

use units_program::{Question, Recording, Room, Rows, Units, Work};

const ROWS: usize = 65536;

fn lend(rt: &HostRuntime, question: Question) {
    let rows = Rows {
        indices: &mut [0; ROWS],
        decodings: &mut [0; ROWS],
        matches: &mut [0; ROWS],
        trefs: &mut [0; ROWS],
        packets: &mut [0; ROWS],
    };
    let recording = Recording {
        state: &mut [0; 20412],
        counts: &mut [0; 72],
        rows,
    };
    let work = Work {
        order: &mut [0; ROWS],
        keys: &mut [0; ROWS],
        kept: &mut [0; ROWS],
        places: &mut [0; ROWS],
        heads: &mut [0; ROWS],
        claimed: &mut [false; ROWS],
        used: &mut [false; ROWS],
    };
    let units = Units {
        numbers: &mut [0; ROWS],
        lags: &mut [0; ROWS],
        sizes: &mut [0; ROWS],
    };
    let mut room = Room {
        buffer: &mut [0; 262144],
        recording,
        work,
        units,
    };
    units_program::run(rt, question, &mut room, &mut [0; 65536]);
}

fn main(rt: HostRuntime) {
    if let Some(question) = units_program::asked(&rt) {
        lend(&rt, question);
    }
}
