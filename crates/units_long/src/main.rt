// As `units`, for 524,288 rows, more than an hour of two layers at 50 pictures a second each: their lists take 49 MB of memory, which the program asks for where there is something to do.
#![tactic(auto)]

use std::alloc::AllocError;
use units_program::{Question, Recording, Room, Rows, Units, Work};

const ROWS: usize = 524288;

fn lend(rt: &HostRuntime, question: Question) -> Result<(), AllocError> {
    let mut indices = vec![in rt.alloc(); 0u8; ROWS]?;
    let mut decodings = vec![in rt.alloc(); 0u64; ROWS]?;
    let mut matches = vec![in rt.alloc(); 0u64; ROWS]?;
    let mut trefs = vec![in rt.alloc(); 0u8; ROWS]?;
    let mut packets = vec![in rt.alloc(); 0u64; ROWS]?;
    let mut order = vec![in rt.alloc(); 0usize; ROWS]?;
    let mut keys = vec![in rt.alloc(); 0u64; ROWS]?;
    let mut kept = vec![in rt.alloc(); 0usize; ROWS]?;
    let mut places = vec![in rt.alloc(); 0usize; ROWS]?;
    let mut heads = vec![in rt.alloc(); 0usize; ROWS]?;
    let mut claimed = vec![in rt.alloc(); false; ROWS]?;
    let mut used = vec![in rt.alloc(); false; ROWS]?;
    let mut numbers = vec![in rt.alloc(); 0u64; ROWS]?;
    let mut lags = vec![in rt.alloc(); 0i64; ROWS]?;
    let mut sizes = vec![in rt.alloc(); 0u64; ROWS]?;
    let rows = Rows {
        indices: &mut indices,
        decodings: &mut decodings,
        matches: &mut matches,
        trefs: &mut trefs,
        packets: &mut packets,
    };
    let recording = Recording {
        state: &mut [0; 20412],
        counts: &mut [0; 72],
        rows,
    };
    let work = Work {
        order: &mut order,
        keys: &mut keys,
        kept: &mut kept,
        places: &mut places,
        heads: &mut heads,
        claimed: &mut claimed,
        used: &mut used,
    };
    let units = Units {
        numbers: &mut numbers,
        lags: &mut lags,
        sizes: &mut sizes,
    };
    let mut room = Room {
        buffer: &mut [0; 65536],
        recording,
        work,
        units,
    };
    units_program::run(rt, question, &mut room, &mut [0; 65536]);
    Ok(())
}

fn main(rt: HostRuntime) {
    if let Some(asked) = units_program::asked(&rt) {
        // The larger program leaves no recording to another.
        let question = Question {
            more: false,
            ..asked
        };
        if let Err(error) = lend(&rt, question) {
            let _ = eprintln!(rt; "units: there is no room for so many rows: {error}");
        }
    }
}
