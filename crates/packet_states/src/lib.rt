// The state of a recording in pieces, as a caller of another language owns it: two lists of fixed lengths, one of bytes and one of numbers, which are lent to each
// call and come back. The bytes are the layer of each PID (8,192), the packet that is not whole yet (188), and the last packet of each layer (64 of 188). The numbers
// are whether each layer has a last packet (64), how many bytes of a packet are carried, how many packets were whole, the lowest of 30 to 33 and its packet, the
// lowest of 20 to 24 and its packet, the rows, and whether a row found no room. Any content is answered for: what is no state is told from what is one.
#![tactic(auto)]

ghost use Rattle.std.specs.Prelude.{◌≡◌, ◌+◌, ◌≤◌, ◌<◌, length, get_or, take};
ghost use Rattle.std.proofs.lemmas.List.Edits.{sets};
ghost use Rattle.combinators.specs.Lists.{any};
ghost use Rattle.packet_states.specs.States.{past_one, possible_numbers, is_state, may_feed, no_room_after, table_in, part_in, ends_in, progress_in, counts_of};

use feeding::Progress;
use unit_starts::{Found, Mark};

// How long the two lists are.
pub const STATE_BYTES: usize = 20412;

pub const STATE_NUMBERS: usize = 72;

// Whether a layer has another number of last packets than none or one.
fn ends_past_one(counts: &[u64]) -> bool
    requires { 64 ≤ length counts.now }
    ensures { result ≡ any past_one (take 64 counts.now) }
{
    for count in &counts[..64] {
        if 1 < *count {
            return true;
        }
    }
    false
}

// Whether a recording can have such numbers. It has fewer packets than any number that is counted here can go wrong with.
fn possible(part: u64, number: u64, fault: u64, refusal: u64, rows: u64, no_room: u64) -> bool
    ensures { result ≡ possible_numbers part number fault refusal rows no_room }
{
    (part < 188)
        & (number <= 281474976710656)
        & (30 <= fault)
        & (fault <= 34)
        & (20 <= refusal)
        & (refusal <= 25)
        & (rows <= number)
        & (no_room <= 1)
        & (no_room <= rows)
}

// WHETHER THE LISTS ARE A STATE.
pub fn is_state(state: &[u8], counts: &[u64]) -> bool
    ensures { result ≡ is_state state.now counts.now }
{
    if state.len() != STATE_BYTES {
        return false;
    }
    if counts.len() != STATE_NUMBERS {
        return false;
    }
    if ends_past_one(counts) {
        return false;
    }
    possible(
        counts[64], counts[65], counts[66], counts[68], counts[70], counts[71],
    )
}

// WHETHER A PIECE OF SO MANY BYTES IS TAKEN.
pub fn may_feed(size: usize, state: &[u8], counts: &[u64]) -> bool
    ensures { result ≡ may_feed size state.now counts.now }
{
    if !is_state(state, counts) {
        return false;
    }
    size as u64 <= 281474976710656 - counts[65]
}

// Whether a row found no room, before a piece or in it.
pub fn no_room_after(no_room: u64, room: usize, rows: usize) -> u64
    ensures { result ≡ no_room_after no_room room rows }
{
    if no_room == 1 {
        return 1;
    }
    if room < rows {
        return 1;
    }
    0
}

// The layer of each PID.
pub fn table_in(state: &[u8]) -> [u8; 8192]
    requires { 8192 ≤ length state.now }
    ensures { result ≡ table_in state.now }
{
    let mut table = [0u8; 8192];
    table.copy_from_slice(&state[..8192]);
    table
}

// The packet that is not whole yet.
pub fn part_in(state: &[u8]) -> [u8; 188]
    requires { 8380 ≤ length state.now }
    ensures { result ≡ part_in state.now }
{
    let mut part = [0u8; 188];
    part.copy_from_slice(&state[8192..8380]);
    part
}

// For each layer whether it has a last packet.
pub fn ends_in(counts: &[u64]) -> [usize; 64]
    requires { 64 ≤ length counts.now }
    ensures { result ≡ ends_in counts.now }
{
    let mut ends = [0usize; 64];
    for (i, count) in counts[..64].iter().enumerate() {
        ends[i] = *count as usize;
    }
    ends
}

// The numbers of a state.
pub fn progress_in(counts: &[u64]) -> Progress
    requires { (72 ≤ length counts.now) × (get_or counts.now 66 0 < 256) × (get_or counts.now 68 0 < 256) }
    ensures { result ≡ progress_in counts.now }
{
    Progress {
        part: counts[64] as usize,
        number: counts[65] as usize,
        found: Found {
            fault: Mark {
                number: counts[66] as u8,
                packet: counts[67] as usize,
            },
            refusal: Mark {
                number: counts[68] as u8,
                packet: counts[69] as usize,
            },
            rows: counts[70] as usize,
        },
    }
}

fn put_ends(ends: &[usize; 64], counts: &mut [u64])
    requires { (length ends.now ≡ 64) × (64 ≤ length counts.old) }
    ensures { counts.new ≡ sets counts.old 0 ends.now }
{
    for (i, end) in ends.iter().enumerate() {
        counts[i] = *end as u64;
    }
}

fn put_numbers(numbers: &[u64], at: usize, counts: &mut [u64])
    requires { at + length numbers.now ≤ length counts.old }
    ensures { counts.new ≡ sets counts.old at numbers.now }
{
    counts[at..at + numbers.len()].copy_from_slice(numbers);
}

// All numbers of a state, written anew.
pub fn put_counts(progress: Progress, no_room: u64, ends: &[usize; 64], counts: &mut [u64])
    requires { (length ends.now ≡ 64) × (length counts.old ≡ 72) }
    ensures { counts.new ≡ counts_of progress no_room ends.now }
{
    put_ends(ends, counts);
    let found = progress.found;
    let fault = found.fault;
    let refusal = found.refusal;
    let numbers = [
        progress.part as u64,
        progress.number as u64,
        u64::from(fault.number),
        fault.packet as u64,
        u64::from(refusal.number),
        refusal.packet as u64,
        found.rows as u64,
        no_room,
    ];
    put_numbers(&numbers, 64, counts);
}
