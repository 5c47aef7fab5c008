// A recording out of the words of a case: the bytes of packets, each ended by a slash and filled with 0xFF to 188 bytes; what stands behind the last slash is a part of a packet, as it is.
ghost use Rattle.std.specs.Prelude.{◌≤◌, length, IfSome};

use cases::{first_part, number_or, numbers_of, read_bytes};

// Lays bytes behind the first `count` of the room, as far as they find room, and answers how many there are then.
fn lay(bytes: &[u8], room: &mut [u8], count: usize) -> usize
    requires { count ≤ length room.old }
    ensures { result ≤ length room.new }
{
    let size = bytes.len().min(room.len() - count);
    room[count..count + size].copy_from_slice(&bytes[..size]);
    count + size
}

// Fills the packet that was begun.
fn fill(room: &mut [u8], count: usize) -> usize
    requires { count ≤ length room.old }
    ensures { result ≤ length room.new }
{
    let missing = (188 - count % 188) % 188;
    let end = count + missing.min(room.len() - count);
    room[count..end].fill(255);
    end
}

// Lays the first `count` bytes of the room behind the first `from`.
fn again(room: &mut [u8], count: usize, from: usize) -> usize
    requires { (count ≤ from) × (from ≤ length room.old) }
    ensures { (count ≤ result) × (result ≤ length room.new) }
{
    let size = count.min(room.len() - from);
    room.copy_within(..size, from);
    from + size
}

// All bytes so far, so many times in all.
fn repeat(times: u64, room: &mut [u8], count: usize) -> usize
    requires { count ≤ length room.old }
    ensures { result ≤ length room.new }
{
    let mut end = count;
    for _ in 1..times {
        end = again(room, count, end);
    }
    end
}

// A part that is the bytes of a packet.
fn lay_bytes(words: &[u8], room: &mut [u8], count: usize) -> Option<usize>
    requires { count ≤ length room.old }
    ensures { IfSome result (λ end. end ≤ length room.new) }
{
    let mut bytes = cases::empty_room();
    let size = read_bytes(words, &mut bytes)?;
    Some(lay(&bytes[..size], room, count))
}

// A part that is a number: all packets before it, so many times.
fn lay_times(words: &[u8], room: &mut [u8], count: usize) -> Option<usize>
    requires { count ≤ length room.old }
    ensures { IfSome result (λ end. end ≤ length room.new) }
{
    let word = first_part(b' ', words);
    let numbers = numbers_of(&words[..word.size]);
    if numbers.last != 0 {
        return None;
    }
    Some(repeat(number_or(numbers, 0, 0) % 10000, room, count))
}

// A part without the blanks in front.
fn trimmed(words: &[u8]) -> &[u8] {
    match words.iter().position(|byte| *byte != b' ') {
        Some(front) => &words[front..],
        None => &[],
    }
}

fn lay_part(words: &[u8], room: &mut [u8], count: usize) -> Option<usize>
    requires { count ≤ length room.old }
    ensures { IfSome result (λ end. end ≤ length room.new) }
{
    let words = trimmed(words);
    let word = first_part(b' ', words);
    match &words[..word.size] {
        b"times" => lay_times(&words[word.step..], room, count),
        _ => lay_bytes(words, room, count),
    }
}

// Lays the recording of all words at the start of the room, and answers how many bytes it has, where the words can be read.
pub fn lay_packets(words: &[u8], room: &mut [u8]) -> Option<usize>
    ensures { IfSome result (λ count. count ≤ length room.new) }
{
    let mut count = 0;
    for part in words.split_inclusive(|byte| *byte == b'/') {
        match part.strip_suffix(b"/") {
            Some(packet) => {
                count = lay_part(packet, room, count)?;
                count = fill(room, count);
            }
            None => count = lay_part(part, room, count)?,
        }
    }
    Some(count)
}
