// Text laid into a buffer, piece after piece: fixed texts, which are bytes as any other, and decimal numbers. A text that is longer than the
// room for it is cut off at the end of the buffer.
#![tactic(auto)]

ghost use Rattle.buffers.specs.Buffers.{Laid};
ghost use Rattle.text.specs.Text.{decimal};

pub use buffers::put;

// Lays the decimal digits of `n` into `out` from place `at` on, and answers the place after them.
pub fn put_decimal(out: &mut [u8], at: usize, n: u64) -> usize
    ensures { Laid out.old at (decimal n) result out.new }
{
    let mut digits = [0u8; 20];
    let count = io::decimal(n, &mut digits);
    put(out, at, &digits[..count])
}
