// Bytes laid into buffers that a caller lends. A list that is longer than the room for it is cut off at the
// end of the buffer, or the caller knows that there is room. specs/Buffers.antt says what the buffer then holds, proofs/Laws.antt that
// pieces laid one after another join.
#![tactic(auto)]

ghost use Rattle.std.specs.Prelude.{◌+◌, ◌≤◌, length};
ghost use Rattle.buffers.specs.Buffers.{Laid};

// Lays `bytes` into `out` from place `at` on, where there is room for all of it, and answers the place after it.
pub fn put_whole(out: &mut [u8], at: usize, bytes: &[u8]) -> usize
    requires { at + length bytes.now ≤ length out.old }
    ensures { Laid out.old at bytes.now result out.new }
{
    let end = at + bytes.len();
    out[at..end].copy_from_slice(bytes);
    end
}

// Lays `bytes` into `out` from place `at` on, as far as there is room, and answers the place after it.
pub fn put(out: &mut [u8], at: usize, bytes: &[u8]) -> usize
    ensures { Laid out.old at bytes.now result out.new }
{
    if out.len() <= at {
        return out.len();
    }
    let count = (out.len() - at).min(bytes.len());
    put_whole(out, at, &bytes[..count])
}
