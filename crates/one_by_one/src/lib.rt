// Lists laid one element after the other into buffers that a caller lends, as `buffers` lays bytes in one copy. A copy of as many bytes as a call is told becomes a call of memmove, and
// the library for C asks nobody for that name: this is for what its callers hand it, of any length, and for a packet.
#![tactic(auto)]

ghost use Rattle.std.specs.Prelude.{◌+◌, ◌≤◌, length};
ghost use Rattle.buffers.specs.Buffers.{Laid};

// Lays a list into `out` from place `at` on, where there is room for all of it, and answers the place after it.
pub fn put_whole<T: Copy>(out: &mut [T], at: usize, list: &[T]) -> usize
    requires { at + length list.now ≤ length out.old }
    ensures { Laid out.old at list.now result out.new }
{
    for (i, element) in list.iter().enumerate() {
        out[at + i] = *element;
    }
    at + list.len()
}

// Lays bytes into `out` from place `at` on, as far as there is room, and answers the place after them.
pub fn put(out: &mut [u8], at: usize, bytes: &[u8]) -> usize
    ensures { Laid out.old at bytes.now result out.new }
{
    if out.len() <= at {
        return out.len();
    }
    let count = (out.len() - at).min(bytes.len());
    put_whole(out, at, &bytes[..count])
}
