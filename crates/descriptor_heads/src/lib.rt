// What every descriptor shares: its head of two bytes, found at the front of some bytes and written before a payload, and a flag as its bit. Each
// descriptor has a room of its own, a crate that stands on this one: `hierarchy`, `extension`.
//
// proofs/Heads.antt has the head at unknown bytes, for whoever walks through descriptors; Bits.antt and Widths.antt are for whoever reads and writes one.
#![tactic(auto)]

ghost use Rattle.std.specs.Prelude.{◌≡◌};
ghost use Rattle.syntax.specs.Filled.{bit_of, bytes_in};
ghost use Rattle.descriptor_heads.specs.Head.{framed_of, head_table};

// A descriptor at the front of some bytes that fits in them: its tag and where it ends.
#[derive(Clone, Copy)]
pub struct Framed {
    pub tag: u8,
    pub end: usize,
}

// The descriptors of some bytes, in order: this finds the first, where it fits in them, and the others stand behind its end.
pub fn first_descriptor(left: &[u8]) -> Option<Framed>
    ensures { result ≡ framed_of left.now }
{
    if left.len() < 2 {
        return None;
    }
    let length = usize::from(left[1]);
    if left.len() - 2 < length {
        return None;
    }
    Some(Framed {
        tag: left[0],
        end: 2 + length,
    })
}

// The head of a descriptor that is written.
pub fn descriptor_head(tag: u8, length: u8) -> [u8; 2]
    ensures { result ≡ bytes_in (head_table tag length) }
{
    [tag, length]
}
