// Sets of numbers below 64, such as layer indices, each held in one u64: i is a member when bit i is 1.
// specs/Sets.antt says what each function answers, proofs/Laws.antt what that means.
#![tactic(auto)]

ghost use Rattle.std.specs.Prelude.{◌≡◌};
ghost use Rattle.std.specs.Iterator.{YieldsFirst, item_count};
ghost use Rattle.sets.specs.Left.{members_left};
ghost use Rattle.sets.specs.Sets.{has, added, without as withoutOf, below as belowOf, lowest as lowestOf, rest as rest_of, size as size_of};

// Whether `index` is a member; no index above 63 is.
pub fn member(set: u64, index: usize) -> bool
    ensures { result ≡ has set index }
{
    if 64 <= index {
        return false;
    }
    (set >> index) % 2 == 1
}

// The set with `index` as one more member; an index above 63 adds nothing.
pub fn with(set: u64, index: usize) -> u64
    ensures { result ≡ added set index }
{
    if 64 <= index {
        return set;
    }
    set | 1 << index
}

// The members of `set` that `other` lacks.
pub fn without(set: u64, other: u64) -> u64
    ensures { result ≡ withoutOf set other }
{
    set ^ (set & other)
}

// The members of `set` below `index`.
pub fn below(set: u64, index: usize) -> u64
    ensures { result ≡ belowOf set index }
{
    if 64 <= index {
        return set;
    }
    set % (1 << index)
}

// The lowest member, and 64 where there is none.
pub fn lowest(set: u64) -> u8
    ensures { result ≡ lowestOf set }
{
    u64::trailing_zeros(set) as u8
}

// The members but the lowest: a set is walked in rising order by its lowest member and what is then left.
pub fn rest(set: u64) -> u64
    ensures { result ≡ rest_of set }
{
    if set == 0 {
        return 0;
    }
    set & (set - 1)
}

// The members of a set that a walk has still to give, the lowest first.
#[derive(Clone, Copy)]
pub struct RisingMembers {
    pub left: u64,
}

// The members of a set in rising order.
pub fn rising(set: u64) -> RisingMembers
    ensures { result ≡ record { left = set } }
{
    RisingMembers { left: set }
}

impl Iterator for RisingMembers {
    type Item = u8;

    ghost next_gives = { YieldsFirst members_left };

    ghost remaining = { item_count members_left };

    fn next(&mut self) -> Option<u8> {
        if self.left == 0 {
            return None;
        }
        let member = lowest(self.left);
        self.left = rest(self.left);
        Some(member)
    }
}

// The number of members.
pub fn size(set: u64) -> usize
    ensures { result ≡ size_of set }
{
    u64::count_ones(set) as usize
}
