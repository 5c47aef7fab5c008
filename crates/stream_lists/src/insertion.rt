// A list in the first `count` places of an array, and something put into it: what stands from its place on moves back.
ghost use Rattle.std.specs.Prelude.{[], ◌∷◌, ◌≡◌, ◌+◌, ◌<◌, ◌≤◌, length, take};
ghost use Rattle.combinators.specs.Padding.{pad_to};
ghost use Rattle.sets.specs.Sets.{members_of};
ghost use Rattle.stream_lists.specs.Insertion.{placed, place_of, opened};
ghost use Rattle.stream_lists.specs.Holding.{Ready};

// The place of an index in the list, or the list's length where it has no such member.
fn place_of(members: &[u8; 64], count: usize, index: u8) -> usize
    requires { (count ≤ 64) × (length members.now ≡ 64) }
    ensures { result ≡ place_of index (take count members.now) }
{
    for at in 0..count {
        if members[at] == index {
            return at;
        }
    }
    count
}

// One index more, at a place of the list. What moves back overlaps where it goes, and std's slices copy only from one to another.
fn insert(members: &mut [u8; 64], count: usize, place: usize, index: u8)
    requires { (place ≤ count) × (count < 64) × (length members.old ≡ 64) }
    ensures { members.new ≡ opened members.old count place (index ∷ []) }
{
    let mut at = count;
    while place < at {
        members[at] = members[at - 1];
        at -= 1;
    }
    members[place] = index;
}

// A set's members more, in ascending order, from a place of the list on.
fn insert_all(members: &mut [u8; 64], count: usize, place: usize, new: u64)
    requires { (place ≤ count) × (count + length (members_of new) ≤ 64) × (length members.old ≡ 64) }
    ensures { members.new ≡ opened members.old count place (members_of new) }
{
    let mut end = count;
    let mut at = place;
    let mut left = new;
    while left != 0 {
        let index = sets::lowest(left);
        insert(members, end, at, index);
        left = sets::rest(left);
        end += 1;
        at += 1;
    }
}

// The index at the end of the list, if it is not present yet; the list's length.
fn add(members: &mut [u8; 64], count: usize, present: u64, index: u8) -> usize
    requires { Ready members.old count present index 0 }
    ensures { (result ≡ length (placed index [] (take count members.old)))
        × (members.new ≡ pad_to 64 0 (placed index [] (take count members.old))) }
{
    if sets::member(present, index as usize) {
        return count;
    }
    members[count] = index;
    count + 1
}

// The list with an index, and with `new`, of which nothing is present yet, immediately before its place.
pub fn place_before(
    members: &mut [u8; 64],
    count: usize,
    present: u64,
    index: u8,
    new: u64,
) -> usize
    requires { Ready members.old count present index new }
    ensures { (result ≡ length (placed index (members_of new) (take count members.old)))
        × (members.new ≡ pad_to 64 0 (placed index (members_of new) (take count members.old))) }
{
    let with_index = add(members, count, present, index);
    if new == 0 {
        return with_index;
    }
    let place = place_of(members, with_index, index);
    insert_all(members, with_index, place, new);
    with_index + sets::size(new)
}
