// The columns of the row table.
use arrayvec::ArrayVec;

// As many rows and places as a case may have.
pub const ROOM: usize = 600;

// The values of a column, at the front of a list with room for every one. No `ArrayVec`: a case, which has three of them, can be copied.
#[derive(Clone, Copy)]
pub struct Column {
    count: usize,
    list: [u64; ROOM],
}

impl Column {
    pub fn new() -> Column {
        Column {
            count: 0,
            list: [0; ROOM],
        }
    }

    pub fn as_slice(&self) -> &[u64] {
        &self.list[..self.count.min(ROOM)]
    }
}

// Puts so many values more into a column: the first, and each later one by `step` more than the one before. What goes beyond the room is
// not kept.
pub fn extend(column: &mut Column, first: u64, times: u64, step: u64) {
    let mut value = first;
    for _ in 0..times {
        let count = column.count;
        if ROOM <= count {
            return;
        }
        column.list[count] = value;
        column.count = count + 1;
        value = value.wrapping_add(step);
    }
}

// The values as bytes, 255 for each that is larger.
pub fn bytes_of(column: &Column) -> ArrayVec<u8, 600> {
    let mut bytes = ArrayVec::new();
    for value in column.as_slice() {
        let byte = u8::try_from(*value).unwrap_or(u8::MAX);
        // There is room for each, as the columns are of one size.
        let _ = bytes.try_push(byte);
    }
    bytes
}
