// The answer of joining.
use vocabulary::Refusal;

// The set of the closure's layer indices, the number of units, and how many closure rows the table has, which is how many places of the lists the units fill; or
// why there is none.
#[derive(Clone, Copy)]
pub struct Units {
    pub closure: u64,
    pub units: usize,
    pub rows: usize,
}
