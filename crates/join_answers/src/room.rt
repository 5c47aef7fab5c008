// The room: how many places the lists of an answer need, and how many rows a work space has places for.
ghost use Rattle.std.specs.Prelude.{[], ◌≡◌, min};
ghost use Rattle.rows.specs.Table.{table};
ghost use Rattle.row_index.specs.Index.{Starts};
ghost use Rattle.join_answers.specs.Joining.{closure_rows, too_small, most_long};
ghost use Rattle.join_answers.specs.Steps.{spaces};

// How many rows are of closure layers: the index of the table's rows, `indices`, has as many of a layer as lie between its start and the next one's.
pub fn closure_rows(closure: u64, indices: &[u8], starts: &[usize; 65]) -> usize
    requires { Starts indices.now starts.now }
    ensures { result ≡ closure_rows (table indices.now [] []) closure }
{
    let mut rows = 0;
    let mut left = closure;
    while left != 0 {
        let layer = usize::from(sets::lowest(left));
        rows += starts[layer + 1] - starts[layer];
        left = sets::rest(left);
    }
    rows
}

// Whether one of the three lists has fewer places than there are closure rows.
pub fn too_small(rows: usize, numbers: usize, lags: usize, sizes: usize) -> bool
    ensures { result ≡ too_small (record { numbers = numbers; lags = lags; sizes = sizes }) rows }
{
    (numbers < rows) | ((lags < rows) | (sizes < rows))
}

// How many rows a table may have at the most, whatever the work space holds: a row's number is told as a place of 56 bits.
pub const LONGEST_TABLE: usize = 281474976710656;

// How many rows a table may have, given how many places each list of the work space has.
pub fn most_long(
    order: usize,
    keys: usize,
    kept: usize,
    places: usize,
    heads: usize,
    claimed: usize,
    used: usize,
) -> usize
    ensures { result ≡ most_long (spaces order keys kept places heads claimed used) }
{
    let flags = claimed.min(used.min(LONGEST_TABLE));
    let numbers = kept.min(places.min(heads.min(flags)));
    order.min(keys.min(numbers))
}
