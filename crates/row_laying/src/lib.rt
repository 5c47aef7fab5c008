// From a loop's bytes to rows: each entry's numbers are stored straight into the row that the caller lends, and no entry is made.
#![tactic(auto)]

ghost use Rattle.std.specs.Prelude.{◌≡◌, true, ◌++◌, map, ◌*◌, ◌≤◌, min, length, take, drop, replicate};
ghost use Rattle.es_loop.specs.Answer.{entries_judged};
ghost use Rattle.combinators.specs.Padding.{pad_to};
ghost use Rattle.buffers.specs.Buffers.{over};
ghost use Rattle.framing.specs.Pieces.{whole};
ghost use Rattle.extension.specs.Extension.{no_layer, layers_of};
ghost use Rattle.descriptors.specs.Looking.{seen_of, nothing_seen};
ghost use Rattle.descriptors.specs.Finding.{list_before, Within};
ghost use Rattle.loop_entries.specs.Entries.{stream_of, marked_stream, streams_of, entry_of};
ghost use Rattle.es_loop.specs.Reading.{verdict_of};
ghost use Rattle.entry_rows.specs.Rows.{layer_number, tail_of, row_of, rows_of};

use descriptors::Record;
use es_loop::{Entry, Judged};
use loop_entries::elementary_pid;
use row_heads::head_of;
use vocabulary::{LayerIndex, Reading};

// The numbers of a row.
const ROW: usize = 80;

// Those before its embedded layers.
const HEAD: usize = 16;

// The head, with what follows it left as it is.
fn lay_head(row: &mut [u16], head: [u16; HEAD])
    requires { length row.old ≡ 80 }
    ensures { row.new ≡ over head row.old }
{
    row[..HEAD].copy_from_slice(&head);
}

// 0 after the head, up to the end of the row.
fn clear_tail(row: &mut [u16])
    requires { length row.old ≡ 80 }
    ensures { row.new ≡ take 16 row.old ++ replicate 64 0 }
{
    for i in HEAD..ROW {
        row[i] = 0;
    }
}

// After the head the first `count` embedded layers, of at most 63, and 0 after them.
fn lay_layers(row: &mut [u16], count: usize, embedded: [LayerIndex; 63])
    requires { length row.old ≡ 80 }
    ensures { row.new ≡ take 16 row.old ++ pad_to 64 0 (map layer_number (take (min count 63) embedded)) }
{
    clear_tail(row);
    let end = count.min(63);
    for i in 0..end {
        let index = embedded[i];
        row[HEAD + i] = u16::from(index.0);
    }
}

fn lay_tail(row: &mut [u16], record: Record, embedded: [LayerIndex; 63])
    requires { length row.old ≡ 80 }
    ensures { row.new ≡ take 16 row.old ++ tail_of «record» embedded }
{
    match record {
        Record::NoRecord | Record::Hierarchy(_) | Record::Implied => clear_tail(row),
        Record::Extension(extension) => {
            lay_layers(row, extension.num_embedded_layers as usize, embedded);
        }
    }
}

// The row of an entry that a caller has.
pub fn lay_row(row: &mut [u16], entry: Entry)
    requires { length row.old ≡ 80 }
    ensures { row.new ≡ row_of entry }
{
    let record = entry.record;
    let embedded = entry.embedded;
    let head = head_of(entry.stream_type, entry.pid, record);
    lay_head(row, head);
    lay_tail(row, record, embedded);
}

// After the head the layers of an extension's list, a byte each, and 0 after them.
fn lay_listed(row: &mut [u16], list: &[u8])
    requires { (length row.old ≡ 80) × (length list.now ≤ 63) }
    ensures { row.new ≡ take 16 row.old ++ pad_to 64 0 (map layer_number (layers_of list.now)) }
{
    clear_tail(row);
    for (i, byte) in list.iter().enumerate() {
        row[HEAD + i] = u16::from(byte % 64);
    }
}

// The same of a record whose descriptor ends at `end`: an extension's list are its last bytes.
fn lay_found(row: &mut [u16], record: Record, end: usize, info: &[u8])
    requires { (length row.old ≡ 80) × Within info.now «record» end }
    ensures { row.new ≡ take 16 row.old ++ tail_of «record» (pad_to 63 no_layer (list_before info.now «record» end)) }
{
    match record {
        Record::NoRecord | Record::Hierarchy(_) | Record::Implied => clear_tail(row),
        Record::Extension(extension) => {
            let start = end - extension.num_embedded_layers as usize;
            lay_listed(row, &info[start..end]);
        }
    }
}

// The row of a stream that the reading knows, from its descriptors. The embedded layers go from byte to number, and no list is made of them.
fn lay_known(row: &mut [u16], reading: Reading, pair: bool, stream_type: u8, pid: u16, info: &[u8])
    requires { length row.old ≡ 80 }
    ensures { row.new ≡ row_of (entry_of (marked_stream pair (record { fits = true; stream_type = stream_type; pid = pid; seen = seen_of reading info.now }))) }
{
    let found = descriptors::find_records(reading, info);
    let record = found.record;
    let head = head_of(stream_type, pid, implied::mark(pair, stream_type, record));
    lay_head(row, head);
    lay_found(row, record, found.end, info);
}

// The row of a stream without a record.
fn lay_recordless(row: &mut [u16], stream_type: u8, pid: u16)
    requires { length row.old ≡ 80 }
    ensures { row.new ≡ row_of (entry_of (record { fits = true; stream_type = stream_type; pid = pid; seen = nothing_seen })) }
{
    let head = head_of(stream_type, pid, Record::NoRecord);
    lay_head(row, head);
    clear_tail(row);
}

// The row of a whole entry of a loop's bytes, with its mark where the loop has the two views.
fn lay_entry(row: &mut [u16], reading: Reading, pair: bool, entry: &[u8])
    requires { (length row.old ≡ 80) × (5 ≤ length entry.now) }
    ensures { row.new ≡ row_of (entry_of (marked_stream pair (stream_of reading (whole (take 5 entry.now) (drop 5 entry.now))))) }
{
    let stream_type = entry[0];
    let pid = elementary_pid(entry[1], entry[2]);
    if vocabulary::knows(reading, stream_type) {
        lay_known(row, reading, pair, stream_type, pid, &entry[5..]);
        return;
    }
    lay_recordless(row, stream_type, pid);
}

// The rows of a loop that was judged and accepted, from the front of a buffer on that has room for them.
pub fn put_rows(reading: Reading, pair: bool, bytes: &[u8], out: &mut [u16])
    requires bytes_value { verdict_of reading bytes.now ≡ entries_judged (length (streams_of reading bytes.now)) pair }
    requires bytes_in_bounds { length (streams_of reading bytes.now) * 80 ≤ length out.old }
    ensures { out.new ≡ over (rows_of (map entry_of (streams_of reading bytes.now))) out.old }
{
    let mut count = 0;
    let mut at = 0;
    while at < bytes.len() {
        let left = &bytes[at..];
        let size = es_loop::entry_size(left);
        let start = count * ROW;
        let end = start + ROW;
        lay_entry(&mut out[start..end], reading, pair, &left[..size]);
        count += 1;
        at += size;
    }
}
