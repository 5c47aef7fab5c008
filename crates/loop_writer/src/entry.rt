// One entry that is to be written: whether a value of it is too wide for its field (25), how many bytes it takes, and its bytes.
ghost use Rattle.std.specs.Prelude.{◌≡◌, false, ◌≤◌, ◌<◌, length};
ghost use Rattle.buffers.specs.Buffers.{Laid};
ghost use Rattle.syntax.specs.Filled.{bytes_in};
ghost use Rattle.implied.specs.Walking.{view_next};
ghost use Rattle.loop_entries.specs.Entries.{shown_of};
ghost use Rattle.loop_writer.specs.Layout.{entry_head_table, entry_bytes, too_wide};
ghost use Rattle.loop_writer.specs.Verdict.{stream_for};

use es_loop::Entry;
use implied::Views;

// Reserved bits are 1: 224 is three of them before five bits, 240 four before four.
pub fn entry_head(stream_type: u8, pid: u16, info_length: u16) -> [u8; 5]
    requires { (pid < 8192) × (info_length < 4096) }
    ensures { result ≡ bytes_in (entry_head_table stream_type pid info_length) }
{
    [
        stream_type,
        (224 + pid / 256) as u8,
        (pid % 256) as u8,
        (240 + info_length / 256) as u8,
        (info_length % 256) as u8,
    ]
}

// A PID of 13 bits, and the record.
pub fn too_wide(entry: Entry) -> bool
    ensures { result ≡ too_wide entry }
{
    let record = entry.record;
    let embedded = entry.embedded;
    if 8191 < entry.pid {
        return true;
    }
    descriptors::record_too_wide(record, embedded)
}

// One entry more, as the rule of the two views looks at it.
pub fn view_of(views: Views, entry: Entry) -> Views
    ensures { result ≡ view_next views (shown_of (stream_for entry)) }
{
    let record = entry.record;
    implied::view_next(views, entry.stream_type, implied::is_described(record))
}

pub fn entry_size(entry: Entry) -> usize
    requires { too_wide entry ≡ false }
    ensures { (result ≡ length (entry_bytes entry)) × (result ≤ 77) }
{
    let record = entry.record;
    let embedded = entry.embedded;
    5 + descriptors::record_size(record, embedded)
}

pub fn put_entry(out: &mut [u8], at: usize, entry: Entry) -> usize
    requires { too_wide entry ≡ false }
    ensures { Laid out.old at (entry_bytes entry) result out.new }
{
    let record = entry.record;
    let embedded = entry.embedded;
    let info_length = descriptors::record_size(record, embedded);
    let head = entry_head(entry.stream_type, entry.pid, info_length as u16);
    let next = buffers::put(out, at, &head);
    descriptors::put_record(out, next, record, embedded)
}
