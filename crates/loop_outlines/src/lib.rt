// One entry of the loop as it is judged: what was seen of it, but of the embedded layers no more than whether 9 applies. These stay where they are, in the
// bytes of the entry; a walk that judges hands on a few words for each entry, and no list.
#![tactic(auto)]

ghost use Rattle.std.specs.Prelude.{◌≡◌, ◌≤◌, true, length, get_or, take, drop};
ghost use Rattle.combinators.specs.Padding.{pad_to};
ghost use Rattle.framing.specs.Pieces.{whole};
ghost use Rattle.vocabulary.specs.StreamTypes.{known};
ghost use Rattle.extension.specs.Extension.{no_layer};
ghost use Rattle.descriptors.specs.Finding.{list_before, Within};
ghost use Rattle.judging.specs.Judging.{TellsEmbedded};
ghost use Rattle.loop_entries.specs.Entries.{stream_of, marked_stream};
ghost use Rattle.loop_outlines.specs.Outlines.{outline_of};

use descriptors::Record;
use loop_entries::elementary_pid;
use vocabulary::Reading;

#[derive(Clone, Copy)]
pub struct Outline {
    pub fits: bool,
    pub stream_type: u8,
    pub pid: u16,
    pub wrong_length: bool,
    pub second_record: bool,
    pub record: Record,
    pub wrong_embedded: bool,
}

// Refusal 9 of a record whose descriptor ends at `end`: an extension's list are its last bytes.
fn wrong_found(record: Record, end: usize, info: &[u8]) -> bool
    requires { Within info.now «record» end }
    ensures { TellsEmbedded result «record» (pad_to 63 no_layer (list_before info.now «record» end)) }
{
    match record {
        Record::NoRecord | Record::Implied => false,
        Record::Hierarchy(hierarchy) => judging::wrong_hierarchy_index(hierarchy),
        Record::Extension(extension) => {
            let start = end - usize::from(extension.num_embedded_layers);
            judging::wrong_listed(extension.layer_index, &info[start..end])
        }
    }
}

// A whole entry of a type that the reading knows, with its mark where the loop has the two views without a hierarchy descriptor and it is one of them.
pub fn read_outline(reading: Reading, pair: bool, entry: &[u8]) -> Outline
    requires { (5 ≤ length entry.now) × (known reading (get_or entry.now 0 0) ≡ true) }
    ensures { result ≡ outline_of (marked_stream pair (stream_of reading (whole (take 5 entry.now) (drop 5 entry.now)))) }
{
    let stream_type = entry[0];
    let pid = elementary_pid(entry[1], entry[2]);
    let info = &entry[5..];
    let found = descriptors::find_records(reading, info);
    let record = found.record;
    let wrong_embedded = wrong_found(record, found.end, info);
    Outline {
        fits: found.fits,
        stream_type,
        pid,
        wrong_length: found.wrong_length,
        second_record: found.second_record,
        record: implied::mark(pair, stream_type, record),
        wrong_embedded,
    }
}
