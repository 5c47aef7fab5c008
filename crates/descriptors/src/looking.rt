// What a reading sees in the descriptor bytes of a stream that it knows.
ghost use Rattle.std.specs.Prelude.{◌≡◌, []};
ghost use Rattle.combinators.specs.Padding.{pad_to};
ghost use Rattle.extension.specs.Extension.{no_layer};
ghost use Rattle.descriptors.specs.Looking.{held_in, extension_kind, payload_kind, seen_of, nothing_seen};
ghost use Rattle.descriptors.specs.Finding.{look_of, nothing_found, unfit_found, second_found, wrong_length_found, record_found, look_found, list_before, seen_by, Within, NamedIn, NamedBy};

use descriptor_heads::first_descriptor;
use extension::{ExtensionRecord, no_layers, read_embedded, read_extension};
use hierarchy::{HierarchyRecord, read_hierarchy};
use records::{Record, is_layer, names_in_list, names_of_hierarchy};
use vocabulary::{LayerIndex, Reading};

// One descriptor: none of the two kinds, one of them at a wrong length, or a record.
#[derive(Clone, Copy)]
pub enum Look {
    Skipped,
    WrongLength,
    Hierarchy(HierarchyRecord),
    Extension(ExtensionRecord),
}

// All descriptors of a stream: whether each fits, whether one of the two kinds has a wrong length, whether there is a second
// record, and the first.
#[derive(Clone, Copy)]
pub struct Seen {
    pub fits: bool,
    pub wrong_length: bool,
    pub second_record: bool,
    pub record: Record,
    pub embedded: [LayerIndex; 63],
}

// What is found in them: all that is seen but the embedded layers of the first record, and in their place where its descriptor ends, since an extension's
// list are its last bytes. A walk keeps this, which is small, and whoever wants the list takes it from the bytes.
#[derive(Clone, Copy)]
pub struct Found {
    pub fits: bool,
    pub wrong_length: bool,
    pub second_record: bool,
    pub record: Record,
    pub end: usize,
}

// What makes a stream a layer, if anything does, and the set of the layers that it names.
#[derive(Clone, Copy)]
pub struct Named {
    pub record: Record,
    pub names: u64,
}

// Of a stream whose descriptors are not looked into.
pub fn nothing_seen() -> Seen
    ensures { result ≡ nothing_seen }
{
    Seen {
        fits: true,
        wrong_length: false,
        second_record: false,
        record: Record::NoRecord,
        embedded: no_layers(),
    }
}

pub fn nothing_found() -> Found
    ensures { result ≡ nothing_found }
{
    Found {
        fits: true,
        wrong_length: false,
        second_record: false,
        record: Record::NoRecord,
        end: 0,
    }
}

// The payload of a descriptor with tag 63 in the 2015 reading.
fn look_at_extension(payload: &[u8]) -> Look
    ensures { result ≡ look_of (extension_kind payload.now) }
{
    if payload.len() == 0 {
        return Look::Skipped;
    }
    if payload[0] != 0x06 {
        return Look::Skipped;
    }
    if payload.len() < 7 {
        return Look::WrongLength;
    }
    let extension = read_extension(payload);
    if payload.len() != 7 + usize::from(extension.num_embedded_layers) {
        return Look::WrongLength;
    }
    Look::Extension(extension)
}

// One descriptor of a known stream, by its tag.
fn look_at(reading: Reading, tag: u8, payload: &[u8]) -> Look
    ensures { result ≡ look_of (payload_kind reading tag payload.now) }
{
    if tag == 4 {
        if payload.len() != 4 {
            return Look::WrongLength;
        }
        return Look::Hierarchy(read_hierarchy(reading, payload));
    }
    if tag != 63 {
        return Look::Skipped;
    }
    match reading {
        Reading::Edition2009 => Look::Skipped,
        Reading::Edition2015 => look_at_extension(payload),
    }
}

fn unfit(found: Found) -> Found
    ensures { result ≡ unfit_found found }
{
    Found {
        fits: false,
        ..found
    }
}

fn with_second(found: Found) -> Found
    ensures { result ≡ second_found found }
{
    Found {
        second_record: true,
        ..found
    }
}

fn with_wrong_length(found: Found) -> Found
    ensures { result ≡ wrong_length_found found }
{
    Found {
        wrong_length: true,
        ..found
    }
}

// A record more, and where its descriptor ends: the first is kept, another is the second.
fn with_record(found: Found, record: Record, end: usize) -> Found
    ensures { result ≡ record_found found «record» end }
{
    let first = found.record;
    match first {
        Record::NoRecord => Found {
            record,
            end,
            ..found
        },
        Record::Hierarchy(_) | Record::Extension(_) | Record::Implied => with_second(found),
    }
}

fn with_look(found: Found, look: Look, end: usize) -> Found
    ensures { result ≡ look_found found look end }
{
    match look {
        Look::Skipped => found,
        Look::WrongLength => with_wrong_length(found),
        Look::Hierarchy(hierarchy) => with_record(found, Record::Hierarchy(hierarchy), end),
        Look::Extension(extension) => with_record(found, Record::Extension(extension), end),
    }
}

// Every descriptor of a stream that the reading knows.
pub fn find_records(reading: Reading, info: &[u8]) -> Found
    ensures { (seen_by info.now result ≡ seen_of reading info.now) × Within info.now result.«record» result.end }
{
    let mut found = nothing_found();
    let mut at = 0;
    while at < info.len() {
        let left = &info[at..];
        let Some(first) = first_descriptor(left) else {
            return unfit(found);
        };
        let end = first.end;
        let look = look_at(reading, first.tag, &left[2..end]);
        at += end;
        found = with_look(found, look, at);
    }
    found
}

// The embedded layers of a record whose descriptor ends at `end`; a hierarchy record has none beside it.
fn layers_before(record: Record, end: usize, info: &[u8]) -> [LayerIndex; 63]
    requires { Within info.now «record» end }
    ensures { result ≡ pad_to 63 no_layer (list_before info.now «record» end) }
{
    match record {
        Record::NoRecord | Record::Hierarchy(_) | Record::Implied => no_layers(),
        Record::Extension(extension) => {
            let start = end - usize::from(extension.num_embedded_layers);
            read_embedded(&info[start..end])
        }
    }
}

// What is seen of a stream that the reading knows, with the embedded layers.
pub fn look_through(reading: Reading, info: &[u8]) -> Seen
    ensures { result ≡ seen_of reading info.now }
{
    let found = find_records(reading, info);
    let record = found.record;
    Seen {
        fits: found.fits,
        wrong_length: found.wrong_length,
        second_record: found.second_record,
        record,
        embedded: layers_before(record, found.end, info),
    }
}

// Of a stream whose descriptors are not looked into, and of a descriptor that is no record.
pub fn nothing_named() -> Named
    ensures { NamedIn result [] }
{
    Named {
        record: Record::NoRecord,
        names: 0,
    }
}

// One descriptor, if it is a record. The list of an extension stands behind the seven bytes of its fields.
fn named_at(reading: Reading, tag: u8, payload: &[u8]) -> Named
    ensures { NamedIn result (held_in (payload_kind reading tag payload.now)) }
{
    match look_at(reading, tag, payload) {
        Look::Skipped | Look::WrongLength => nothing_named(),
        Look::Hierarchy(hierarchy) => Named {
            record: Record::Hierarchy(hierarchy),
            names: names_of_hierarchy(hierarchy),
        },
        Look::Extension(extension) => Named {
            record: Record::Extension(extension),
            names: names_in_list(&payload[7..]),
        },
    }
}

// What makes a stream that the reading knows a layer, if anything does: its first record, behind which nothing is looked at. A record that stands in the bytes
// is not implied, so that this holds whatever the stream's type.
pub fn name_layers(reading: Reading, info: &[u8]) -> Named
    ensures { NamedBy result (seen_of reading info.now) }
{
    let mut at = 0;
    while at < info.len() {
        let left = &info[at..];
        let Some(first) = first_descriptor(left) else {
            return nothing_named();
        };
        let end = first.end;
        let named = named_at(reading, first.tag, &left[2..end]);
        let record = named.record;
        if is_layer(record) {
            return named;
        }
        at += end;
    }
    nothing_named()
}
