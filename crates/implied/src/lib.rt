// Two views and no hierarchy descriptor: the rule that makes a loop's only 0x1B and only 0x20 layers, where neither has a hierarchy descriptor. The
// reader and the writer of a loop walk through the entries once for it, and keep no more than three bits of them.
#![tactic(auto)]

ghost use Rattle.std.specs.Prelude.{◌≡◌};
ghost use Rattle.implied.specs.Rule.{is_view, given};
ghost use Rattle.implied.specs.Walking.{no_views, avc_next, mvc_next, view_next, is_pair};
ghost use Rattle.implied.specs.Marking.{is_described, with_mark, marked_record, marked_seen, with_names, marked_named};

use descriptors::{Named, Record, Seen};

// What is kept of the entries so far: whether there was a 0x1B, whether there was a 0x20, and whether there was a second of either or one with a
// hierarchy descriptor.
#[derive(Clone, Copy)]
pub struct Views {
    pub avc: bool,
    pub mvc: bool,
    pub spoiled: bool,
}

// Before any entry.
pub fn no_views() -> Views
    ensures { result ≡ no_views }
{
    Views {
        avc: false,
        mvc: false,
        spoiled: false,
    }
}

// The types that the rule looks at.
pub fn is_view(stream_type: u8) -> bool
    ensures { result ≡ is_view stream_type }
{
    (stream_type == 0x1B) | (stream_type == 0x20)
}

fn avc_next(views: Views, described: bool) -> Views
    ensures { result ≡ avc_next views described }
{
    Views {
        avc: true,
        spoiled: views.spoiled | views.avc | described,
        ..views
    }
}

fn mvc_next(views: Views, described: bool) -> Views
    ensures { result ≡ mvc_next views described }
{
    Views {
        mvc: true,
        spoiled: views.spoiled | views.mvc | described,
        ..views
    }
}

// One entry more. Of one that is no view nothing is kept.
pub fn view_next(views: Views, stream_type: u8, described: bool) -> Views
    ensures { result ≡ view_next views (record { type = stream_type; described = described }) }
{
    if stream_type == 0x1B {
        return avc_next(views, described);
    }
    if stream_type == 0x20 {
        return mvc_next(views, described);
    }
    views
}

// Whether the entries so far are to have implied layers.
pub fn is_pair(views: Views) -> bool
    ensures { result ≡ is_pair views }
{
    views.avc & views.mvc & !views.spoiled
}

// Whether a record is a hierarchy descriptor.
pub fn is_described(record: Record) -> bool
    ensures { result ≡ is_described «record» }
{
    matches!(record, Record::Hierarchy(_))
}

// Whether a stream of this type has the implied mark, given whether its loop has the pair.
pub fn gives(pair: bool, stream_type: u8) -> bool
    ensures { result ≡ given pair stream_type }
{
    is_view(stream_type) & pair
}

fn with_mark(record: Record) -> Record
    ensures { result ≡ with_mark «record» }
{
    match record {
        Record::NoRecord | Record::Implied => Record::Implied,
        Record::Hierarchy(_) | Record::Extension(_) => record,
    }
}

// A record with its mark, where it has one.
pub fn mark(pair: bool, stream_type: u8, record: Record) -> Record
    ensures { result ≡ marked_record pair stream_type «record» }
{
    if gives(pair, stream_type) {
        return with_mark(record);
    }
    record
}

// What is seen of a stream, with its mark.
pub fn mark_seen(pair: bool, stream_type: u8, seen: Seen) -> Seen
    ensures { result ≡ marked_seen pair stream_type seen }
{
    let record = seen.record;
    Seen {
        record: mark(pair, stream_type, record),
        ..seen
    }
}

fn with_names(stream_type: u8, named: Named) -> Named
    ensures { result ≡ with_names stream_type named.«record» named }
{
    let record = named.record;
    match record {
        Record::NoRecord => Named {
            record: Record::Implied,
            names: descriptors::implied_names(stream_type),
        },
        Record::Hierarchy(_) | Record::Extension(_) | Record::Implied => named,
    }
}

// A stream's record and the layers that it names, with its mark.
pub fn mark_named(pair: bool, stream_type: u8, named: Named) -> Named
    ensures { result ≡ marked_named pair stream_type named }
{
    if gives(pair, stream_type) {
        return with_names(stream_type, named);
    }
    named
}
