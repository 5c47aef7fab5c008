// The MVC extension descriptor (tag 49) among the descriptors of a stream: found where exactly one stands there and has its length of 8, and written with its
// head. `mvc_extension` has the record; which streams are looked into, the crates above decide.
#![tactic(auto)]

ghost use Rattle.std.specs.Prelude.{◌≡◌, true};
ghost use Rattle.combinators.specs.Lists.{gather};
ghost use Rattle.buffers.specs.Buffers.{Laid};
ghost use Rattle.syntax.specs.Table.{fits};
ghost use Rattle.syntax.specs.Filled.{bytes_in};
ghost use Rattle.mvc_extension.specs.MvcExtension.{mvc_extension_descriptor, mvc_extension_fields};
ghost use Rattle.mvc_descriptors.specs.Finding.{found_first, found_next, found_by, extension_in};
ghost use Rattle.mvc_descriptors.specs.Tables.{mvc_extension_tables};

use descriptor_heads::{descriptor_head, first_descriptor};
use mvc_extension::{MvcExtension, mvc_extension_payload, read_mvc_extension};

pub const MVC_EXTENSION_TAG: u8 = 49;

// The bytes of its payload.
pub const MVC_EXTENSION_LENGTH: u8 = 8;

// What the descriptors of a stream have of it: none, exactly one of the right length, or anything else.
#[derive(Clone, Copy)]
pub enum Found {
    Missing,
    One(MvcExtension),
    Wrong,
}

// The first one.
fn found_first(payload: &[u8]) -> Found
    ensures { result ≡ found_first payload.now }
{
    if payload.len() != 8 {
        return Found::Wrong;
    }
    Found::One(read_mvc_extension(payload))
}

// One more: another than the first is wrong, whatever its length.
fn found_next(found: Found, payload: &[u8]) -> Found
    ensures { result ≡ found_next found payload.now }
{
    match found {
        Found::Missing => found_first(payload),
        Found::One(_) | Found::Wrong => Found::Wrong,
    }
}

// One descriptor more, of whatever tag.
fn found_by(found: Found, tag: u8, payload: &[u8]) -> Found
    ensures { result ≡ found_by found tag payload.now }
{
    if tag == MVC_EXTENSION_TAG {
        return found_next(found, payload);
    }
    found
}

// The descriptor bytes of a stream. What does not fit in them is none.
pub fn find_extension(info: &[u8]) -> Found
    ensures { result ≡ extension_in info.now }
{
    let mut found = Found::Missing;
    let mut at = 0;
    while at < info.len() {
        let left = &info[at..];
        let Some(first) = first_descriptor(left) else {
            return found;
        };
        let end = first.end;
        found = found_by(found, first.tag, &left[2..end]);
        at += end;
    }
    found
}

// The whole descriptor laid into `out` from place `at` on.
pub fn put_mvc_extension(out: &mut [u8], at: usize, extension: MvcExtension) -> usize
    requires { fits mvc_extension_descriptor (mvc_extension_fields extension) ≡ true }
    ensures { Laid out.old at (gather bytes_in (mvc_extension_tables extension)) result out.new }
{
    let head = descriptor_head(MVC_EXTENSION_TAG, MVC_EXTENSION_LENGTH);
    let payload = mvc_extension_payload(extension);
    let next = buffers::put(out, at, &head);
    buffers::put(out, next, &payload)
}
