// Writes the sample loops from their values, and prints each as hexadecimal bytes, or its refusal. What it prints is held to the file
// 'stdout', which has the samples' own bytes.
#![tactic(auto)]

mod entries;
mod shown;

use descriptors::Record;
use entries::{base, enhancement, extension, undescribed, view};
use es_loop::{Entry, blank_entries};
use std::io::{self, Result, Write};

// The most bytes that a loop has.
const LOOP_BYTES: usize = 1008;

fn write<W: Write>(out: &mut W, name: &[u8], entries: &[Entry]) -> Result<()> {
    let mut list = blank_entries();
    for (place, entry) in list.iter_mut().zip(entries) {
        *place = *entry;
    }
    let mut buffer = [0u8; LOOP_BYTES];
    let written = loop_writer::write_loop(entries.len(), list, &mut buffer);
    shown::show(out, name, written, &buffer)
}

// Document 01's loop A: AVC base, SVC spatial enhancement, HEVC extension.
fn loop_a<W: Write>(out: &mut W) -> Result<()> {
    let entries = [
        base(0x1B, 0x100),
        enhancement(0x1F, 0x101, 1, 1, 0, 1),
        extension(0x28, 0x102, 2, 2, 0, 1, true, 2, &[0]),
    ];
    write(out, b"loop-a", &entries)
}

// A base view and two MVC views.
fn mvc<W: Write>(out: &mut W) -> Result<()> {
    let entries = [
        base(0x1B, 0x110),
        enhancement(0x20, 0x111, 9, 1, 0, 1),
        enhancement(0x20, 0x112, 9, 2, 1, 1),
    ];
    write(out, b"mvc", &entries)
}

// Two views of HEVC, each with a temporal layer above its base.
fn mv_hevc<W: Write>(out: &mut W) -> Result<()> {
    let entries = [
        base(0x24, 0x100),
        enhancement(0x25, 0x101, 3, 1, 0, 1),
        extension(0x28, 0x102, 1, 2, 0, 1, false, 2, &[0]),
        extension(0x29, 0x103, 9, 3, 1, 1, false, 3, &[1, 2]),
        extension(0x28, 0x104, 1, 4, 0, 2, false, 4, &[0]),
        extension(0x29, 0x105, 9, 5, 1, 2, false, 5, &[1, 4]),
    ];
    write(out, b"mv-hevc", &entries)
}

// A base view, eleven views that each rest on it, and a layer that rests on all twelve.
fn twelve<W: Write>(out: &mut W) -> Result<()> {
    let entries = [
        base(0x24, 0x100),
        view(0x101, 1, &[0]),
        view(0x102, 2, &[0]),
        view(0x103, 3, &[0]),
        view(0x104, 4, &[0]),
        view(0x105, 5, &[0]),
        view(0x106, 6, &[0]),
        view(0x107, 7, &[0]),
        view(0x108, 8, &[0]),
        view(0x109, 9, &[0]),
        view(0x10A, 10, &[0]),
        view(0x10B, 11, &[0]),
        view(0x10C, 12, &[0, 1, 2, 3, 4, 5, 6, 7, 8, 9, 10, 11]),
    ];
    write(out, b"twelve", &entries)
}

// Two views without a hierarchy descriptor, and an audio stream between them.
fn sports<W: Write>(out: &mut W) -> Result<()> {
    let entries = [
        undescribed(0x1B, 0x120, Record::Implied),
        undescribed(0x0F, 0x122, Record::NoRecord),
        undescribed(0x20, 0x121, Record::Implied),
    ];
    write(out, b"sports", &entries)
}

// An enhancement that rests on a layer which is not in the loop: that is no fault of the loop.
fn absent<W: Write>(out: &mut W) -> Result<()> {
    let entries = [base(0x1B, 0x100), enhancement(0x1F, 0x102, 2, 2, 1, 2)];
    write(out, b"absent", &entries)
}

// A layer that names its own index.
fn refused<W: Write>(out: &mut W) -> Result<()> {
    let entries = [base(0x1B, 0x100), enhancement(0x1F, 0x101, 1, 1, 1, 1)];
    write(out, b"refused", &entries)
}

fn main(rt: HostRuntime) -> Result<()> {
    let mut out = io::writer(&rt);
    loop_a(&mut out)?;
    mvc(&mut out)?;
    mv_hevc(&mut out)?;
    twelve(&mut out)?;
    sports(&mut out)?;
    absent(&mut out)?;
    refused(&mut out)
}
