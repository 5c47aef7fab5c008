// What is printed: for a refusal its number and place, for an accepted loop every entry with each field of its record.
use cases::{say, say_number};
use descriptors::{ExtensionRecord, HierarchyRecord, Record};
use es_loop::{Entry, LoopRead, MOST_ENTRIES};
use std::io::{Result, Write};
use vocabulary::{LayerIndex, Refusal};

// A flag is 1 or 0.
fn say_flag<W: Write>(out: &mut W, name: &[u8], value: bool) -> Result<()> {
    say_number(out, name, u8::from(value))
}

fn print_hierarchy<W: Write>(out: &mut W, hierarchy: HierarchyRecord) -> Result<()> {
    say(out, b" hierarchy")?;
    say_flag(out, b" no_view ", hierarchy.no_view)?;
    say_flag(out, b" no_temporal ", hierarchy.no_temporal)?;
    say_flag(out, b" no_spatial ", hierarchy.no_spatial)?;
    say_flag(out, b" no_quality ", hierarchy.no_quality)?;
    say_number(out, b" type ", hierarchy.hierarchy_type)?;
    say_number(out, b" index ", hierarchy.layer_index.0)?;
    say_flag(out, b" tref ", hierarchy.tref_present_flag)?;
    say_number(out, b" embedded ", hierarchy.embedded_layer_index.0)?;
    say_number(out, b" channel ", hierarchy.channel.0)
}

fn print_extension<W: Write>(out: &mut W, extension: ExtensionRecord) -> Result<()> {
    say(out, b" extension")?;
    say_number(out, b" dimensions ", extension.dimension_bits)?;
    say_number(out, b" index ", extension.layer_index.0)?;
    say_number(out, b" temporal_id ", extension.temporal_id.0)?;
    say_number(out, b" nuh_layer_id ", extension.nuh_layer_id.0)?;
    say_flag(out, b" tref ", extension.tref_present_flag)?;
    say_number(out, b" channel ", extension.channel.0)
}

// The list of an extension, as many as it counts.
fn print_embedded<W: Write>(out: &mut W, count: u8, embedded: [LayerIndex; 63]) -> Result<()> {
    say(out, b" embedded")?;
    for index in embedded.iter().take(usize::from(count)) {
        say_number(out, b" ", index.0)?;
    }
    Ok(())
}

fn print_entry<W: Write>(out: &mut W, entry: Entry) -> Result<()> {
    let record = entry.record;
    let embedded = entry.embedded;
    say_number(out, b"  type ", entry.stream_type)?;
    say_number(out, b" pid ", entry.pid)?;
    match record {
        Record::NoRecord => say(out, b" no record")?,
        Record::Hierarchy(hierarchy) => print_hierarchy(out, hierarchy)?,
        Record::Extension(extension) => {
            print_extension(out, extension)?;
            print_embedded(out, extension.num_embedded_layers, embedded)?;
        }
        Record::Implied => say(out, b" implied")?,
    }
    say(out, b"\n")
}

fn print_entries<W: Write>(
    out: &mut W,
    count: usize,
    entries: [Entry; MOST_ENTRIES],
) -> Result<()> {
    for entry in entries.iter().take(count) {
        print_entry(out, *entry)?;
    }
    Ok(())
}

fn print_refusal<W: Write>(out: &mut W, refusal: Refusal) -> Result<()> {
    say_number(out, b"refused ", vocabulary::number(refusal))?;
    say_number(out, b" entry ", vocabulary::place(refusal))?;
    say(out, b"\n")
}

// The whole answer for one loop.
pub fn print<W: Write>(out: &mut W, read: LoopRead) -> Result<()> {
    match read.outcome {
        Ok(()) => {
            say_number(out, b"accepted ", read.count)?;
            say(out, b"\n")?;
            print_entries(out, read.count, read.entries)
        }
        Err(refusal) => print_refusal(out, refusal),
    }
}
