// What is printed: for a refusal its number and place, for a stereo set both views, the base first, each with the fields of its entry and of its MVC
// extension descriptor.
use descriptors::{HierarchyRecord, Record};
use es_loop::Entry;
use mvc_extension::MvcExtension;
use std::io::{Result, Write};
use stereo_set::StereoRead;
use vocabulary::Refusal;

fn print_hierarchy<W: Write>(out: &mut W, hierarchy: HierarchyRecord) -> Result<()> {
    let no_view = u8::from(hierarchy.no_view);
    let no_temporal = u8::from(hierarchy.no_temporal);
    let no_spatial = u8::from(hierarchy.no_spatial);
    let no_quality = u8::from(hierarchy.no_quality);
    write!(
        out,
        " hierarchy no_view {no_view} no_temporal {no_temporal} no_spatial {no_spatial} no_quality {no_quality}"
    )?;
    write!(
        out,
        " type {} index {} tref {} embedded {} channel {}",
        hierarchy.hierarchy_type,
        hierarchy.layer_index.0,
        u8::from(hierarchy.tref_present_flag),
        hierarchy.embedded_layer_index.0,
        hierarchy.channel.0
    )
}

// No view of a stereo set has another record.
fn print_record<W: Write>(out: &mut W, record: Record) -> Result<()> {
    match record {
        Record::NoRecord => out.write_all(b" no record"),
        Record::Hierarchy(hierarchy) => print_hierarchy(out, hierarchy),
        Record::Extension(_) => out.write_all(b" extension"),
        Record::Implied => out.write_all(b" implied"),
    }
}

fn print_extension<W: Write>(out: &mut W, extension: MvcExtension) -> Result<()> {
    write!(
        out,
        " average {} maximum {} views {} to {} temporal_ids {} to {}",
        extension.average_bit_rate,
        extension.maximum_bitrate,
        extension.view_order_index_min,
        extension.view_order_index_max,
        extension.temporal_id_start,
        extension.temporal_id_end
    )?;
    write!(
        out,
        " no_sei {} no_prefix {}",
        u8::from(extension.no_sei_nal_unit_present),
        u8::from(extension.no_prefix_nal_unit_present)
    )
}

fn print_view<W: Write>(out: &mut W, entry: Entry, extension: MvcExtension) -> Result<()> {
    write!(out, "  type {} pid {}", entry.stream_type, entry.pid)?;
    print_record(out, entry.record)?;
    print_extension(out, extension)?;
    out.write_all(b"\n")
}

fn print_refusal<W: Write>(out: &mut W, refusal: Refusal) -> Result<()> {
    write!(
        out,
        "refused {} place {}\n",
        vocabulary::number(refusal),
        vocabulary::place(refusal)
    )
}

// The whole answer of reading.
pub fn print_read<W: Write>(out: &mut W, read: StereoRead) -> Result<()> {
    let outcome = read.outcome;
    match outcome {
        Ok(()) => {
            out.write_all(b"accepted\n")?;
            print_view(out, read.base, read.base_extension)?;
            print_view(out, read.second, read.second_extension)
        }
        Err(refusal) => print_refusal(out, refusal),
    }
}

// The answer of writing, as the function for C gives it, and the buffer to its end.
pub fn print_written<W: Write>(out: &mut W, answer: u64, buffer: &[u8]) -> Result<()> {
    let number = answer % 256;
    let count = answer / 256;
    if number == 0 {
        write!(out, "bytes {count}")?;
    } else {
        write!(out, "refused {number} place {count}")?;
    }
    out.write_all(b" leaves")?;
    for byte in buffer {
        write!(out, " {byte:02x}")?;
    }
    out.write_all(b"\n")
}
