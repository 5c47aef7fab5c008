// The lines of the program `points`, laid into a buffer: every operation point with its target_ols, its highest temporal sub-layer, its rates and its streams, or the refusal.
#![tactic(auto)]

ghost use Rattle.std.specs.Prelude.{[], ◌≡◌};
ghost use Rattle.text.specs.Text.{Laid};
ghost use Rattle.operation_points.specs.Values.{frame_rate_of, bit_rate_of, point_value};
ghost use Rattle.point_lines.specs.Lines.{front_text, frame_text, rate_text, rates_text, closed_text, members_text, streams_text, point_line};

use listing::put_labelled;
use operation_points::Point;

// Which point it is, of which output layer set, and up to which temporal sub-layer.
fn put_front(out: &mut [u8], at: usize, index: u64, target_ols: u8, temporal_id: u8) -> usize
    ensures { Laid out.old at (front_text index target_ols temporal_id) result out.new }
{
    let mut place = put_labelled(out, at, b"point ", index);
    place = put_labelled(out, place, b" target_ols ", u64::from(target_ols));
    put_labelled(out, place, b" temporal_id ", u64::from(temporal_id))
}

// The frame rate: what its number says is told by constant_frame_rate_info_idc.
fn put_frame_rate(out: &mut [u8], at: usize, idc: u8, indicator: u16) -> usize
    ensures { Laid out.old at (frame_text (frame_rate_of idc indicator)) result out.new }
{
    if idc == 0 {
        return text::put(out, at, b" frame_rate none");
    }
    if idc == 1 {
        return put_labelled(out, at, b" frame_ticks ", u64::from(indicator));
    }
    if idc == 2 {
        return put_labelled(out, at, b" frame_rate ", u64::from(indicator));
    }
    let place = put_labelled(out, at, b" frame_rate ", u64::from(indicator));
    text::put(out, place, b"/1.001")
}

// A bit rate behind its label, or that there is none.
fn put_rate(out: &mut [u8], at: usize, label: &[u8], there: bool, number: u32) -> usize
    ensures { Laid out.old at (rate_text label.now (bit_rate_of there number)) result out.new }
{
    if there {
        return put_labelled(out, at, label, u64::from(number));
    }
    let place = text::put(out, at, label);
    text::put(out, place, b"none")
}

// The frame rate and both bit rates.
fn put_rates(out: &mut [u8], at: usize, point: Point) -> usize
    ensures { Laid out.old at (rates_text (point_value point [])) result out.new }
{
    let mut place = put_frame_rate(
        out,
        at,
        point.constant_frame_rate_info_idc,
        point.frame_rate_indicator,
    );
    place = put_rate(
        out,
        place,
        b" average ",
        point.avg_bit_rate_info_flag,
        point.avg_bit_rate,
    );
    put_rate(
        out,
        place,
        b" maximum ",
        point.max_bit_rate_info_flag,
        point.max_bit_rate,
    )
}

// Whether the stream list is closed under embedding.
fn put_closed(out: &mut [u8], at: usize, closed: bool) -> usize
    ensures { Laid out.old at (closed_text closed) result out.new }
{
    if closed {
        return text::put(out, at, b" closed yes");
    }
    text::put(out, at, b" closed no")
}

// The members of a stream list in its order.
fn put_members(out: &mut [u8], at: usize, streams: &[u8]) -> usize
    ensures { Laid out.old at (members_text streams.now) result out.new }
{
    let mut place = text::put(out, at, b"");
    for stream in streams {
        place = put_labelled(out, place, b" ", u64::from(*stream));
    }
    place
}

fn put_streams(out: &mut [u8], at: usize, streams: &[u8]) -> usize
    ensures { Laid out.old at (streams_text streams.now) result out.new }
{
    if streams.len() == 0 {
        return text::put(out, at, b" streams none");
    }
    let place = text::put(out, at, b" streams");
    put_members(out, place, streams)
}

// The line of one point. Its references and its layer flags are not told.
pub fn put_point(
    out: &mut [u8],
    at: usize,
    index: u64,
    point: Point,
    closed: bool,
    streams: &[u8],
) -> usize
    ensures { Laid out.old at (point_line index (point_value point []) closed streams.now) result out.new }
{
    let mut place = put_front(
        out,
        at,
        index,
        point.target_ols,
        point.applicable_temporal_id,
    );
    place = put_rates(out, place, point);
    place = put_closed(out, place, closed);
    place = put_streams(out, place, streams);
    text::put(out, place, b"\n")
}
