// The lines of the program `units`, laid into a buffer: a unit, a row, a refusal.
#![tactic(auto)]

ghost use Rattle.std.specs.Prelude.{◌≤◌, ◌≡◌};
ghost use Rattle.std.specs.Int.Signed.{mag};
ghost use Rattle.text.specs.Text.{Laid};
ghost use Rattle.unit_lines.specs.Lines.{number_text, numbers_text, lag_text, lags_text, unit_line, row_line, refusal_line};

use listing::put_labelled;

// A row number of a unit, the i-th: a space stands before each but the first.
fn put_number(out: &mut [u8], at: usize, i: usize, number: u64) -> usize
    ensures { Laid out.old at (number_text i number) result out.new }
{
    if i == 0 {
        return text::put_decimal(out, at, number);
    }
    put_labelled(out, at, b" ", number)
}

fn put_numbers(out: &mut [u8], at: usize, numbers: &[u64]) -> usize
    ensures { Laid out.old at (numbers_text numbers.now) result out.new }
{
    let mut place = text::put(out, at, b"");
    for i in 0..numbers.len() {
        place = put_number(out, place, i, numbers[i]);
    }
    place
}

// A lag behind a space.
fn put_lag(out: &mut [u8], at: usize, lag: i64) -> usize
    ensures { Laid out.old at (lag_text lag) result out.new }
{
    if 0 <= lag {
        return put_labelled(out, at, b" ", lag as u64);
    }
    let beyond = -1 - lag;
    put_labelled(out, at, b" -", beyond as u64 + 1)
}

// Lags, each behind a space.
pub fn put_lags(out: &mut [u8], at: usize, lags: &[i64]) -> usize
    ensures { Laid out.old at (lags_text lags.now) result out.new }
{
    let mut place = text::put(out, at, b"");
    for i in 0..lags.len() {
        place = put_lag(out, place, lags[i]);
    }
    place
}

// The line of a unit: its row numbers, then its lags.
pub fn put_unit(out: &mut [u8], at: usize, numbers: &[u64], lags: &[i64]) -> usize
    ensures { Laid out.old at (unit_line numbers.now lags.now) result out.new }
{
    let mut place = put_numbers(out, at, numbers);
    place = put_lags(out, place, lags);
    text::put(out, place, b"\n")
}

// The line of a row.
pub fn put_row(
    out: &mut [u8],
    at: usize,
    number: u64,
    packet: u64,
    layer: u8,
    decoding: u64,
    match_time: u64,
    tref: u8,
) -> usize
    ensures { Laid out.old at (row_line number packet layer decoding match_time tref) result out.new }
{
    let mut place = text::put_decimal(out, at, number);
    place = put_labelled(out, place, b" ", packet);
    place = put_labelled(out, place, b" ", layer as u64);
    place = put_labelled(out, place, b" ", decoding);
    place = put_labelled(out, place, b" ", match_time);
    place = put_labelled(out, place, b" ", tref as u64);
    text::put(out, place, b"\n")
}

// The line of a refusal, which is all that is printed then.
pub fn put_refusal(out: &mut [u8], at: usize, number: u64, place: u64) -> usize
    ensures { Laid out.old at (refusal_line number place) result out.new }
{
    let mut next = put_labelled(out, at, b"refused ", number);
    next = put_labelled(out, next, b" place ", place);
    text::put(out, next, b"\n")
}
