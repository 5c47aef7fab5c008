// The 33-bit clock on which PTS, DTS and TREF count: how far one time lies ahead of another, whether it lies before the other,
// and the lag between two times as a signed number. Times are taken modulo 2^33, so every u64 has an answer.
#![tactic(auto)]

ghost use Rattle.std.specs.Prelude.{◌≡◌};
ghost use Rattle.clock.specs.Clock.{distance_of, is_before, lag_of};

// The ticks of the clock, 2^33, after which it starts again, and half of them.
pub const TICKS: u64 = 8589934592;

pub const HALF: u64 = 4294967296;

// One turn of the clock, among signed numbers.
const TURN: i64 = 8589934592;

// The forward distance from one time to another, across the wrap of the clock: 2^64 is a multiple of the clock's 2^33 ticks, so
// the wrapped difference has the right remainder.
pub fn distance(from: u64, to: u64) -> u64
    ensures { result ≡ distance_of from to }
{
    std::num::wrapping_sub_u64(to, from) % TICKS
}

// Whether a time lies before another: the way forward from the other to it is half the clock or more.
pub fn before(time: u64, other: u64) -> bool
    ensures { result ≡ is_before time other }
{
    distance(other, time) >= HALF
}

// A time minus the target's time, taken into -2^32 to 2^32-1.
pub fn lag(time: u64, target: u64) -> i64
    ensures { result ≡ lag_of time target }
{
    let ahead = distance(target, time);
    if ahead < HALF {
        return ahead as i64;
    }
    (ahead as i64) - TURN
}
