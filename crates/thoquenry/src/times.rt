// The times of a PES header, and whether a TREF stands in it, read and written.
ghost use Rattle.std.specs.Prelude.{◌≡◌};
ghost use Rattle.thoquenry.specs.Times.{bit_of, read_times, write_times};

use c_answers::{accepted, refused};
use pes::Times;
use vocabulary::Refusal;

pub fn thq_read_times(bytes: &[u8], times: &mut [u64]) -> u64
    ensures answer { result ≡ (read_times bytes.now times.old).answer }
    ensures content { times.new ≡ (read_times bytes.now times.old).buffer }
{
    if times.len() < 5 {
        return refused(Refusal::NoRoom);
    }
    let read = pes::read(bytes);
    match read {
        Ok(header) => {
            times[0] = header.times.pts;
            times[1] = header.times.decoding;
            times[2] = header.times.matching;
            times[3] = u64::from(header.tref_sent);
            times[4] = header.end as u64;
            accepted(5)
        }
        Err(refusal) => refused(refusal),
    }
}

pub fn thq_write_times(
    pts: u64,
    decoding: u64,
    matching: u64,
    with_tref: u64,
    out: &mut [u8],
) -> u64
    ensures answer { result ≡ (write_times pts decoding matching with_tref out.old).answer }
    ensures content { out.new ≡ (write_times pts decoding matching with_tref out.old).buffer }
{
    if 1 < with_tref {
        return refused(Refusal::TooWide);
    }
    let times = Times {
        pts,
        decoding,
        matching,
    };
    let written = pes::write(times, with_tref == 1, out);
    match written {
        Ok(count) => accepted(count),
        Err(refusal) => refused(refusal),
    }
}
