// The times of a PES header, and whether a TREF stands in it, read and written.
ghost use Rattle.std.specs.Prelude.{◌≡◌};
ghost use Rattle.thoquenry.specs.Times.{read_times, write_times};

#[unsafe(no_mangle)]
pub extern "C" fn thq_read_times(bytes: &[u8], times: &mut [u64]) -> u64
    ensures answer { result ≡ (read_times bytes.now times.old).answer }
    ensures content { times.new ≡ (read_times bytes.now times.old).buffer }
{
    thoquenry::thq_read_times(bytes, times)
}

#[unsafe(no_mangle)]
pub extern "C" fn thq_write_times(
    pts: u64,
    decoding: u64,
    matching: u64,
    with_tref: u64,
    out: &mut [u8],
) -> u64
    ensures answer { result ≡ (write_times pts decoding matching with_tref out.old).answer }
    ensures content { out.new ≡ (write_times pts decoding matching with_tref out.old).buffer }
{
    thoquenry::thq_write_times(pts, decoding, matching, with_tref, out)
}
