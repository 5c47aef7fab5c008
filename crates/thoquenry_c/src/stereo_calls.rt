// The stereo set: read from a loop's bytes, and written with its loop.
ghost use Rattle.std.specs.Prelude.{◌≡◌};
ghost use Rattle.thoquenry_stereo.specs.Reading.{read_stereo};
ghost use Rattle.thoquenry_stereo.specs.Writing.{write_stereo};

#[unsafe(no_mangle)]
pub extern "C" fn thq_read_stereo(bytes: &[u8], entries: &mut [u16], extensions: &mut [u16]) -> u64
    ensures answer { result ≡ (read_stereo bytes.now entries.old extensions.old).answer }
    ensures rows { entries.new ≡ (read_stereo bytes.now entries.old extensions.old).entries }
    ensures beside { extensions.new ≡ (read_stereo bytes.now entries.old extensions.old).extensions }
{
    thoquenry_stereo::thq_read_stereo(bytes, entries, extensions)
}

#[unsafe(no_mangle)]
pub extern "C" fn thq_write_stereo(entries: &[u16], extensions: &[u16], out: &mut [u8]) -> u64
    ensures answer { result ≡ (write_stereo entries.now extensions.now out.old).answer }
    ensures content { out.new ≡ (write_stereo entries.now extensions.now out.old).buffer }
{
    thoquenry_stereo::thq_write_stereo(entries, extensions, out)
}
