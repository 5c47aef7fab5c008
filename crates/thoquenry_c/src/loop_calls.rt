// A loop read and written as rows of numbers, and the closure of a target.
ghost use Rattle.std.specs.Prelude.{◌≡◌};
ghost use Rattle.thoquenry.specs.Loops.{read_loop, write_loop, closure_call};

#[unsafe(no_mangle)]
pub extern "C" fn thq_read_loop(reading: u64, bytes: &[u8], entries: &mut [u16]) -> u64
    ensures answer { result ≡ (read_loop reading bytes.now entries.old).answer }
    ensures content { entries.new ≡ (read_loop reading bytes.now entries.old).buffer }
{
    thoquenry::thq_read_loop(reading, bytes, entries)
}

#[unsafe(no_mangle)]
pub extern "C" fn thq_write_loop(entries: &[u16], out: &mut [u8]) -> u64
    ensures answer { result ≡ (write_loop entries.now out.old).answer }
    ensures content { out.new ≡ (write_loop entries.now out.old).buffer }
{
    thoquenry::thq_write_loop(entries, out)
}

#[unsafe(no_mangle)]
pub extern "C" fn thq_closure(reading: u64, bytes: &[u8], target: u64, set: &mut [u64]) -> u64
    ensures answer { result ≡ (closure_call reading bytes.now target set.old).answer }
    ensures content { set.new ≡ (closure_call reading bytes.now target set.old).buffer }
{
    thoquenry::thq_closure(reading, bytes, target, set)
}
