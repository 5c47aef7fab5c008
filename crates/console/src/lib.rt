#![tactic(auto)]
// What the programs share at their edge: an input that is read, or told from one that cannot be; and what a recording looks like, where a loop
// was expected.
ghost use Rattle.std.specs.Prelude.{◌≡◌, ◌<◌, IfOk, length, take};
ghost use Rattle.std.specs.Io.KnownBytes.{Consumes, IsAtEnd};
ghost use Rattle.console.specs.Inputs.{Counted, looks_like_packets};

use std::io;
use std::io::Read;

// Reads until the buffer is full, the input ends or a read fails, and answers how many bytes stand at the start of the buffer then. A read that
// a signal interrupts has failed. Not `read_exact` or `read_to_end`: these say little after an Err, and the second allocates.
pub fn read_input<R: Read>(reader: &mut R, buf: &mut [u8]) -> io::Result<usize>
    ensures counted { Counted result buf.new }
    ensures bytes { IfOk result (λ n. Consumes (R.remaining reader.old) (R.remaining reader.new) (take n buf.new)) }
    ensures end { IfOk result (λ n. n < length buf.new → IsAtEnd (R.remaining reader.new)) }
{
    let mut done = 0;
    while done < buf.len() {
        let more = reader.read(&mut buf[done..])?;
        if more == 0 {
            return Ok(done);
        }
        done += more;
    }
    Ok(done)
}

// The first byte of each packet of a transport stream.
const SYNC_BYTE: u8 = 0x47;

// Whether bytes look like a recording: one transport packet at least, and the sync byte at every packet's start.
pub fn looks_like_packets(bytes: &[u8]) -> bool
    ensures { result ≡ looks_like_packets bytes.now }
{
    if bytes.len() < 188 {
        return false;
    }
    let packets = (bytes.len() - 1) / 188 + 1;
    for k in 0..packets {
        if bytes[k * 188] != SYNC_BYTE {
            return false;
        }
    }
    true
}

#[cfg(test)]
mod tests {
    use super::*;
    use std::io::ErrorKind;

    // Gives one byte at each of two reads, and then fails.
    #[derive(Drop)]
    struct Torn {
        left: u8,
    }

    impl Read for Torn {
        fn read(&mut self, buf: &mut [u8]) -> io::Result<usize> {
            if self.left == 0 {
                return Err(io::Error::from(ErrorKind::ConnectionReset));
            }
            if buf.is_empty() {
                return Ok(0);
            }
            self.left -= 1;
            buf[0] = b't';
            Ok(1)
        }
    }

    #[test]
    fn reads_to_the_end_or_the_room(rt: HostRuntime) {
        for (given, room, want) in [(3, 8, 3), (8, 8, 8), (9, 8, 8), (0, 8, 0), (9, 0, 0)] {
            let bytes = *b"packets..";
            let mut reader = &bytes[..given];
            let mut buffer = [0u8; 8];
            let count = read_input(&mut reader, &mut buffer[..room]);
            assert_eq!(rt; count.ok(), Some(want), "of {given} into {room}");
            assert!(rt; buffer[..want] == bytes[..want]);
            assert_eq!(rt; reader.len(), given - want);
        }
    }

    #[test]
    fn a_read_that_fails_is_told(rt: HostRuntime) {
        let mut buffer = [0u8; 8];
        let failed = read_input(&mut Torn { left: 2 }, &mut buffer);
        assert_eq!(rt;
            failed.map_err(|e| e.kind()),
            Err(ErrorKind::ConnectionReset)
        );
        let full = read_input(&mut Torn { left: 2 }, &mut buffer[..2]);
        assert_eq!(rt; full.map_err(|e| e.kind()), Ok(2));
    }
}
