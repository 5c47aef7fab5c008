// A recording, the columns that its rows are read into, and the lists that its units are written into: the lists that the functions for C are lent.
// The places of each column and of each list.
pub const PLACES: usize = 512;

// The elementary-stream loop of a recording, and its packets.
#[derive(Clone, Copy)]
pub struct Recording<'a> {
    pub streams: &'a [u8],
    pub packets: &'a [u8],
}

// The columns of rows.
#[derive(Clone, Copy, PartialEq, Eq)]
pub struct Rows {
    pub indices: [u8; PLACES],
    pub decodings: [u64; PLACES],
    pub matches: [u64; PLACES],
    pub trefs: [u8; PLACES],
    pub numbers: [u64; PLACES],
}

impl Rows {
    pub fn empty() -> Rows {
        Rows {
            indices: [0; PLACES],
            decodings: [0; PLACES],
            matches: [0; PLACES],
            trefs: [0; PLACES],
            numbers: [0; PLACES],
        }
    }

    // Reads the rows of all packets in one slice.
    pub fn read(&mut self, recording: Recording<'_>) -> u64 {
        thoquenry_packets::thq_packets_rows(
            recording.streams,
            recording.packets,
            &mut [0; PLACES],
            &mut self.indices,
            &mut self.decodings,
            &mut self.matches,
            &mut self.trefs,
            &mut self.numbers,
        )
    }
}

// The lists of an import: row numbers and lags, the sizes of the units, and the summary.
#[derive(Clone, Copy, PartialEq, Eq)]
pub struct Lists {
    pub numbers: [u64; PLACES],
    pub lags: [i64; PLACES],
    pub sizes: [u64; PLACES],
    pub summary: [u64; 2],
}

impl Lists {
    pub fn empty() -> Lists {
        Lists {
            numbers: [0; PLACES],
            lags: [0; PLACES],
            sizes: [0; PLACES],
            summary: [0; 2],
        }
    }

    // Imports all packets in one slice.
    pub fn import(&mut self, recording: Recording<'_>, target: u64) -> u64 {
        thoquenry_packet_imports::thq_packets_import(
            recording.streams,
            target,
            recording.packets,
            &mut self.numbers,
            &mut self.lags,
            &mut self.sizes,
            &mut self.summary,
        )
    }
}
