// The two readings, the stream types that each knows, and the hierarchy types by stream.
ghost use Rattle.std.specs.Prelude.{◌≡◌};
ghost use Rattle.vocabulary.specs.StreamTypes.{known, may_stand_on};

// The stations that know the stream types of 2009 (source 001), and those that know the types of 2015 (source 000).
#[derive(Clone, Copy)]
pub enum Reading {
    Edition2009,
    Edition2015,
}

// Whether a reading looks into the descriptors of a stream of this type.
pub fn knows(reading: Reading, stream_type: u8) -> bool
    ensures { result ≡ known reading stream_type }
{
    match reading {
        Reading::Edition2009 => match stream_type {
            0x1B | 0x1F | 0x20 => true,
            _ => false,
        },
        Reading::Edition2015 => match stream_type {
            0x1B | 0x1F | 0x20 | 0x24 | 0x25 => true,
            0x28..=0x2B => true,
            _ => false,
        },
    }
}

// The stream types that a hierarchy type may stand on, for all 16 values: bit t stands for stream type t.
const STREAM_TYPES: [u64; 16] = [
    0,
    0xF30_8800_0000,
    0xF30_8800_0000,
    0xF30_8800_0000,
    0xF30_8800_0000,
    0xF30_8800_0000,
    0xF30_8800_0000,
    0xF30_8800_0000,
    0xF30_8800_0000,
    0x1_0000_0000,
    0,
    0,
    0,
    0,
    0,
    0x10_0800_0000,
];

// Whether a record of this hierarchy type may stand on a stream of this type.
pub fn may_stand_on(hierarchy_type: u8, stream_type: u8) -> bool
    ensures { result ≡ may_stand_on hierarchy_type stream_type }
{
    if 16 <= hierarchy_type {
        return false;
    }
    if 64 <= stream_type {
        return false;
    }
    (STREAM_TYPES[hierarchy_type as usize] >> stream_type) % 2 == 1
}
