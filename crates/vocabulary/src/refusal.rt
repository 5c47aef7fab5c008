// The refusals of documents 01 and 02, one named case for each number, with its place where the document names one.
ghost use Rattle.std.specs.Prelude.{◌≡◌};
ghost use Rattle.vocabulary.specs.Refusals.{number_of, place_of};

use super::LayerIndex;

#[derive(Clone, Copy)]
pub enum Refusal {
    LoopTooLong,
    DoesNotFit(usize),
    RepeatedPid(usize),
    WrongLength(usize),
    SecondRecord(usize),
    TypeNotAllowed(usize),
    WrongFlags(usize),
    RepeatedLayerIndex(usize),
    WrongEmbeddedIndex(usize),
    NoSuchLayer,
    EmbeddedLayerAbsent(LayerIndex),
    OutOfRange(usize),
    TimeOrderBroken(usize),
    Unpaired(usize),
    UsedTwice(usize),
    NoRoom,
    SpanTooWide,
    NotVideoHeader,
    NoPts,
    FieldsDoNotFit,
    WrongMarker,
    PtsBeforeDts,
    TooWide,
    LostSync(usize),
    CounterGap(usize),
    OutsidePacket(usize),
    Scrambled(usize),
    PointsDoNotFit,
    ReservedEsCount,
    UnknownReference,
    NotStereoSet,
    WrongMvcExtension,
    RangesMeet,
}

// The number under which document 01 lists a refusal.
pub fn number(refusal: Refusal) -> u8
    ensures { result ≡ number_of refusal }
{
    match refusal {
        Refusal::LoopTooLong => 1,
        Refusal::DoesNotFit(_) => 2,
        Refusal::RepeatedPid(_) => 3,
        Refusal::WrongLength(_) => 4,
        Refusal::SecondRecord(_) => 5,
        Refusal::TypeNotAllowed(_) => 6,
        Refusal::WrongFlags(_) => 7,
        Refusal::RepeatedLayerIndex(_) => 8,
        Refusal::WrongEmbeddedIndex(_) => 9,
        Refusal::NoSuchLayer => 11,
        Refusal::EmbeddedLayerAbsent(_) => 12,
        Refusal::OutOfRange(_) => 13,
        Refusal::TimeOrderBroken(_) => 14,
        Refusal::Unpaired(_) => 15,
        Refusal::UsedTwice(_) => 16,
        Refusal::NoRoom => 17,
        Refusal::SpanTooWide => 18,
        Refusal::NotVideoHeader => 20,
        Refusal::NoPts => 21,
        Refusal::FieldsDoNotFit => 22,
        Refusal::WrongMarker => 23,
        Refusal::PtsBeforeDts => 24,
        Refusal::TooWide => 25,
        Refusal::LostSync(_) => 30,
        Refusal::CounterGap(_) => 31,
        Refusal::OutsidePacket(_) => 32,
        Refusal::Scrambled(_) => 33,
        Refusal::PointsDoNotFit => 40,
        Refusal::ReservedEsCount => 41,
        Refusal::UnknownReference => 42,
        Refusal::NotStereoSet => 44,
        Refusal::WrongMvcExtension => 45,
        Refusal::RangesMeet => 46,
    }
}

// The place of a refusal: an entry, a row, a layer index or a packet, and 0 where document 01 names none.
pub fn place(refusal: Refusal) -> usize
    ensures { result ≡ place_of refusal }
{
    match refusal {
        Refusal::LoopTooLong => 0,
        Refusal::DoesNotFit(entry) => entry,
        Refusal::RepeatedPid(entry) => entry,
        Refusal::WrongLength(entry) => entry,
        Refusal::SecondRecord(entry) => entry,
        Refusal::TypeNotAllowed(entry) => entry,
        Refusal::WrongFlags(entry) => entry,
        Refusal::RepeatedLayerIndex(entry) => entry,
        Refusal::WrongEmbeddedIndex(entry) => entry,
        Refusal::NoSuchLayer => 0,
        Refusal::EmbeddedLayerAbsent(missing) => missing.0 as usize,
        Refusal::OutOfRange(row) => row,
        Refusal::TimeOrderBroken(row) => row,
        Refusal::Unpaired(row) => row,
        Refusal::UsedTwice(row) => row,
        Refusal::NoRoom => 0,
        Refusal::SpanTooWide => 0,
        Refusal::NotVideoHeader => 0,
        Refusal::NoPts => 0,
        Refusal::FieldsDoNotFit => 0,
        Refusal::WrongMarker => 0,
        Refusal::PtsBeforeDts => 0,
        Refusal::TooWide => 0,
        Refusal::LostSync(packet) => packet,
        Refusal::CounterGap(packet) => packet,
        Refusal::OutsidePacket(packet) => packet,
        Refusal::Scrambled(packet) => packet,
        Refusal::PointsDoNotFit => 0,
        Refusal::ReservedEsCount => 0,
        Refusal::UnknownReference => 0,
        Refusal::NotStereoSet => 0,
        Refusal::WrongMvcExtension => 0,
        Refusal::RangesMeet => 0,
    }
}
