// What is turned away: every refusal of document 01 with its number in 01's table, then those of 02.
ghost use Rattle.std.specs.Prelude.{◌≡◌};
ghost use Rattle.packet.specs.Refusals.{number_of, cause_of};

#[derive(Clone, Copy, Debug, PartialEq, Eq)]
pub enum Refusal {
    TooShort = 1,
    WrongVersion = 2,
    PaddingOrMarker = 3,
    NoExtension = 4,
    PayloadType = 5,
    ExtensionCut = 6,
    ExtensionType = 7,
    WordCount = 8,
    WordsCut = 9,
    FieldRule = 10,
    ItemRule = 11,
    PayloadLength = 12,
    NoSuchSeat = 13,
    SeatNotOpen = 14,
    SeatOpenAlready = 15,
    PeriodOrMultiplier = 16,
    LessonCoupling = 17,
    CouplingTaken = 18,
    OtherSsrc = 19,
    NotAfterLast = 20,
    KeyingNotAllowed = 21,
    OtherId = 22,
    SideNotAllowed = 23,
    ElapsedTooLong = 24,
    ReportAudio = 25,
    BufferTooShort = 26,
    UnwritableValue = 27,
    TotalTooLarge = 33,
}

// Its number in 01's table, or in 02.
pub fn number(r: Refusal) -> u8
    ensures { result ≡ number_of r }
{
    r as u8
}

// The cause that a switch is told, 0 unless 01 shows one. (kept: 0, `cause_of`)
pub fn cause(r: Refusal) -> u16
    ensures { result ≡ cause_of (number_of r) }
{
    match r {
        Refusal::FieldRule | Refusal::ItemRule => 2012,
        Refusal::CouplingTaken => 2005,
        _ => 0,
    }
}
