// What a line says.
use packet::{Rx, Tx};
use record::Kind;
use seats::Request;

// The calls by name, in the order of `help`.
#[derive(Clone, Copy)]
pub enum Name {
    Setup,
    Open,
    Close,
    Tick,
    Packet,
    Report,
    Received,
    Transmitter,
    Side,
    Read,
    Write,
    Quality,
    Air,
    Totals,
    Help,
}

impl Name {
    pub const ALL: [Name; 15] = [
        Name::Setup,
        Name::Open,
        Name::Close,
        Name::Tick,
        Name::Packet,
        Name::Report,
        Name::Received,
        Name::Transmitter,
        Name::Side,
        Name::Read,
        Name::Write,
        Name::Quality,
        Name::Air,
        Name::Totals,
        Name::Help,
    ];
}

// Bytes that the line gives, a packet or audio, lie in a buffer apart; here is how many they are.
#[derive(Clone, Copy)]
pub enum Call {
    // A line without words.
    Nothing,
    Setup(SetupSaid),
    Open {
        seat: u8,
        request: Request,
    },
    Close(u8),
    // A tick, and the room of the send buffer.
    Tick {
        ms: u16,
        timestamp: u32,
        room: usize,
    },
    Packet {
        seat: u8,
        count: usize,
    },
    Report {
        seat: u8,
        timestamp: u32,
        lent: Lent,
    },
    Received {
        signals: u8,
        level: i16,
    },
    Transmitter {
        healthy: bool,
    },
    Side {
        standby: bool,
    },
    ReadTx(usize),
    ReadRx(usize),
    WriteTx {
        message: Tx,
        lent: Lent,
    },
    WriteRx {
        message: Rx,
        lent: Lent,
    },
    Quality(i16),
    Air,
    Totals(u8),
    Help,
    // A line that is no call.
    Wrong,
}

// A set-up. Lesson seats are bits, seat 1 the lowest (kept: the definitions `seats_in` and `lessons_of` have bits).
#[derive(Clone, Copy)]
pub struct SetupSaid {
    pub lessons: u8,
    pub ext: u16,
    pub kind: Kind,
    pub equal_summation: bool,
    pub coupling_summation: bool,
}

// The size of the largest buffer that is lent to a call.
pub const ROOM: usize = 512;

// What is lent to a writer: so many bytes of audio, and a buffer of so many bytes.
#[derive(Clone, Copy)]
pub struct Lent {
    pub audio: usize,
    pub room: usize,
}
