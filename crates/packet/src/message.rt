// What a packet says: the messages of the two directions, and the items that they may carry.
// kept: PTT types and methods by their codes, of any value: what no reader would take is refused with 27 (`Unwritable`).
// kept: three messages with fields alike, since each has what its direction can say (`as_tx`, `as_rx`).
ghost use Rattle.std.specs.Prelude.{◌≡◌};
ghost use Rattle.packet.specs.Messages.{as_tx, as_rx, from_tx, from_rx};

// Which way a packet goes: TX from the voice switch to the radio, RX back.
#[derive(Clone, Copy)]
pub enum Direction {
    Tx,
    Rx,
}

// Item 1, SQI: the quality of the received signal and the method that found it.
#[derive(Clone, Copy)]
pub struct Sqi {
    pub quality: u8,
    pub method: u8,
}

// Item 5, main/standby.
#[derive(Clone, Copy, PartialEq, Eq)]
pub enum Side {
    Main,
    Standby,
}

// A message from a voice switch.
#[derive(Clone, Copy)]
pub struct Tx {
    pub sequence: u16,
    pub timestamp: u32,
    pub ssrc: u32,
    pub ptt: u8,
    pub id: u8,
    pub pm: bool,
    pub ptts: bool,
    // item 2, CLIMAX: the delay in ms divided by 2
    pub climax: Option<u8>,
    pub side: Option<Side>,
}

// A message to a voice switch.
#[derive(Clone, Copy)]
pub struct Rx {
    pub sequence: u16,
    pub timestamp: u32,
    pub ssrc: u32,
    pub ptt: u8,
    pub squ: bool,
    pub id: u8,
    pub pm: bool,
    pub ptts: bool,
    pub sct: bool,
    pub sqi: Option<Sqi>,
    pub side: Option<Side>,
}

// Every item that a packet of either direction may carry.
#[derive(Clone, Copy)]
pub struct Items {
    pub sqi: Option<Sqi>,
    pub climax: Option<u8>,
    pub side: Option<Side>,
}

impl Items {
    pub const NONE: Items = Items {
        sqi: None,
        climax: None,
        side: None,
    };
}

// What a packet of either direction says.
#[derive(Clone, Copy)]
pub struct Message {
    pub sequence: u16,
    pub timestamp: u32,
    pub ssrc: u32,
    pub ptt: u8,
    pub squ: bool,
    pub id: u8,
    pub pm: bool,
    pub ptts: bool,
    pub sct: bool,
    pub items: Items,
}

impl From<Message> for Tx {
    ghost from_gives = { λ m tx. tx ≡ as_tx m };

    fn from(m: Message) -> Tx {
        Tx {
            sequence: m.sequence,
            timestamp: m.timestamp,
            ssrc: m.ssrc,
            ptt: m.ptt,
            id: m.id,
            pm: m.pm,
            ptts: m.ptts,
            climax: m.items.climax,
            side: m.items.side,
        }
    }
}

impl From<Message> for Rx {
    ghost from_gives = { λ m rx. rx ≡ as_rx m };

    fn from(m: Message) -> Rx {
        Rx {
            sequence: m.sequence,
            timestamp: m.timestamp,
            ssrc: m.ssrc,
            ptt: m.ptt,
            squ: m.squ,
            id: m.id,
            pm: m.pm,
            ptts: m.ptts,
            sct: m.sct,
            sqi: m.items.sqi,
            side: m.items.side,
        }
    }
}

impl From<Tx> for Message {
    ghost from_gives = { λ tx m. m ≡ from_tx tx };

    fn from(m: Tx) -> Message {
        Message {
            sequence: m.sequence,
            timestamp: m.timestamp,
            ssrc: m.ssrc,
            ptt: m.ptt,
            squ: false,
            id: m.id,
            pm: m.pm,
            ptts: m.ptts,
            sct: false,
            items: Items {
                climax: m.climax,
                side: m.side,
                ..Items::NONE
            },
        }
    }
}

impl From<Rx> for Message {
    ghost from_gives = { λ rx m. m ≡ from_rx rx };

    fn from(m: Rx) -> Message {
        Message {
            sequence: m.sequence,
            timestamp: m.timestamp,
            ssrc: m.ssrc,
            ptt: m.ptt,
            squ: m.squ,
            id: m.id,
            pm: m.pm,
            ptts: m.ptts,
            sct: m.sct,
            items: Items {
                sqi: m.sqi,
                side: m.side,
                ..Items::NONE
            },
        }
    }
}
