// A seat, and what it remembers of the packets that it accepted.
ghost use Rattle.std.specs.Prelude.{◌≡◌, false};
ghost use Rattle.record.specs.Record.{no_such_seat, opened_seat, entry_of, with_entry, seat_of};

// The field of a packet with its items, as a seat remembers it. An item is there or not, and its value, 0 where it is not.
// kept: flags beside their values, and codes, in this file: the record crosses to C and holds no enum (`zero_field` ..).
#[repr(C)]
#[derive(Clone, Copy, PartialEq, Eq)]
pub struct Field {
    pub ptt: u8,
    pub id: u8,
    pub pm: bool,
    pub ptts: bool,
    pub delayed: bool,
    pub delay: u8,
    pub sided: bool,
    pub standby: bool,
}

// What a seat last accepted; all zero where it has heard nothing.
#[repr(C)]
#[derive(Clone, Copy)]
pub struct Heard {
    pub any: bool,
    pub ssrc: u32,
    pub sequence: u16,
    pub field: Field,
}

// How many packets since the seat was opened (02, request 14): accepted, and missing before them.
#[repr(C)]
#[derive(Clone, Copy)]
pub struct Totals {
    pub heard: u32,
    pub missing: u32,
}

#[repr(C)]
#[derive(Clone, Copy)]
pub struct Seat {
    pub opened: bool,
    // call type: 0 Radio-Idle, 1 Radio-Rxonly, 2 Radio-TxRx, 3 Coupling
    pub call: u8,
    pub period: u16,
    pub multiplier: u8,
    // ms until the seat is closed by silence
    pub left: u32,
    // ms of the present period that have passed
    pub phase: u16,
    // of its reports
    pub ssrc: u32,
    pub heard: Heard,
    pub totals: Totals,
}

// kept: 01 asks for constants (docs/DECISIONS.md, "Required forms"), and a const can call no `Default`.
impl Field {
    pub const ZERO: Field = Field {
        ptt: 0,
        id: 0,
        pm: false,
        ptts: false,
        delayed: false,
        delay: 0,
        sided: false,
        standby: false,
    };
}

impl Heard {
    pub const NOTHING: Heard = Heard {
        any: false,
        ssrc: 0,
        sequence: 0,
        field: Field::ZERO,
    };
}

impl Totals {
    pub const NONE: Totals = Totals {
        heard: 0,
        missing: 0,
    };
}

impl Seat {
    pub const CLOSED: Seat = Seat {
        opened: false,
        call: 0,
        period: 0,
        multiplier: 0,
        left: 0,
        phase: 0,
        ssrc: 0,
        heard: Heard::NOTHING,
        totals: Totals::NONE,
    };

    // A seat just opened has heard nothing.
    #[tactic(auto, unfolding(crate::specs::Record::opened_seat))]
    pub fn opened(call: u8, period: u16, multiplier: u8, ssrc: u32) -> Seat
        ensures { result ≡ opened_seat call period multiplier ssrc }
    {
        Seat {
            opened: true,
            call,
            period,
            multiplier,
            left: u32::from(period) * u32::from(multiplier),
            phase: 0,
            ssrc,
            heard: Heard::NOTHING,
            totals: Totals::NONE,
        }
    }
}

// Refusal 13: a seat is 1 to 8.
pub fn no_such_seat(n: u8) -> bool
    ensures { result ≡ no_such_seat n }
{
    !matches!(n, 1..=8)
}

// What an array holds for seat n; `none` for what is no seat's number.
pub fn entry_of<T: Copy>(none: T, entries: &[T], n: u8) -> T
    ensures { result ≡ entry_of none entries.now n }
{
    if no_such_seat(n) {
        return none;
    }
    entries.get(usize::from(n - 1)).copied().unwrap_or(none)
}

// Another entry for seat n; what is no seat's number leaves the array as it was.
// kept: a test and an index; tried with `get_mut`, which promises nothing of the slice behind it.
pub fn set_entry<T: Copy>(entries: &mut [T], n: u8, entry: T)
    ensures { entries.new ≡ with_entry entries.old n entry }
{
    if no_such_seat(n) {
        return;
    }
    let place = usize::from(n - 1);
    if place < entries.len() {
        entries[place] = entry;
    }
}

// The flag of a seat; false for what is no seat's number.
pub fn flag_of(flags: [bool; 8], n: u8) -> bool
    ensures { result ≡ entry_of false flags n }
{
    entry_of(false, &flags, n)
}

// The seat of a number; a number that is no seat's counts as a closed one.
#[tactic(auto, unfolding(crate::specs::Record::seat_of))]
pub fn seat_of(seats: [Seat; 8], n: u8) -> Seat
    ensures { result ≡ seat_of seats n }
{
    entry_of(Seat::CLOSED, &seats, n)
}

pub fn is_open(seats: [Seat; 8], n: u8) -> bool
    ensures { result ≡ (seat_of seats n).opened }
{
    seat_of(seats, n).opened
}
