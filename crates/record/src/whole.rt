// The bench: set-up, seats, and what the radio is doing.
// kept: `seats` and `order` as 01 asks; the other arrays by seat, since the record crosses to C as it is.
ghost use Rattle.std.specs.Prelude.{◌≡◌};
ghost use Rattle.record.specs.Record.{fresh_bench};

use crate::seat::Seat;
use crate::setup::Setup;
use crate::shown::Air;
use packet::Refusal;

#[repr(C)]
#[derive(Clone, Copy)]
pub struct Bench {
    pub setup: Setup,
    pub seats: [Seat; 8],
    // the sequence number of each seat's next report
    pub sequences: [u16; 8],
    // the seats in the order in which their keyings began, earliest first
    pub order: [u8; 8],
    pub standby: bool,
    pub healthy: bool,
    pub signals: u8,
    // of the signal received, in tenths of a dBm
    pub level: i16,
    // who is on the air and what reports tell of it; every accepted call but a report leaves it right
    pub air: Air,
}

// The bench after a call, and what the call answers. As it was where the call is refused.
// kept: written out at four refusals, a line each beside the accepted answer; a constructor would be no shorter.
#[derive(Clone, Copy)]
pub struct Answered<T> {
    pub bench: Bench,
    pub answer: Result<T, Refusal>,
}

impl Bench {
    // No seat is open, main is in use, the transmitter is healthy, no signal is received; so nobody is on the air.
    #[tactic(auto, unfolding(crate::specs::Record::fresh_bench))]
    pub fn fresh(setup: Setup) -> Bench
        ensures { result ≡ fresh_bench setup }
    {
        Bench {
            setup,
            seats: [Seat::CLOSED; 8],
            sequences: [0; 8],
            order: [1, 2, 3, 4, 5, 6, 7, 8],
            standby: false,
            healthy: true,
            signals: 0,
            level: 0,
            air: Air::NOBODY,
        }
    }
}
