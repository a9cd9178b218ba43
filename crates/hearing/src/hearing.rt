// A packet for a seat.
ghost use Rattle.std.specs.Prelude.{◌≡◌, false};
ghost use Rattle.base.specs.Bytes.{LiesAt};
ghost use Rattle.packet.specs.Refusals.{answer_of};
ghost use Rattle.record.specs.Record.{seat_of, settled};
ghost use Rattle.air.specs.Air.{aired};
ghost use Rattle.hearing.specs.Hearing.{message_in, heard_bench, packet_said, audio_in, audio_at};
ghost use Rattle.hearing.specs.Pieces.{admitted};

use crate::admission::message_verdict;
use crate::memory::{field_heard, heard_bench, missing_before};
use air::aired;
use base::part;
use packet::{Refusal, Tx};
use reader::{payload, read_tx};
use record::{Answered, Bench, Seat, Setup, entry_of, flag_of, no_such_seat};
use seats::opening::seat_verdict;

// What an accepted packet answers: packets missing before it, whether to reply now, the side in use after it, and whether its
// audio is sent: whether its seat is on the air after it. (`audio` hands out the part of the packet that is.)
#[repr(C)]
#[derive(Clone, Copy)]
pub struct Hearing {
    pub missing: u16,
    pub reply: bool,
    pub standby: bool,
    pub sent: bool,
}

// A packet for seat n: what it answers, and the bench after it. Refused by 13, 14, 1 to 12, 19 to 23, 33, in this order.
#[tactic(auto, using(crate::proofs::PacketSteps::said_of_admitted, crate::proofs::PacketSteps::admitted_message, crate::proofs::PacketSteps::total_passed, crate::proofs::PacketSteps::no_seat))]
pub fn packet(b: Bench, n: u8, p: &[u8]) -> Answered<Hearing>
    ensures answer { answer_of result.answer ≡ packet_said b n p.now }
    ensures bench { result.bench ≡ settled (packet_said b n p.now) b (aired (heard_bench b n (message_in p.now))) }
{
    // 13, before a seat is taken out of the bench
    if no_such_seat(n) {
        return Answered {
            bench: b,
            answer: Err(Refusal::NoSuchSeat),
        };
    }
    let s = its_seat(&b.seats, n);
    match admitted(b.setup, n, s, p) {
        Ok(m) => {
            let moved = heard_bench(b, n, s, m);
            let after = aired(moved);
            Answered {
                bench: after,
                answer: Ok(Hearing {
                    missing: missing_before(s.heard, m),
                    reply: s.heard.field != field_heard(m),
                    standby: after.standby,
                    sent: flag_of(after.air.on, n),
                }),
            }
        }
        Err(refusal) => Answered {
            bench: b,
            answer: Err(refusal),
        },
    }
}

// Seat n, out of the eight as they are lent: `seat_of` takes a copy of them all.
#[tactic(auto, unfolding(record::specs::Record::seat_of))]
fn its_seat(seats: &[Seat; 8], n: u8) -> Seat
    ensures { result ≡ seat_of seats.now n }
{
    entry_of(Seat::CLOSED, seats, n)
}

// The audio to send, as a part of the lent packet: its payload where the answer says that it is sent, else an empty part.
// kept: an empty part and no Option, as 01 asks (`audio_in`).
pub fn audio(answer: Result<Hearing, Refusal>, p: &[u8]) -> &[u8]
    ensures holds { result.now ≡ audio_in (answer_of answer) p.now }
    ensures lies { LiesAt p.entry (audio_at (answer_of answer) p.now) result }
{
    match answer {
        Ok(h) if h.sent => payload(p),
        _ => part(p, 0, 0),
    }
}

// The message of a packet that seat n takes; else the refusal. No bench is asked, so none is copied for a refusal.
#[tactic(auto, using(crate::proofs::PacketSteps::admitted_in_steps))]
fn admitted(setup: Setup, n: u8, s: Seat, p: &[u8]) -> Result<Tx, Refusal>
    ensures { answer_of result ≡ admitted setup n s p.now }
{
    seat_verdict(n, s.opened)?;
    let m = read_tx(setup.ext, p)?;
    message_verdict(setup, n, s, m)?;
    Ok(m)
}
