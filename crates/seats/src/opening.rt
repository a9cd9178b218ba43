// Opening and closing a seat.
ghost use Rattle.std.specs.Prelude.{◌≡◌};
ghost use Rattle.std.specs.List.{list_any};
ghost use Rattle.packet.specs.Refusals.{answer_of};
ghost use Rattle.record.specs.Record.{settled};
ghost use Rattle.air.specs.Air.{aired};
ghost use Rattle.seats.specs.Opening.{call_code, may_key, asks_coupling, times_allowed, holds_coupling, own_id, open_said, opened_bench, seat_verdict, close_said, closed_bench};

use air::aired;
use packet::Refusal;
use record::{Answered, Bench, Seat, is_open, lesson_seat, no_such_seat, set_entry};

// The call types, in 01's order.
#[derive(Clone, Copy)]
pub enum CallType {
    Idle = 0,
    RxOnly = 1,
    TxRx = 2,
    Coupling = 3,
}

// The codes that a seat keeps of the call types that may key.
pub const TX_RX: u8 = CallType::TxRx as u8;

const COUPLING: u8 = CallType::Coupling as u8;

// R2S period 20 to 1000 ms, multiplier 2 to 50.
const SHORTEST: u16 = 20;

const LONGEST: u16 = 1000;

const FEWEST: u8 = 2;

const MOST: u8 = 50;

// What a seat is opened with.
#[derive(Clone, Copy)]
pub struct Request {
    pub call: CallType,
    pub period: u16,
    pub multiplier: u8,
    pub ssrc: u32,
    pub sequence: u16,
}

// Opens a seat. The answer is its own ptt-id.
pub fn open(b: Bench, n: u8, r: Request) -> Answered<u8>
    ensures answer { answer_of result.answer ≡ open_said b n r }
    ensures bench { result.bench ≡ settled (open_said b n r) b (aired (opened_bench b n r)) }
{
    match open_answer(b, n, r) {
        Ok(id) => Answered {
            bench: aired(opened_bench(b, n, r)),
            answer: Ok(id),
        },
        Err(refusal) => Answered {
            bench: b,
            answer: Err(refusal),
        },
    }
}

// Closes a seat. It can be opened again at once.
#[tactic(auto, unfolding(crate::specs::Opening::close_said))]
pub fn close(b: Bench, n: u8) -> Answered<()>
    ensures answer { answer_of result.answer ≡ close_said b n }
    ensures bench { result.bench ≡ settled (close_said b n) b (aired (closed_bench b n)) }
{
    match seat_verdict(n, is_open(b.seats, n)) {
        Ok(()) => Answered {
            bench: aired(closed_bench(b, n)),
            answer: Ok(()),
        },
        Err(refusal) => Answered {
            bench: b,
            answer: Err(refusal),
        },
    }
}

// 13, 15 to 18.
#[tactic(auto, using(crate::proofs::OpeningLaws::coupling_any), unfolding(crate::specs::Opening::open_said, crate::specs::Opening::open_refusals))]
fn open_answer(b: Bench, n: u8, r: Request) -> Result<u8, Refusal>
    ensures { answer_of result ≡ open_said b n r }
{
    if no_such_seat(n) {
        return Err(Refusal::NoSuchSeat);
    }
    if is_open(b.seats, n) {
        return Err(Refusal::SeatOpenAlready);
    }
    if !times_allowed(r) {
        return Err(Refusal::PeriodOrMultiplier);
    }
    if lesson_seat(b.setup, n) && asks_coupling(r) {
        return Err(Refusal::LessonCoupling);
    }
    if asks_coupling(r) && any_coupling(b.seats) {
        return Err(Refusal::CouplingTaken);
    }
    Ok(own_id(n, call_code(r.call)))
}

// The bench with seat n as it was asked for.
#[tactic(auto, unfolding(crate::specs::Opening::opened_bench))]
fn opened_bench(b: Bench, n: u8, r: Request) -> Bench
    ensures { result ≡ opened_bench b n r }
{
    let mut next = b;
    let seat = Seat::opened(call_code(r.call), r.period, r.multiplier, r.ssrc);
    set_entry(&mut next.seats, n, seat);
    set_entry(&mut next.sequences, n, r.sequence);
    next
}

// 13 and 14, of each call for a seat that is open.
#[tactic(auto, unfolding(crate::specs::Opening::seat_verdict, crate::specs::Opening::seat_refusals))]
pub fn seat_verdict(n: u8, opened: bool) -> Result<(), Refusal>
    ensures { answer_of result ≡ seat_verdict n opened }
{
    if no_such_seat(n) {
        return Err(Refusal::NoSuchSeat);
    }
    if !opened {
        return Err(Refusal::SeatNotOpen);
    }
    Ok(())
}

#[tactic(auto, unfolding(crate::specs::Opening::closed_bench))]
fn closed_bench(b: Bench, n: u8) -> Bench
    ensures { result ≡ closed_bench b n }
{
    let mut next = b;
    set_entry(&mut next.seats, n, Seat::CLOSED);
    next
}

// The code that a seat keeps of its call type.
fn call_code(call: CallType) -> u8
    ensures { result ≡ call_code call }
{
    call as u8
}

// The call types that have a ptt-id and may key.
pub fn may_key(call: u8) -> bool
    ensures { result ≡ may_key call }
{
    matches!(call, TX_RX | COUPLING)
}

// The ptt-id of a seat: its number for TxRx and Coupling, else 0. (kept: 0, as 01 answers it, `open_said`)
pub fn own_id(n: u8, call: u8) -> u8
    ensures { result ≡ own_id n call }
{
    if may_key(call) { n } else { 0 }
}

fn times_allowed(r: Request) -> bool
    ensures { result ≡ times_allowed r }
{
    (SHORTEST..=LONGEST).contains(&r.period) && (FEWEST..=MOST).contains(&r.multiplier)
}

fn asks_coupling(r: Request) -> bool
    ensures { result ≡ asks_coupling r }
{
    matches!(r.call, CallType::Coupling)
}

// Whether a seat is open as Coupling.
fn any_coupling(seats: [Seat; 8]) -> bool
    ensures { result ≡ list_any holds_coupling seats }
{
    seats.iter().any(|s| s.opened && s.call == COUPLING)
}
