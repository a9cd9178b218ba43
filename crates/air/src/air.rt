// Who is on the air. specs/Air.antt has 01's sentences, specs/Marks.antt what is found below.
ghost use Rattle.std.specs.Prelude.{◌≡◌, ◌&&◌, nat_eq, max, map, fold, find, zip, option_map};
ghost use Rattle.std.specs.List.{list_any};
ghost use Rattle.air.specs.Air.{rank, type_of, keyed, bench_air, aired};
ghost use Rattle.air.specs.Marks.{standing, with_rank, seats_at, mark_all, marks_of, leaders_at, added_at, ptts_shown};

use crate::marks::{marked, smallest};
use packet::{ptt, ptt_on};
use record::{Air, Bench, Field, Seat, entry_of, set_entry};

const COUPLING_RANK: u8 = 2;

// A seat in the order of keyings, and the rank at which it takes part, 0 if it takes none.
#[derive(Clone, Copy)]
struct Ranked {
    seat: u8,
    rank: u8,
}

// Test, Coupling, Normal, Priority, Emergency, lowest first; 0 for off and for the reserved codes.
// kept: numbers, by a match on the code with the reserved ones as a range, as 01 asks (DECISIONS, "Required forms").
fn rank(ptt: u8) -> u8
    ensures { result ≡ rank ptt }
{
    match ptt {
        ptt::TEST => 1,
        ptt::COUPLING => 2,
        ptt::NORMAL => 3,
        ptt::PRIORITY => 4,
        ptt::EMERGENCY => 5,
        ptt::OFF | 6..=255 => 0,
    }
}

// The PTT type of a rank; off for 0.
fn type_of(rank: u8) -> u8
    ensures { result ≡ type_of rank }
{
    match rank {
        1 => ptt::TEST,
        2 => ptt::COUPLING,
        3 => ptt::NORMAL,
        4 => ptt::PRIORITY,
        5 => ptt::EMERGENCY,
        0 | 6..=255 => ptt::OFF,
    }
}

// PTT on and PM 0.
pub fn keyed(f: Field) -> bool
    ensures { result ≡ keyed f }
{
    ptt_on(f.ptt) && !f.pm
}

// The rank at which a seat takes part, 0 if it takes none; with PTT off its rank is 0 anyway.
#[tactic(auto, unfolding(crate::specs::Marks::standing))]
fn standing(healthy: bool, s: Seat) -> u8
    ensures { result ≡ standing healthy s }
{
    let said = s.heard.field;
    if healthy && s.opened && !said.pm {
        rank(said.ptt)
    } else {
        0
    }
}

#[tactic(auto, unfolding(crate::specs::Marks::with_rank, record::specs::Record::seat_of))]
fn with_rank(healthy: bool, seats: &[Seat; 8], n: u8) -> Ranked
    ensures { result ≡ with_rank healthy seats.now n }
{
    Ranked {
        seat: n,
        rank: standing(healthy, entry_of(Seat::CLOSED, seats, n)),
    }
}

// Each seat of the order with its rank.
fn ranks(healthy: bool, seats: &[Seat; 8], order: [u8; 8]) -> [Ranked; 8]
    ensures { result ≡ map (with_rank healthy seats.now) order }
{
    order.map(|n| with_rank(healthy, seats, n))
}

fn highest(ranks: &[Ranked]) -> u8
    ensures { result ≡ fold max 0 (map (λ k. k.rank) ranks.now) }
{
    ranks.iter().map(|k| k.rank).fold(0, u8::max)
}

// The seat at the rank whose keying began first.
fn first_at(rank: u8, ranks: &[Ranked]) -> Option<u8>
    ensures { result ≡ option_map (λ k. k.seat) (find (λ k. nat_eq k.rank rank) ranks.now) }
{
    ranks.iter().find(|k| k.rank == rank).map(|k| k.seat)
}

// The marks with every seat at the rank.
#[tactic(auto, unfolding(crate::specs::Marks::mark_all, crate::specs::Marks::seats_at))]
fn mark_at(mut marks: [bool; 8], rank: u8, ranks: &[Ranked]) -> [bool; 8]
    ensures { result ≡ mark_all marks (seats_at rank ranks.now) }
{
    for k in ranks {
        if k.rank == rank {
            set_entry(&mut marks, k.seat, true);
        }
    }
    marks
}

// Who is on the air at the top rank: by summation all of it, by lockout the first.
#[tactic(auto, using(crate::proofs::Marking::marked), unfolding(crate::specs::Marks::leaders_at, crate::specs::Marks::mark_all))]
fn leading(equal_summation: bool, top: u8, ranks: &[Ranked]) -> [bool; 8]
    ensures { result ≡ marks_of (leaders_at equal_summation top ranks.now) }
{
    let mut leads = [false; 8];
    if top == 0 {
        return leads;
    }
    if equal_summation {
        return mark_at(leads, top, ranks);
    }
    if let Some(first) = first_at(top, ranks) {
        set_entry(&mut leads, first, true);
    }
    leads
}

// With coupling summation the participants keyed Coupling are added when the top rank is above Coupling.
#[tactic(auto, unfolding(crate::specs::Marks::added_at, crate::specs::Marks::mark_all))]
fn with_added(leads: [bool; 8], coupling_summation: bool, top: u8, ranks: &[Ranked]) -> [bool; 8]
    ensures { result ≡ mark_all leads (added_at coupling_summation top ranks.now) }
{
    if coupling_summation && COUPLING_RANK < top {
        mark_at(leads, COUPLING_RANK, ranks)
    } else {
        leads
    }
}

// A seat shows its PTTS only while it is on the air.
fn any_sends(seats: &[Seat; 8], on: &[bool; 8]) -> bool
    ensures { result ≡ list_any (λ p. p.0 && p.1.heard.field.ptts) (zip on.now seats.now) }
{
    on.iter()
        .zip(seats)
        .any(|(up, s)| *up && s.heard.field.ptts)
}

// Two or more seats on the air, or one that sent PTTS.
#[tactic(auto, using(crate::proofs::Chains::shown), unfolding(crate::specs::Marks::ptts_shown))]
fn ptts_shown(seats: &[Seat; 8], on: &[bool; 8]) -> bool
    ensures { result ≡ ptts_shown seats.now on.now }
{
    2 <= marked(on) || any_sends(seats, on)
}

// The bench with its air made right. Every accepted call but a report leaves its bench so; reports read it.
pub fn aired(mut b: Bench) -> Bench
    ensures { result ≡ aired b }
{
    b.air = bench_air(&b);
    b
}

// What is shown of the air of a bench.
#[tactic(auto, using(crate::proofs::AirFound::air_found))]
fn bench_air(b: &Bench) -> Air
    ensures { result ≡ bench_air b.now }
{
    let ranks = ranks(b.healthy, &b.seats, b.order);
    let top = highest(&ranks);
    let leads = leading(b.setup.equal_summation, top, &ranks);
    let on = with_added(leads, b.setup.coupling_summation, top, &ranks);
    Air {
        on,
        leads,
        id: smallest(&leads),
        ptt: type_of(top),
        ptts: ptts_shown(&b.seats, &on),
    }
}
