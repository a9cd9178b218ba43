// What an accepted message leaves: what its seat keeps of it, the side in use, and the bench after it.
ghost use Rattle.std.specs.Prelude.{◌≡◌, false};
ghost use Rattle.record.specs.Record.{seat_of};
ghost use Rattle.hearing.specs.Account.{missing_before, totals_after, total_too_large};
ghost use Rattle.hearing.specs.Hearing.{field_heard, heard_seat, takes_effect, side_after, heard_bench};

use air::order::order_after;
use base::missing;
use packet::{Side, Tx};
use record::kind::{items_move_side, kind_of};
use record::{Bench, Field, Heard, Kind, Seat, Totals, set_entry};

// The bench after an accepted message, s being the seat before it.
#[tactic(auto, unfolding(crate::specs::Hearing::heard_bench))]
pub(crate) fn heard_bench(mut b: Bench, n: u8, s: Seat, m: Tx) -> Bench
    requires { (s ≡ seat_of b.seats n) × (total_too_large (totals_after s m) ≡ false) }
    ensures { result ≡ heard_bench b n m }
{
    let old = s.heard.field;
    let new = field_heard(m);
    set_entry(&mut b.seats, n, heard_seat(s, m));
    b.order = order_after(n, old, new, b.order);
    b.standby = side_after(kind_of(b.setup.kind), old, new, b.standby);
    b
}

// The seat after an accepted message: its time left begins anew.
#[tactic(auto, unfolding(crate::specs::Hearing::heard_seat))]
fn heard_seat(s: Seat, m: Tx) -> Seat
    requires { total_too_large (totals_after s m) ≡ false }
    ensures { result ≡ heard_seat s m }
{
    Seat {
        left: u32::from(s.period) * u32::from(s.multiplier),
        heard: Heard {
            any: true,
            ssrc: m.ssrc,
            sequence: m.sequence,
            field: field_heard(m),
        },
        totals: totals_after(s, m),
        ..s
    }
}

// The totals of a seat after a message that 33 does not refuse, so that no sum wraps.
#[tactic(auto, using(crate::proofs::AccountLaws::heard_fits, crate::proofs::AccountLaws::missing_fits), unfolding(crate::specs::Account::totals_after))]
fn totals_after(s: Seat, m: Tx) -> Totals
    requires { total_too_large (totals_after s m) ≡ false }
    ensures { result ≡ totals_after s m }
{
    Totals {
        heard: s.totals.heard + 1,
        missing: s.totals.missing + u32::from(missing_before(s.heard, m)),
    }
}

// The packets missing between what the seat last accepted and the message.
pub(crate) fn missing_before(last: Heard, m: Tx) -> u16
    ensures { result ≡ missing_before last m }
{
    missing(last.any, last.sequence, m.sequence)
}

// What the seat keeps of a message. (kept: no `From`: `field_heard` is defined here, above `Field`)
#[tactic(auto, unfolding(crate::specs::Hearing::field_heard))]
pub(crate) fn field_heard(m: Tx) -> Field
    ensures { result ≡ field_heard m }
{
    Field {
        ptt: m.ptt,
        id: m.id,
        pm: m.pm,
        ptts: m.ptts,
        delayed: m.climax.is_some(),
        delay: m.climax.unwrap_or(0),
        sided: m.side.is_some(),
        standby: m.side == Some(Side::Standby),
    }
}

// The side in use after a packet.
#[tactic(auto, unfolding(crate::specs::Hearing::side_after))]
fn side_after(kind: Kind, old: Field, new: Field, standby: bool) -> bool
    ensures { result ≡ side_after kind old new standby }
{
    if items_move_side(kind) && takes_effect(old, new) {
        new.standby
    } else {
        standby
    }
}

// A repeat of the seat's own item does nothing, whatever moved the side in between.
#[tactic(auto, unfolding(crate::specs::Hearing::takes_effect))]
fn takes_effect(old: Field, new: Field) -> bool
    ensures { result ≡ takes_effect old new }
{
    let repeats = old.sided && old.standby == new.standby;
    new.sided && !repeats
}
