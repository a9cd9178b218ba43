// Whether a message is let in: refusals 19 to 23, and 33.
ghost use Rattle.std.specs.Prelude.{◌≡◌};
ghost use Rattle.packet.specs.Refusals.{answer_of};
ghost use Rattle.hearing.specs.Account.{totals_after, total_too_large};
ghost use Rattle.hearing.specs.Hearing.{keying_barred, id_allowed, side_barred};
ghost use Rattle.hearing.specs.Pieces.{message_verdict};

use crate::memory::missing_before;
use base::{late, other_ssrc};
use packet::{Refusal, Tx, ptt, ptt_on};
use record::kind::{item_barred, kind_of};
use record::{Kind, Seat, Setup, lesson_seat};
use seats::opening::{TX_RX, may_key, own_id};

// Of heard plus missing, the most that a seat counts.
const MOST: u64 = 4000000000;

// 19 to 23 and 33, in this order.
#[tactic(auto, unfolding(crate::specs::Pieces::message_verdict, crate::specs::Hearing::message_refusals))]
pub(crate) fn message_verdict(setup: Setup, n: u8, s: Seat, m: Tx) -> Result<(), Refusal>
    ensures { answer_of result ≡ message_verdict setup n s m }
{
    let last = s.heard;
    let lesson = lesson_seat(setup, n);
    if other_ssrc(last.any, last.ssrc, m.ssrc) {
        return Err(Refusal::OtherSsrc);
    }
    if late(last.any, last.sequence, m.sequence) {
        return Err(Refusal::NotAfterLast);
    }
    if keying_barred(lesson, s.call, m) {
        return Err(Refusal::KeyingNotAllowed);
    }
    if !id_allowed(own_id(n, s.call), m) {
        return Err(Refusal::OtherId);
    }
    if side_barred(lesson, kind_of(setup.kind), m) {
        return Err(Refusal::SideNotAllowed);
    }
    if total_too_large(s, m) {
        return Err(Refusal::TotalTooLarge);
    }
    Ok(())
}

// 21: PTT on for Idle or Rxonly; Coupling PTT for TxRx; a lesson seat's PTT on other than Test.
#[tactic(auto, unfolding(crate::specs::Hearing::keying_barred))]
fn keying_barred(lesson: bool, call: u8, m: Tx) -> bool
    ensures { result ≡ keying_barred lesson call m }
{
    let on = ptt_on(m.ptt);
    (on && !may_key(call))
        || (m.ptt == ptt::COUPLING && call == TX_RX)
        || (lesson && on && m.ptt != ptt::TEST)
}

// 22: the seat's own ptt-id, or 0 with PTT off.
#[tactic(auto, unfolding(crate::specs::Hearing::id_allowed))]
fn id_allowed(own: u8, m: Tx) -> bool
    ensures { result ≡ id_allowed own m }
{
    m.id == own || (!ptt_on(m.ptt) && m.id == 0)
}

// 23: a main/standby item that the kind of radio bars, or one from a lesson seat.
#[tactic(auto, unfolding(crate::specs::Hearing::side_barred))]
fn side_barred(lesson: bool, kind: Kind, m: Tx) -> bool
    ensures { result ≡ side_barred lesson kind m }
{
    item_barred(kind, m.side) || (lesson && m.side.is_some())
}

// 33: heard plus missing would pass 4,000,000,000. In 64 bits, where the sum of any record fits.
#[tactic(auto, unfolding(crate::specs::Account::total_too_large, crate::specs::Account::totals_after))]
fn total_too_large(s: Seat, m: Tx) -> bool
    ensures { result ≡ total_too_large (totals_after s m) }
{
    let heard = u64::from(s.totals.heard) + 1;
    let missing = u64::from(s.totals.missing) + u64::from(missing_before(s.heard, m));
    MOST < heard + missing
}
