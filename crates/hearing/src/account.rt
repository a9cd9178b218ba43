// The totals of a seat: how many packets it heard since it was opened, and how many were missing before them.
ghost use Rattle.std.specs.Prelude.{◌≡◌};
ghost use Rattle.packet.specs.Refusals.{answer_of};
ghost use Rattle.hearing.specs.Account.{totals_said};

use packet::Refusal;
use record::{Bench, Totals, seat_of};
use seats::opening::seat_verdict;

// The totals of seat n. Refused by 13, 14, in this order. The bench is only read.
#[tactic(auto, using(crate::proofs::AccountLaws::totals_in_steps))]
pub fn totals(b: Bench, n: u8) -> Result<Totals, Refusal>
    ensures { answer_of result ≡ totals_said b n }
{
    let s = seat_of(b.seats, n);
    seat_verdict(n, s.opened)?;
    Ok(s.totals)
}
