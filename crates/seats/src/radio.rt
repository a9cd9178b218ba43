// Radio events: what the radio itself receives, and how it is doing.
ghost use Rattle.std.specs.Prelude.{◌≡◌};
ghost use Rattle.packet.specs.Refusals.{answer_of};
ghost use Rattle.record.specs.Record.{settled, with_signals, with_health, with_side};
ghost use Rattle.air.specs.Air.{aired};
ghost use Rattle.seats.specs.Radio.{side_said};

use air::aired;
use packet::Refusal;
use record::kind::{has_one_side, kind_of};
use record::{Answered, Bench};

// Signals received, with the level in tenths of a dBm.
pub fn received(b: Bench, signals: u8, level: i16) -> Bench
    ensures { result ≡ aired (with_signals b signals level) }
{
    let mut heard = b;
    heard.signals = signals;
    heard.level = level;
    aired(heard)
}

// The transmitter, healthy or not.
pub fn transmitter(b: Bench, healthy: bool) -> Bench
    ensures { result ≡ aired (with_health b healthy) }
{
    let mut told = b;
    told.healthy = healthy;
    aired(told)
}

// The side now in use, set by the radio itself. 23 on a single radio.
#[tactic(auto, unfolding(crate::specs::Radio::side_said, crate::specs::Radio::side_refusals))]
pub fn side(b: Bench, standby: bool) -> Answered<()>
    ensures answer { answer_of result.answer ≡ side_said b }
    ensures bench { result.bench ≡ settled (side_said b) b (aired (with_side b standby)) }
{
    if has_one_side(kind_of(b.setup.kind)) {
        return Answered {
            bench: b,
            answer: Err(Refusal::SideNotAllowed),
        };
    }
    let mut sided = b;
    sided.standby = standby;
    let bench = aired(sided);
    Answered {
        bench,
        answer: Ok(()),
    }
}
