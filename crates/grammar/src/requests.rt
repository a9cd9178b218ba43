// What `setup` and `open` are given.
ghost use Rattle.std.specs.Prelude.{◌≡◌};
ghost use Rattle.grammar.specs.Said.{kind_in, call_type_in};
ghost use Rattle.grammar.specs.Pieces.{modes_in, request_in};

use crate::call::SetupSaid;
use crate::pieces::{one_of, seats, second};
use record::Kind;
use seats::{CallType, Request};
use words::{byte, half, hex_half, last, number, word};

fn kind(w: &[u8]) -> Option<Kind>
    ensures { result ≡ kind_in w.now }
{
    one_of(
        w,
        b"single pair shared",
        &[Kind::Single, Kind::Pair, Kind::Shared],
    )
}

fn call_type(w: &[u8]) -> Option<CallType>
    ensures { result ≡ call_type_in w.now }
{
    one_of(
        w,
        b"idle rxonly txrx coupling",
        &[
            CallType::Idle,
            CallType::RxOnly,
            CallType::TxRx,
            CallType::Coupling,
        ],
    )
}

// SEATS EXT single|pair|shared lockout|summation interruption|summation
#[tactic(auto, unfolding(crate::specs::Pieces::modes_in))]
pub(crate) fn modes(s: &[u8]) -> Option<SetupSaid>
    ensures { result ≡ modes_in s.now }
{
    Some(SetupSaid {
        lessons: seats(word(s, 1))?,
        ext: hex_half(word(s, 2))?,
        kind: kind(word(s, 3))?,
        equal_summation: second(word(s, 4), b"lockout summation")?,
        coupling_summation: second(last(s, 5), b"interruption summation")?,
    })
}

// idle|rxonly|txrx|coupling PERIOD MULTIPLIER SSRC SEQUENCE, from word 2 on.
#[tactic(auto, unfolding(crate::specs::Pieces::request_in))]
pub(crate) fn request(s: &[u8]) -> Option<Request>
    ensures { result ≡ request_in s.now }
{
    Some(Request {
        call: call_type(word(s, 2))?,
        period: half(word(s, 3))?,
        multiplier: byte(word(s, 4))?,
        ssrc: number(word(s, 5))?,
        sequence: half(last(s, 6))?,
    })
}
