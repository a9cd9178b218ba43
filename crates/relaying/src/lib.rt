// A packet for a seat and the audio to send, in one call, over `hearing::packet` and `hearing::audio`.
// Start at specs/Relaying.antt.
#![tactic(auto)]

ghost use Rattle.relaying.specs.Relaying.{Relays};

use hearing::{Hearing, audio, packet};
use packet::Refusal;
use record::{Answered, Bench};

// What a packet for a seat leaves: the bench after it, its answer, and the audio to send.
#[derive(Clone, Copy)]
pub struct Relayed<'a> {
    pub bench: Bench,
    pub answer: Result<Hearing, Refusal>,
    // A part of the lent packet: its payload if that is sent, else empty. (kept: no Option, as 01 asks; `Relays`)
    pub audio: &'a [u8],
}

// A packet for seat n, refused as `packet` refuses it.
pub fn relay<'a>(b: Bench, n: u8, p: &'a [u8]) -> Relayed<'a>
    ensures { Relays b n p.entry result }
{
    let Answered { bench, answer } = packet(b, n, p);
    Relayed {
        bench,
        answer,
        audio: audio(answer, p),
    }
}
