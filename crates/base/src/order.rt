// Order of packets, over plain numbers: was a packet heard before, the last sequence accepted, the new one.
// kept: the flag `heard` beside a number is not an Option, since the record, which C hosts share, holds the two
// (`Heard.any`), and `other_ssrc`, `late` and `missing` take them.
ghost use Rattle.std.specs.Prelude.{◌≡◌};
ghost use Rattle.base.specs.Order.{other_ssrc, distance, late, size, missing};

// Refusal 19: a packet was heard before, and the new one has another SSRC.
pub fn other_ssrc(heard: bool, fixed: u32, new: u32) -> bool
    ensures { result ≡ other_ssrc heard fixed new }
{
    heard && new != fixed
}

// New minus last, the shorter way round: -32768 to 32767.
#[tactic(auto, using(crate::proofs::Distances::distance_is))]
pub fn distance(last: u16, new: u16) -> i32
    ensures { result ≡ distance last new }
{
    i32::from(new.wrapping_sub(last).cast_signed())
}

// Refusal 20: a packet was heard before, and the new one does not come after it.
#[tactic(auto, unfolding(crate::specs::Order::late))]
pub fn late(heard: bool, last: u16, new: u16) -> bool
    ensures { result ≡ late heard last new }
{
    heard && distance(last, new) <= 0
}

// How many: none below zero.
pub fn size(z: i32) -> u32
    ensures { result ≡ size z }
{
    z.max(0) as u32
}

// The packets between the last and the new one.
#[tactic(auto, using(crate::proofs::Distances::distance_near, crate::proofs::Distances::size_near), unfolding(crate::specs::Order::missing))]
pub fn missing(heard: bool, last: u16, new: u16) -> u16
    ensures { result ≡ missing heard last new }
{
    if heard {
        size(distance(last, new) - 1) as u16
    } else {
        0
    }
}
