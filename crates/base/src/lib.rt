// Bytes and numbers, for every crate above: total helpers, which ask nothing of their callers.
// Start at specs/Bytes.antt, which says what a number in a slice is; proofs/Tests.antt has the set that answers most proofs.
// order.rt has the order of packets, said in specs/Order.antt.
#![tactic(auto)]

ghost use Rattle.std.specs.Prelude.{◌≡◌, ◌+◌, ◌*◌, min, length};
ghost use Rattle.base.specs.Bytes.{byte_at, number16, number32, bit, part_of, LiesAt, overlaid};

pub mod order;

pub use order::{distance, late, missing, other_ssrc, size};

// The byte at a place, and 0 past the end.
pub fn byte_at(s: &[u8], i: usize) -> u8
    ensures { result ≡ byte_at s.now i }
{
    s.get(i).copied().unwrap_or(0)
}

// The number of two bytes, most significant first.
pub fn join8(high: u8, low: u8) -> u16
    ensures { result ≡ high * 256 + low }
{
    u16::from_be_bytes([high, low])
}

// The number of two numbers of two bytes, most significant first.
pub fn join16(high: u16, low: u16) -> u32
    ensures { result ≡ high * 65536 + low }
{
    u32::from(high) << 16 | u32::from(low)
}

// The number of two bytes at a place; bytes past the end count as 0.
pub fn number16_at(s: &[u8], i: u32) -> u16
    ensures { result ≡ number16 s.now i }
{
    let at = i as usize;
    join8(byte_at(s, at), byte_at(s, at + 1))
}

// The number of four bytes at a place; bytes past the end count as 0.
pub fn number32_at(s: &[u8], i: u32) -> u32
    ensures { result ≡ number32 s.now i }
{
    let at = i as usize;
    join16(
        join8(byte_at(s, at), byte_at(s, at + 1)),
        join8(byte_at(s, at + 2), byte_at(s, at + 3)),
    )
}

// The smaller of two numbers.
pub fn least(a: usize, b: usize) -> usize
    ensures { result ≡ min a b }
{
    a.min(b)
}

// A truth as a bit.
pub fn bit(b: bool) -> u8
    ensures { result ≡ bit b }
{
    b as u8
}

// The part from one place up to another; what lies past the end is left out.
pub fn part(s: &[u8], from: usize, to: usize) -> &[u8]
    ensures holds { result.now ≡ part_of from to s.now }
    ensures lies { LiesAt s.entry (min from (min to (length s.now))) result }
{
    let end = least(to, s.len());
    &s[least(from, end)..end]
}

// Lays bytes over the front of a buffer, as many as there is room for, and answers how many.
#[tactic(auto, unfolding(crate::specs::Bytes::overlaid))]
pub fn copy_in(out: &mut [u8], from: &[u8]) -> usize
    ensures value { result ≡ min (length from.now) (length out.old) }
    ensures out_after { out.new ≡ overlaid from.now out.old }
{
    let n = least(from.len(), out.len());
    out[..n].copy_from_slice(&from[..n]);
    n
}
