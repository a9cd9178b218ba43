// RFC 4571, as document 003 has it in its table 5: a packet behind its length, for a stream that carries one packet after another.
// Start at specs/Framing.antt, which has the frame and the law that it reads back.
#![tactic(auto)]

ghost use Rattle.std.specs.Prelude.{◌≡◌, min, length};
ghost use Rattle.base.specs.Bytes.{bytes16, overlaid};

use base::copy_in;

// Lays the two bytes of a packet's length over the front of a buffer, and answers how many there was room for.
pub fn put_length(n: u16, out: &mut [u8]) -> usize
    ensures value { result ≡ min 2 (length out.old) }
    ensures out_after { out.new ≡ overlaid (bytes16 n) out.old }
{
    copy_in(out, &n.to_be_bytes())
}
