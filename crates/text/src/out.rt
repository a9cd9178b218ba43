// Text out: a line grows in a lent buffer. What does not fit is dropped, so that a caller has nothing to test between
// two texts.
// kept: by hand; tried with `write!`, whose clause (`write_fmt`) says what is written after an `Ok` alone.
ghost use Rattle.std.specs.Prelude.{◌≡◌, [], ◌∷◌, ◌<◌};
ghost use Rattle.base.specs.Bytes.{part_of};
ghost use Rattle.text.specs.Text.{Written, decimal, bit_text, hex_digit, hex_byte, hex, bytes_text};
ghost use Rattle.text.specs.Lines.{Puts};

use base::{copy_in, part};

// A lent buffer, and the place where the next text goes.
#[derive(Drop)]
pub struct Line<'a> {
    pub out: &'a mut [u8],
    pub at: usize,
}

impl<'a> Line<'a> {
    // An empty line at the front of a buffer.
    pub fn new(out: &'a mut [u8]) -> Line<'a>
        ensures same_buffer { result.out.ghost_name ≡ out.entry.ghost_name }
        ensures same_place { result.out.ref_ptr ≡ out.entry.ref_ptr }
        ensures content { result.out.now ≡ out.old }
        ensures place { result.at ≡ 0 }
    {
        Line { out, at: 0 }
    }

    // What stands on it.
    pub fn text(&self) -> &[u8]
        ensures holds { result.now ≡ part_of 0 self.now.at self.now.out.now }
        ensures lies { result.ref_ptr ≡ self.now.out.ref_ptr }
    {
        part(self.out, 0, self.at)
    }

    #[tactic(auto, using(crate::proofs::Writing::laid))]
    pub fn put(&mut self, text: &[u8])
        ensures { Puts self.old self.new text.now }
    {
        let from = self.at.min(self.out.len());
        self.at = from + copy_in(&mut self.out[from..], text);
    }

    pub fn put_byte(&mut self, b: u8)
        ensures { Puts self.old self.new (b ∷ []) }
    {
        self.at = put_at(self.out, self.at, b);
    }

    pub fn put_bit(&mut self, b: bool)
        ensures { Puts self.old self.new (bit_text b) }
    {
        self.put_byte(b'0' + b as u8);
    }

    // In decimal.
    pub fn put_number(&mut self, n: u64)
        ensures { Puts self.old self.new (decimal n) }
    {
        if n >= 10 {
            self.put_number(n / 10);
        }
        self.put_byte((n % 10) as u8 + b'0');
    }

    // In hexadecimal, two digits a byte.
    pub fn put_hex(&mut self, bytes: &[u8])
        ensures { Puts self.old self.new (hex bytes.now) }
    {
        self.at = put_hex_at(self.out, self.at, bytes);
    }

    // In hexadecimal, `-` for no byte.
    pub fn put_bytes(&mut self, bytes: &[u8])
        ensures { Puts self.old self.new (bytes_text bytes.now) }
    {
        if bytes.is_empty() {
            self.put_byte(b'-');
        } else {
            self.put_hex(bytes);
        }
    }
}

// One byte at a place, and the place after it.
// kept: with the place beside the buffer, here and below; `put` would copy each byte, and a line would read its place back
// from memory behind each.
#[tactic(auto, using(crate::proofs::Writing::byte_fits, crate::proofs::Writing::byte_dropped))]
fn put_at(out: &mut [u8], at: usize, b: u8) -> usize
    ensures { Written out.old out.new at result (b ∷ []) }
{
    if at < out.len() {
        out[at] = b;
        at + 1
    } else {
        out.len()
    }
}

fn put_hex_at(out: &mut [u8], at: usize, bytes: &[u8]) -> usize
    ensures { Written out.old out.new at result (hex bytes.now) }
{
    let mut next = at.min(out.len());
    for b in bytes {
        next = put_pair_at(out, next, *b);
    }
    next
}

fn put_pair_at(out: &mut [u8], at: usize, b: u8) -> usize
    ensures { Written out.old out.new at result (hex_byte b) }
{
    let next = put_at(out, at, hex_digit(b / 16));
    put_at(out, next, hex_digit(b % 16))
}

fn hex_digit(d: u8) -> u8
    requires { d < 16 }
    ensures { result ≡ hex_digit d }
{
    if d < 10 { d + b'0' } else { d - 10 + b'A' }
}
