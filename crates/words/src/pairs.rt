// Bytes in hexadecimal, read into a lent buffer.
ghost use Rattle.std.specs.Prelude.{◌≡◌, true, ◌/◌, ◌≤◌, length};
ghost use Rattle.std.proofs.lemmas.List.Edits.{sets};
ghost use Rattle.words.specs.Numbers.{all_digits};
ghost use Rattle.words.specs.Pairs.{is_dash, is_hex, pairs, bytes_said, bytes_laid};

use crate::numbers::digit;

// The word for nothing.
#[tactic(auto, unfolding(crate::specs::Pairs::is_dash))]
pub fn dash(w: &[u8]) -> bool
    ensures { result ≡ is_dash w.now }
{
    w == b"-".as_slice()
}

#[tactic(auto, unfolding(crate::specs::Numbers::all_digits))]
fn all_digits(w: &[u8]) -> bool
    ensures { result ≡ all_digits 16 w.now }
{
    w.iter().all(|b| digit(*b).is_some())
}

// One pair of digits or more.
#[tactic(auto, unfolding(crate::specs::Pairs::is_hex))]
fn hex(w: &[u8]) -> bool
    ensures { result ≡ is_hex w.now }
{
    !w.is_empty() && w.len() % 2 == 0 && all_digits(w)
}

// The bytes of pairs of digits, at the front of a buffer that has room for them.
#[tactic(auto, using(crate::proofs::Nibbles::pairing), unfolding(crate::specs::Pairs::is_hex))]
fn put_pairs(w: &[u8], out: &mut [u8])
    requires { (is_hex w.now ≡ true) × (length w.now / 2 ≤ length out.old) }
    ensures { out.new ≡ sets out.old 0 (pairs w.now) }
{
    for (i, pair) in w.chunks_exact(2).enumerate() {
        out[i] = digit(pair[0]).unwrap() * 16 + digit(pair[1]).unwrap();
    }
}

// Digits in pairs, or `-` for no bytes: how many bytes they are, and the bytes at the front of the buffer. Where the word
// says no bytes, or more than there is room for, the buffer stays.
#[tactic(auto, using(crate::proofs::Nibbles::pairs_length), unfolding(crate::specs::Pairs::bytes_said, crate::specs::Pairs::bytes_laid, crate::specs::Pairs::says_bytes, crate::specs::Pairs::bytes_of))]
pub fn bytes(w: &[u8], out: &mut [u8]) -> Option<usize>
    ensures value { result ≡ bytes_said w.now (length out.old) }
    ensures out_after { out.new ≡ bytes_laid w.now out.old }
{
    if dash(w) {
        return Some(0);
    }
    let n = w.len() / 2;
    if out.len() < n || !hex(w) {
        return None;
    }
    put_pairs(w, out);
    Some(n)
}
