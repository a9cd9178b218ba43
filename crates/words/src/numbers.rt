// Numbers in words. A word that says no number of its kind says none, so that a value is never a wrong one.
ghost use Rattle.std.specs.Prelude.{◌≡◌, ◌<◌, ◌≤◌, IfSome};
ghost use Rattle.words.specs.Numbers.{digit_in, number_in, half_of, byte_of, level_of};

// What a digit counts, decimal or hexadecimal in either case.
#[tactic(auto, unfolding(crate::specs::Numbers::digit_of))]
pub fn digit(b: u8) -> Option<u8>
    ensures { (result ≡ digit_in b) × IfSome result (λ d. d < 16) }
{
    match b {
        b'0'..=b'9' => Some(b - b'0'),
        b'A'..=b'F' => Some(b - b'A' + 10),
        b'a'..=b'f' => Some(b - b'a' + 10),
        _ => None,
    }
}

#[tactic(auto, using(crate::proofs::Values::counting_up), unfolding(crate::specs::Numbers::number_in))]
fn number_in(radix: u32, w: &[u8]) -> Option<u32>
    requires { radix ≤ 16 }
    ensures { result ≡ number_in radix w.now }
{
    if w.is_empty() {
        return None;
    }
    let mut value = 0u32;
    for b in w {
        let d = u32::from(digit(*b)?);
        if radix <= d {
            return None;
        }
        value = value.checked_mul(radix)?.checked_add(d)?;
    }
    Some(value)
}

// A number in decimal.
pub fn number(w: &[u8]) -> Option<u32>
    ensures { result ≡ number_in 10 w.now }
{
    number_in(10, w)
}

// A number of two bytes, in decimal.
pub fn half(w: &[u8]) -> Option<u16>
    ensures { result ≡ half_of (number_in 10 w.now) }
{
    u16::try_from(number(w)?).ok()
}

// A number of two bytes, in hexadecimal.
pub fn hex_half(w: &[u8]) -> Option<u16>
    ensures { result ≡ half_of (number_in 16 w.now) }
{
    u16::try_from(number_in(16, w)?).ok()
}

// A number of one byte, in decimal.
pub fn byte(w: &[u8]) -> Option<u8>
    ensures { result ≡ byte_of (number_in 10 w.now) }
{
    u8::try_from(number(w)?).ok()
}

// A number of two bytes with its sign, in decimal.
#[tactic(auto, unfolding(crate::specs::Numbers::level_of))]
pub fn level(w: &[u8]) -> Option<i16>
    ensures { result ≡ level_of w.now }
{
    match w.strip_prefix(b"-".as_slice()) {
        Some(digits) => i16::try_from(-i64::from(number(digits)?)).ok(),
        None => i16::try_from(number(w)?).ok(),
    }
}
