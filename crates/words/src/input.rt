// Text in: the words of a line. A line may be any bytes.
ghost use Rattle.std.specs.Prelude.{◌≡◌, ◌≤◌, ℕ, Bool, length};
ghost use Rattle.base.specs.Bytes.{LiesAt};
ghost use Rattle.words.specs.Input.{is_blank, in_word, past, word_at, word_of, last_of, is_word, choice_of, place_of};

use base::part;

// Space, tab, carriage return.
fn blank(b: u8) -> bool
    ensures { result ≡ is_blank b }
{
    b == b' ' || b == b'\t' || b == b'\r'
}

// Neither a blank nor the beginning of a comment. Most bytes of a line are decided by the first test.
fn in_word(b: u8) -> bool
    ensures { result ≡ in_word b }
{
    b'#' < b || !(b == b'#' || blank(b))
}

// The place behind the bytes that pass, from a place on.
fn past<F: Fn(u8) -> bool>(s: &[u8], at: usize, passes: F) -> usize
    requires { F.IsAlwaysCallable passes }
    ensures place { (p : ℕ → Bool) → ((b : ℕ) (r : Bool) → F.post passes b r → r ≡ p b) → result ≡ past p s.now at }
    ensures within { (at ≤ result) × (at ≤ length s.now → result ≤ length s.now) }
{
    let rest = part(s, at, s.len());
    at + rest.iter().position(|b| !passes(*b)).unwrap_or(rest.len())
}

// Where word n begins, counted from 0; where there are fewer words, the end of the last or the comment.
#[tactic(auto, unfolding(crate::specs::Input::word_at))]
fn word_at(s: &[u8], n: usize) -> usize
    ensures place { result ≡ word_at s.now n }
    ensures within { result ≤ length s.now }
{
    let mut at = past(s, 0, blank);
    for _ in 0..n {
        at = past(s, past(s, at, in_word), blank);
    }
    at
}

// Word n of a line, counted from 0; empty where there are fewer.
#[tactic(auto, unfolding(crate::specs::Input::word_of))]
pub fn word(s: &[u8], n: usize) -> &[u8]
    ensures holds { result.now ≡ word_of s.now n }
    ensures lies { LiesAt s.entry (word_at s.now n) result }
{
    let at = word_at(s, n);
    part(s, at, past(s, at, in_word))
}

// Word n where it is the last of the line; empty where there are fewer words, or more.
#[tactic(auto, using(crate::proofs::Lines::following), unfolding(crate::specs::Input::last_of, crate::specs::Input::word_of, crate::specs::Input::word_at))]
pub fn last(s: &[u8], n: usize) -> &[u8]
    ensures holds { result.now ≡ last_of s.now n }
    ensures lies { LiesAt s.entry (word_at s.now n) result }
{
    let at = word_at(s, n);
    let end = past(s, at, in_word);
    let next = past(s, end, blank);
    if past(s, next, in_word) == next {
        part(s, at, end)
    } else {
        part(s, at, at)
    }
}

// A word that is there, and is the same.
fn is_word(w: &[u8], s: &[u8]) -> bool
    ensures { result ≡ is_word w.now s.now }
{
    !s.is_empty() && w == s
}

// The place of a word among the words of a list, counted from 0.
// kept: a list is one string, searched by hand, as `choice_of` has it; `Tight` has a line for `choice`.
#[tactic(auto, using(crate::proofs::Choices::choosing), unfolding(crate::specs::Input::choice_of, crate::specs::Input::word_at, crate::specs::Input::word_of))]
pub fn choice(w: &[u8], list: &[u8]) -> Option<usize>
    ensures { result ≡ choice_of w.now list.now }
{
    let mut at = past(list, 0, blank);
    for n in 0..list.len() {
        let end = past(list, at, in_word);
        // Where one word is missing, none follows.
        if end == at {
            return None;
        }
        if is_word(w, part(list, at, end)) {
            return Some(n);
        }
        at = past(list, end, blank);
    }
    None
}

// The first place of a byte.
pub fn place_of(w: &[u8], b: u8) -> Option<usize>
    ensures { result ≡ place_of b w.now }
{
    w.iter().position(|x| *x == b)
}
