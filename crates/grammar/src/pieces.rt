// Words of a line that say more than a number.
ghost use Rattle.std.specs.Prelude.{◌≡◌, true, false, ◌∷◌, [], ◌≤◌};
ghost use Rattle.grammar.specs.Said.{one_of, flag_in, direction_in, room_in, has, free_digit, seat_digits, counted, lessons_of, seats_in};
ghost use Rattle.grammar.specs.Pieces.{lent_in};

use crate::call::{Lent, ROOM};
use packet::Direction;
use words::{choice, dash, half};

// One of several words, each with its value in the same order.
// kept: the words are one string, as `choice` takes them (`Tight`); those of `named_in` in the order of `help`.
#[tactic(auto, unfolding(crate::specs::Said::one_of))]
pub(crate) fn one_of<T: Copy>(w: &[u8], words: &[u8], values: &[T]) -> Option<T>
    ensures { result ≡ one_of w.now words.now values.now }
{
    values.get(choice(w, words)?).copied()
}

// Of a list of two words, is it the second?
pub(crate) fn second(w: &[u8], words: &[u8]) -> Option<bool>
    ensures { result ≡ one_of w.now words.now (false ∷ true ∷ []) }
{
    one_of(w, words, &[false, true])
}

// PM, PTTS, SQU, SCT
pub(crate) fn flag(w: &[u8]) -> Option<bool>
    ensures { result ≡ flag_in w.now }
{
    second(w, b"0 1")
}

pub(crate) fn direction(w: &[u8]) -> Option<Direction>
    ensures { result ≡ direction_in w.now }
{
    one_of(w, b"tx rx", &[Direction::Tx, Direction::Rx])
}

// ROOM
#[tactic(auto, unfolding(crate::specs::Said::room_in))]
pub(crate) fn room(w: &[u8]) -> Option<usize>
    ensures { result ≡ room_in w.now }
{
    let size = usize::from(half(w)?);
    (size <= ROOM).then_some(size)
}

// AUDIO, as it was read, and ROOM.
#[tactic(auto, unfolding(crate::specs::Pieces::lent_in))]
pub(crate) fn lent(audio: Option<usize>, size: &[u8]) -> Option<Lent>
    ensures { result ≡ lent_in audio size.now }
{
    Some(Lent {
        audio: audio?,
        room: room(size)?,
    })
}

// A seat's digit that does not stand behind itself again.
fn free_digit(b: u8, behind: &[u8]) -> bool
    ensures { result ≡ free_digit b behind.now }
{
    matches!(b, b'1'..=b'8') && !behind.contains(&b)
}

#[tactic(auto, unfolding(crate::specs::Said::seat_digits))]
fn seat_digits(w: &[u8]) -> bool
    ensures { result ≡ seat_digits w.now }
{
    let mut rest = w;
    while let Some((b, behind)) = rest.split_first() {
        if !free_digit(*b, behind) {
            return false;
        }
        rest = behind;
    }
    true
}

fn counted(w: &[u8], digit: u8, value: u8) -> u8
    ensures { (result ≡ counted digit value w.now) × (result ≤ value) }
{
    if w.contains(&digit) { value } else { 0 }
}

#[tactic(auto, unfolding(crate::specs::Said::lessons_of))]
fn lessons(w: &[u8]) -> u8
    ensures { result ≡ lessons_of w.now }
{
    counted(w, b'1', 1)
        + counted(w, b'2', 2)
        + counted(w, b'3', 4)
        + counted(w, b'4', 8)
        + counted(w, b'5', 16)
        + counted(w, b'6', 32)
        + counted(w, b'7', 64)
        + counted(w, b'8', 128)
}

// SEATS, as bits, seat 1 the lowest.
#[tactic(auto, unfolding(crate::specs::Said::seats_in))]
pub(crate) fn seats(w: &[u8]) -> Option<u8>
    ensures { result ≡ seats_in w.now }
{
    if w.is_empty() {
        None
    } else if dash(w) {
        Some(0)
    } else if seat_digits(w) {
        Some(lessons(w))
    } else {
        None
    }
}
