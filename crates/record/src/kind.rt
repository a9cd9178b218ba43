// The kinds of radio, and every fact that depends on the kind. A set-up holds the code of its kind: the record holds no enum.
ghost use Rattle.std.specs.Prelude.{◌≡◌};
ghost use Rattle.record.specs.Kind.{kind_code, kind_of, has_one_side, item_barred, items_move_side, side_told};

use packet::Side;

#[derive(Clone, Copy, PartialEq, Eq)]
pub enum Kind {
    // One radio.
    Single = 0,
    // Main and standby, each with an address of its own.
    Pair = 1,
    // Main and standby behind one address, with one session (000, 8.1.7).
    Shared = 2,
}

// What a set-up holds of a kind.
pub fn kind_code(kind: Kind) -> u8
    ensures { result ≡ kind_code kind }
{
    kind as u8
}

// The kind of a code; any other code is a single radio's.
#[tactic(auto, unfolding(crate::specs::Kind::kind_of))]
pub fn kind_of(code: u8) -> Kind
    ensures { result ≡ kind_of code }
{
    match code {
        1 => Kind::Pair,
        2 => Kind::Shared,
        _ => Kind::Single,
    }
}

// No other side to change to: refusal 23 of the side event.
pub fn has_one_side(kind: Kind) -> bool
    ensures { result ≡ has_one_side kind }
{
    kind == Kind::Single
}

// Refusal 23 of an item, whoever sends it.
pub fn item_barred(kind: Kind, item: Option<Side>) -> bool
    ensures { result ≡ item_barred kind item }
{
    match kind {
        Kind::Single => item.is_some(),
        Kind::Pair => false,
        Kind::Shared => item == Some(Side::Standby),
    }
}

// Whether an item can set the side in use.
pub fn items_move_side(kind: Kind) -> bool
    ensures { result ≡ items_move_side kind }
{
    kind == Kind::Pair
}

// The item of a report.
pub fn side_told(kind: Kind, standby: bool) -> Option<Side>
    ensures { result ≡ side_told kind standby }
{
    match kind {
        Kind::Single => None,
        Kind::Pair if standby => Some(Side::Standby),
        Kind::Pair | Kind::Shared => Some(Side::Main),
    }
}
