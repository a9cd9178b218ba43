// The items, read byte by byte: what the bytes after the first two hold.
// specs/ItemsIn.antt has the meaning, specs/Scan.antt what one byte does; proofs/Meaning.antt shows that they agree.
ghost use Rattle.std.specs.Prelude.{◌≡◌};
ghost use Rattle.packet.specs.Items.{side_of};
ghost use Rattle.items.specs.Scan.{take_sqi, take_climax, take_side, take_item, behind_value, in_zeros, past, is_ddc, begun, behind_item, step_of, scan_of, start_in, may_end, end_of};
ghost use Rattle.items.specs.ItemsIn.{items_read};

use packet::{Direction, Items, Side, Sqi, item, sqi_allowed};

// Where the scan stands.
// kept: a step for each byte, since an item of type 4 has any length (02, request 1), so there are no pairs to iterate.
#[derive(Clone, Copy)]
pub enum Mode {
    // in the zeros at the end
    Tail,
    // before the first item
    First,
    // before a further one
    Next,
    // between an item's first byte, which it holds, and its value
    Value(u8),
    // in a value that is stepped over, with so many bytes of it behind the next one
    Skip(u8),
    // past a broken rule
    Broken,
}

// `ddc`: a type 4 item was met.
#[derive(Clone, Copy)]
pub struct Scan {
    pub mode: Mode,
    pub ddc: bool,
    pub items: Items,
}

// SQI may stand in RX, once.
#[tactic(auto, unfolding(crate::specs::Scan::take_sqi))]
fn take_sqi(d: Direction, items: Items, b: u8) -> Option<Items>
    ensures { result ≡ take_sqi d items b }
{
    let sqi = Sqi {
        quality: b / 8,
        method: b % 8,
    };
    let free = matches!(d, Direction::Rx) && items.sqi.is_none();
    let fits = free && sqi_allowed(sqi.quality, sqi.method);
    fits.then_some(Items {
        sqi: Some(sqi),
        ..items
    })
}

// CLIMAX may stand in TX, once, under a high bit 1.
#[tactic(auto, unfolding(crate::specs::Scan::take_climax))]
fn take_climax(d: Direction, items: Items, b: u8) -> Option<Items>
    ensures { result ≡ take_climax d items b }
{
    let free = matches!(d, Direction::Tx) && items.climax.is_none();
    let fits = free && b >= 128;
    fits.then_some(Items {
        climax: Some(b % 128),
        ..items
    })
}

// Main/standby may stand once, its low bits 0.
#[tactic(auto, unfolding(crate::specs::Scan::take_side))]
fn take_side(items: Items, b: u8) -> Option<Items>
    ensures { result ≡ take_side items b }
{
    let fits = items.side.is_none() && b % 128 == 0;
    fits.then_some(Items {
        side: Some(side_of(b)),
        ..items
    })
}

fn side_of(b: u8) -> Side
    ensures { result ≡ side_of b }
{
    if b >= 128 { Side::Standby } else { Side::Main }
}

// An item that is kept, by its first byte (type in the high half, length 1 in the low half) and its value.
#[tactic(auto, unfolding(crate::specs::Scan::take_item))]
fn take(d: Direction, items: Items, head: u8, b: u8) -> Option<Items>
    ensures { result ≡ take_item d items head b }
{
    if head % 16 != 1 {
        return None;
    }
    match head / 16 {
        item::SQI => take_sqi(d, items, b),
        item::CLIMAX => take_climax(d, items, b),
        item::SIDE => take_side(items, b),
        _ => None,
    }
}

// Behind its value an item is kept, or a rule was broken.
fn behind_value(ddc: bool, items: Items, taken: Option<Items>) -> Scan
    ensures { result ≡ behind_value ddc items taken }
{
    match taken {
        Some(items) => Scan {
            mode: Mode::Next,
            ddc,
            items,
        },
        None => Scan {
            mode: Mode::Broken,
            ddc,
            items,
        },
    }
}

// Behind the ending zero byte, and under X = 0, every byte is zero.
fn in_zeros(b: u8) -> Mode
    ensures { result ≡ in_zeros b }
{
    if b == 0 { Mode::Tail } else { Mode::Broken }
}

// So many bytes in front of the next item.
fn past(n: u8) -> Mode
    ensures { result ≡ past n }
{
    if n == 0 {
        Mode::Next
    } else {
        Mode::Skip(n - 1)
    }
}

fn is_ddc(b: u8) -> bool
    ensures { result ≡ is_ddc b }
{
    b / 16 == item::DDC
}

// An item's first byte. Of type 4 there is one, of any length, and its value is stepped over (02, request 1).
fn begun(ddc: bool, b: u8) -> Mode
    ensures { result ≡ begun ddc b }
{
    if !is_ddc(b) {
        Mode::Value(b)
    } else if ddc {
        Mode::Broken
    } else {
        past(b % 16)
    }
}

// Behind an item a zero byte ends the items, and any other begins one.
fn behind_item(ddc: bool, b: u8) -> Mode
    ensures { result ≡ behind_item ddc b }
{
    if b == 0 { Mode::Tail } else { begun(ddc, b) }
}

// One byte further.
fn step(d: Direction, s: Scan, b: u8) -> Scan
    ensures { result ≡ step_of d s b }
{
    let Scan { mode, ddc, items } = s;
    let met = is_ddc(b) || ddc;
    match mode {
        Mode::Tail => Scan {
            mode: in_zeros(b),
            ..s
        },
        Mode::First => Scan {
            mode: begun(ddc, b),
            ddc: met,
            items,
        },
        Mode::Next => Scan {
            mode: behind_item(ddc, b),
            ddc: met,
            items,
        },
        Mode::Value(head) => behind_value(ddc, items, take(d, items, head, b)),
        Mode::Skip(n) => Scan { mode: past(n), ..s },
        Mode::Broken => s,
    }
}

// All bytes.
#[tactic(auto, unfolding(crate::specs::Scan::scan_of))]
fn scanned(d: Direction, start: Scan, s: &[u8]) -> Scan
    ensures { result ≡ scan_of d start s.now }
{
    s.iter().fold(start, |scan, b| step(d, scan, *b))
}

// X = 0: zeros alone; X = 1: at least one item.
fn start(x: u16) -> Mode
    ensures { result ≡ start_in x }
{
    if x == 0 { Mode::Tail } else { Mode::First }
}

// The bytes may end in the zeros, or where a further item would begin.
fn may_end(mode: Mode) -> bool
    ensures { result ≡ may_end mode }
{
    matches!(mode, Mode::Tail | Mode::Next)
}

fn end(s: Scan) -> Option<Items>
    ensures { result ≡ end_of s }
{
    may_end(s.mode).then_some(s.items)
}

// The items that the bytes hold under X, the bytes after the first two of the words.
// kept: `x` is a number and no bool, since `items_read` promises an answer for every one.
#[tactic(auto, using(crate::proofs::Meaning::scan_is))]
pub fn items_in(d: Direction, x: u16, s: &[u8]) -> Option<Items>
    ensures { result ≡ items_read d x s.now }
{
    let first = Scan {
        mode: start(x),
        ddc: false,
        items: Items::NONE,
    };
    end(scanned(d, first, s))
}
