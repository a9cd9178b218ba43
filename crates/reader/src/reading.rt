// The readers: refusals 1 to 12, and the message of an accepted packet.
// kept: bits by `/` and `%`, as `bits` counts them; std has no bit fields.
ghost use Rattle.std.specs.Prelude.{◌≡◌, min, length};
ghost use Rattle.base.specs.Bytes.{LiesAt};
ghost use Rattle.items.specs.ItemsIn.{items_read};
ghost use Rattle.packet.specs.Items.{kept};
ghost use Rattle.packet.specs.Packet.{field, x, after_field, payload, payload_at, payload_allowed, field_allowed};
ghost use Rattle.packet.specs.Refusals.{answer_of};
ghost use Rattle.reader.specs.Reading.{read, read_tx, read_rx, items_here, message_of};
ghost use Rattle.reader.specs.Pieces.{content_answer};

use crate::frame::{extension_verdict, field, head_verdict, payload_at, payload_type, words_at};
use base::{number16_at, number32_at, part};
use items::items_in;
use packet::{AUDIO, Direction, Items, Message, Refusal, Rx, Tx, audio_length, ptt};

// Reads a packet from a voice switch. (kept: one for each direction, a line over `read`; `Tight` promises both)
#[tactic(auto, unfolding(crate::specs::Reading::read_tx))]
pub fn read_tx(ext: u16, p: &[u8]) -> Result<Tx, Refusal>
    ensures { answer_of result ≡ read_tx ext p.now }
{
    read(Direction::Tx, ext, p).map(Tx::from)
}

// Reads a packet to a voice switch.
#[tactic(auto, unfolding(crate::specs::Reading::read_rx))]
pub fn read_rx(ext: u16, p: &[u8]) -> Result<Rx, Refusal>
    ensures { answer_of result ≡ read_rx ext p.now }
{
    read(Direction::Rx, ext, p).map(Rx::from)
}

// The payload, as a part of the lent packet: what lies behind the words, and an empty part where nothing does.
#[tactic(auto, using(base::proofs::Parts::part_to_end), unfolding(packet::specs::Packet::payload))]
pub fn payload(p: &[u8]) -> &[u8]
    ensures holds { result.now ≡ payload p.now }
    ensures lies { LiesAt p.entry (min (payload_at p.now) (length p.now)) result }
{
    &p[p.len().min(payload_at(p) as usize)..]
}

// Refusals 1 to 12, in this order.
#[tactic(auto, using(crate::proofs::PieceByPiece::read_in_steps))]
fn read(d: Direction, ext: u16, p: &[u8]) -> Result<Message, Refusal>
    ensures { answer_of result ≡ read d ext p.now }
{
    head_verdict(p)?;
    extension_verdict(ext, p)?;
    content(d, p)
}

// 10 to 12, of a packet whose words are all there.
#[tactic(auto, unfolding(crate::specs::Pieces::content_answer, crate::specs::Reading::reader_refusals, crate::specs::Reading::items_here, items::specs::ItemsIn::items_read))]
fn content(d: Direction, p: &[u8]) -> Result<Message, Refusal>
    ensures { answer_of result ≡ content_answer d p.now }
{
    if !field_allowed(d, field(p)) {
        return Err(Refusal::FieldRule);
    }
    let items = items_here(d, p).ok_or(Refusal::ItemRule)?;
    if !payload_allowed(payload_type(p), payload(p).len()) {
        return Err(Refusal::PayloadLength);
    }
    Ok(message(p, items))
}

// What the bytes after the first two of the words hold.
#[tactic(auto, unfolding(packet::specs::Packet::after_field))]
fn items_here(d: Direction, p: &[u8]) -> Option<Items>
    ensures { result ≡ items_read d (x (field p.now)) (after_field p.now) }
{
    let rest = part(p, words_at(p) as usize + 2, payload_at(p) as usize);
    items_in(d, field(p) % 2, rest)
}

// The rules of the first two bytes of the words.
#[tactic(auto, unfolding(packet::specs::Packet::field_allowed))]
fn field_allowed(d: Direction, f: u16) -> bool
    ensures { result ≡ field_allowed d f }
{
    let known = f / 8192 <= u16::from(ptt::TEST);
    match d {
        Direction::Tx => known && f / 4096 % 2 == 0 && f / 2 % 8 == 0,
        Direction::Rx => known && f / 2 % 4 == 0,
    }
}

#[tactic(auto, unfolding(packet::specs::Packet::payload_allowed))]
fn payload_allowed(kind: u8, n: usize) -> bool
    ensures { result ≡ payload_allowed kind n }
{
    if kind == AUDIO {
        audio_length(n)
    } else {
        n == 0
    }
}

#[tactic(auto, unfolding(crate::specs::Reading::message_of))]
fn message(p: &[u8], items: Items) -> Message
    requires { items ≡ kept (items_here p.now) }
    ensures { result ≡ message_of p.now }
{
    let f = field(p);
    Message {
        sequence: number16_at(p, 2),
        timestamp: number32_at(p, 4),
        ssrc: number32_at(p, 8),
        ptt: (f / 8192) as u8,
        squ: f / 4096 % 2 == 1,
        id: (f / 64 % 64) as u8,
        pm: f / 32 % 2 == 1,
        ptts: f / 16 % 2 == 1,
        sct: f / 8 % 2 == 1,
        items,
    }
}
