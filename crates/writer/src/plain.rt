// The plain form of a message: CC 0, items by rising type, the fewest words that hold them.
// Its pieces are made as values and laid over the buffer as far as there is room, so that no function asks for room.
ghost use Rattle.std.specs.Prelude.{◌≡◌, ◌++◌, ◌+◌, ◌%◌, length};
ghost use Rattle.base.specs.Bytes.{bytes16, placed, overlaid};
ghost use Rattle.packet.specs.Items.{some_item};
ghost use Rattle.writer.specs.Pieces.{padded};
ghost use Rattle.writer.specs.Writing.{rising_items, item_bytes, side_listed, fewest_words, field_of, words_of, kind_for, head_of, encode};

use base::{bit, copy_in};
use packet::{AUDIO, Items, Message, R2S, Side, Sqi, item};

// The first byte of the packet: version 2, padding 0, extension 1, CC 0.
const FIRST: u8 = 144;

// The first byte of an item: its type in the high half, length 1 in the low half.
const SQI: u8 = item::SQI * 16 + 1;

const CLIMAX: u8 = item::CLIMAX * 16 + 1;

const SIDE: u8 = item::SIDE * 16 + 1;

// The packet, over the front of the buffer.
#[tactic(auto, using(crate::proofs::WrittenLaws::heads_and_content, base::proofs::Buffers::overlaid_then))]
pub(crate) fn put_packet(ext: u16, m: Message, audio: &[u8], out: &mut [u8])
    ensures { out.new ≡ overlaid (encode ext m audio.now) out.old }
{
    let bytes = heads(ext, m, kind_for(audio.len()), fewest_words(m.items));
    let put = copy_in(out, &bytes);
    put_content(m, audio, &mut out[put..]);
}

// The words and the audio, over the front of the buffer.
#[tactic(auto, using(crate::proofs::Words::content))]
fn put_content(m: Message, audio: &[u8], out: &mut [u8])
    ensures { out.new ≡ overlaid (words_of m (rising_items m.items) ++ audio.now) out.old }
{
    let bytes = words(m);
    let end = 4 * fewest_words(m.items) as usize;
    let put = copy_in(out, &bytes[..end]);
    copy_in(&mut out[put..], audio);
}

// The RTP head and the extension's head.
#[tactic(auto, unfolding(crate::specs::Writing::head_of))]
fn heads(ext: u16, m: Message, kind: u8, words: u16) -> [u8; 16]
    ensures { result ≡ head_of m kind ++ bytes16 ext ++ bytes16 words }
{
    let [n0, n1] = m.sequence.to_be_bytes();
    let [t0, t1, t2, t3] = m.timestamp.to_be_bytes();
    let [s0, s1, s2, s3] = m.ssrc.to_be_bytes();
    let [e0, e1] = ext.to_be_bytes();
    let [w0, w1] = words.to_be_bytes();
    [
        FIRST, kind, n0, n1, t0, t1, t2, t3, s0, s1, s2, s3, e0, e1, w0, w1,
    ]
}

fn kind_for(audio: usize) -> u8
    ensures { result ≡ kind_for audio }
{
    if audio == 0 { R2S } else { AUDIO }
}

// The words, and zeros up to the length of two.
#[tactic(auto, unfolding(crate::specs::Writing::words_of, crate::specs::Writing::item_bytes, crate::specs::Writing::rising_items))]
fn words(m: Message) -> [u8; 8]
    ensures { result ≡ padded 8 (words_of m (rising_items m.items)) }
{
    let [_, _, high, low] = field(m).to_be_bytes();
    // Main/standby has the highest type and comes last; absent, it leaves zeros.
    let [head, value] = side_item(m.items.side);
    match (m.items.sqi, m.items.climax) {
        (None, None) => [high, low, head, value, 0, 0, 0, 0],
        (None, Some(delay)) => [high, low, CLIMAX, climax_value(delay), head, value, 0, 0],
        (Some(sqi), None) => [high, low, SQI, sqi_value(sqi), head, value, 0, 0],
        (Some(sqi), Some(delay)) => [
            high,
            low,
            SQI,
            sqi_value(sqi),
            CLIMAX,
            climax_value(delay),
            head,
            value,
        ],
    }
}

// The first two bytes of the words, as one number.
// kept: products and sums, since a value that does not fit its bits runs over into those in front (`field_of`).
fn field(m: Message) -> u32
    ensures { result ≡ field_of m (rising_items m.items) }
{
    m.ptt as u32 * 8192
        + bit(m.squ) as u32 * 4096
        + m.id as u32 * 64
        + bit(m.pm) as u32 * 32
        + bit(m.ptts) as u32 * 16
        + bit(m.sct) as u32 * 8
        + bit(some_item(m.items)) as u32
}

fn sqi_value(sqi: Sqi) -> u8
    ensures { result ≡ (placed 8 0 5 sqi.quality + placed 8 5 3 sqi.method) % 256 }
{
    sqi.quality.wrapping_mul(8).wrapping_add(sqi.method)
}

fn climax_value(delay: u8) -> u8
    ensures { result ≡ (placed 8 0 1 1 + placed 8 1 7 delay) % 256 }
{
    delay.wrapping_add(128)
}

// A main/standby item, and zeros where there is none.
#[tactic(auto, unfolding(crate::specs::Writing::item_bytes))]
fn side_item(side: Option<Side>) -> [u8; 2]
    ensures { result ≡ padded 2 (item_bytes (side_listed side)) }
{
    match side {
        None => [0, 0],
        Some(Side::Main) => [SIDE, 0],
        Some(Side::Standby) => [SIDE, 128],
    }
}

// What X says.
fn some_item(k: Items) -> bool
    ensures { result ≡ some_item (rising_items k) }
{
    item_count(k) != 0
}

#[tactic(auto, unfolding(crate::specs::Writing::item_bytes, crate::specs::Writing::rising_items))]
pub(crate) fn fewest_words(k: Items) -> u16
    ensures { result ≡ fewest_words (rising_items k) }
{
    (2 + 2 * item_count(k)).div_ceil(4)
}

#[tactic(auto, unfolding(crate::specs::Writing::rising_items))]
fn item_count(k: Items) -> u16
    ensures { result ≡ length (rising_items k) }
{
    k.sqi.is_some() as u16 + k.climax.is_some() as u16 + k.side.is_some() as u16
}
