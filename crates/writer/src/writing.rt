// The writers: refusals 27 and 26, then the packet in its plain form (plain.rt). `put_rx` is below 27.
ghost use Rattle.std.specs.Prelude.{◌≡◌, length};
ghost use Rattle.packet.specs.Messages.{from_tx, from_rx};
ghost use Rattle.packet.specs.Refusals.{answer_of};
ghost use Rattle.writer.specs.Writing.{writable, write, buffered, put, after_put};

use crate::plain::{fewest_words, put_packet};
use packet::{Message, Refusal, Rx, Tx, audio_length, ptt, sqi_allowed};

// Writes a packet from a voice switch, and answers its length. (kept: one for each direction; `Tight` promises both)
pub fn write_tx(ext: u16, m: Tx, audio: &[u8], out: &mut [u8]) -> Result<usize, Refusal>
    ensures result_value { answer_of result ≡ write ext (from_tx m) audio.now (length out.old) }
    ensures out_after { out.new ≡ buffered ext (from_tx m) audio.now out.old }
{
    write(ext, m.into(), audio, out)
}

// Writes a packet to a voice switch, and answers its length.
pub fn write_rx(ext: u16, m: Rx, audio: &[u8], out: &mut [u8]) -> Result<usize, Refusal>
    ensures result_value { answer_of result ≡ write ext (from_rx m) audio.now (length out.old) }
    ensures out_after { out.new ≡ buffered ext (from_rx m) audio.now out.old }
{
    write(ext, m.into(), audio, out)
}

// Writes a packet to a voice switch whatever its values are, and refuses it with 26 alone. Reports are written by it.
pub fn put_rx(ext: u16, m: Rx, audio: &[u8], out: &mut [u8]) -> Result<usize, Refusal>
    ensures result_value { answer_of result ≡ put ext (from_rx m) audio.now (length out.old) }
    ensures out_after { out.new ≡ after_put ext (from_rx m) audio.now out.old }
{
    put(ext, m.into(), audio, out)
}

// 27 first; then as `put`.
#[tactic(auto, unfolding(crate::specs::Writing::write, crate::specs::Writing::writer_refusals, crate::specs::Writing::buffered, crate::specs::Writing::put_refusals, crate::specs::Writing::put, crate::specs::Writing::after_put))]
fn write(ext: u16, m: Message, audio: &[u8], out: &mut [u8]) -> Result<usize, Refusal>
    ensures result_value { answer_of result ≡ write ext m audio.now (length out.old) }
    ensures out_after { out.new ≡ buffered ext m audio.now out.old }
{
    if !writable(m, audio.len()) {
        return Err(Refusal::UnwritableValue);
    }
    put(ext, m, audio, out)
}

// 26 alone, or the packet.
#[tactic(auto, using(crate::proofs::WrittenLaws::encoded_length, base::proofs::Buffers::overlaid_fits), unfolding(crate::specs::Writing::put_refusals, crate::specs::Writing::put, crate::specs::Writing::after_put))]
fn put(ext: u16, m: Message, audio: &[u8], out: &mut [u8]) -> Result<usize, Refusal>
    ensures result_value { answer_of result ≡ put ext m audio.now (length out.old) }
    ensures out_after { out.new ≡ after_put ext m audio.now out.old }
{
    let needed = 16 + 4 * fewest_words(m.items) as usize + audio.len();
    if needed > out.len() {
        return Err(Refusal::BufferTooShort);
    }
    put_packet(ext, m, audio, out);
    Ok(needed)
}

// A reader would take these values, with so much audio.
#[tactic(auto, unfolding(crate::specs::Writing::writable))]
fn writable(m: Message, n: usize) -> bool
    ensures { result ≡ writable m n }
{
    m.ptt <= ptt::TEST
        && m.id <= 63
        && m.items
            .sqi
            .is_none_or(|sqi| sqi_allowed(sqi.quality, sqi.method))
        && m.items.climax.is_none_or(|delay| delay <= 127)
        && (n == 0 || audio_length(n))
}
