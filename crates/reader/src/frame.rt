// The RTP head and the extension's head: refusals 1 to 9.
ghost use Rattle.std.specs.Prelude.{◌≡◌};
ghost use Rattle.packet.specs.Packet.{payload_type, extension_at, extension_type, word_count, words_at, payload_at, field};
ghost use Rattle.packet.specs.Refusals.{answer_of};
ghost use Rattle.reader.specs.Pieces.{head_verdict, extension_verdict};

use base::{byte_at, number16_at};
use packet::{AUDIO, R2S, Refusal};

// 1 to 5: the RTP head.
#[tactic(auto, using(base::proofs::Tests::tests), unfolding(crate::specs::Pieces::head_verdict, crate::specs::Reading::reader_refusals))]
pub(crate) fn head_verdict(p: &[u8]) -> Result<(), Refusal>
    ensures { answer_of result ≡ head_verdict p.now }
{
    if p.len() < 12 {
        return Err(Refusal::TooShort);
    }
    let (b0, b1) = (p[0], p[1]);
    if b0 / 64 != 2 {
        return Err(Refusal::WrongVersion);
    }
    if b0 / 32 % 2 == 1 || b1 / 128 == 1 {
        return Err(Refusal::PaddingOrMarker);
    }
    if b0 / 16 % 2 != 1 {
        return Err(Refusal::NoExtension);
    }
    match b1 % 128 {
        AUDIO | R2S => Ok(()),
        _ => Err(Refusal::PayloadType),
    }
}

// 8 for audio, 123 for R2S.
pub(crate) fn payload_type(p: &[u8]) -> u8
    ensures { result ≡ payload_type p.now }
{
    byte_at(p, 1) % 128
}

// Where the extension begins, behind the CSRC words.
fn extension_at(p: &[u8]) -> u32
    ensures { result ≡ extension_at p.now }
{
    12 + 4 * u32::from(byte_at(p, 0) % 16)
}

fn extension_type(p: &[u8]) -> u16
    ensures { result ≡ extension_type p.now }
{
    number16_at(p, extension_at(p))
}

// W, the number of words of the extension.
fn word_count(p: &[u8]) -> u16
    ensures { result ≡ word_count p.now }
{
    number16_at(p, extension_at(p) + 2)
}

pub(crate) fn words_at(p: &[u8]) -> u32
    ensures { result ≡ words_at p.now }
{
    extension_at(p) + 4
}

pub(crate) fn payload_at(p: &[u8]) -> u32
    ensures { result ≡ payload_at p.now }
{
    words_at(p) + 4 * u32::from(word_count(p))
}

// The first two bytes of the words.
pub(crate) fn field(p: &[u8]) -> u16
    ensures { result ≡ field p.now }
{
    number16_at(p, words_at(p))
}

// 6 to 9: the extension's head, and its words.
#[tactic(auto, using(base::proofs::Tests::tests), unfolding(crate::specs::Pieces::extension_verdict, crate::specs::Reading::reader_refusals))]
pub(crate) fn extension_verdict(ext: u16, p: &[u8]) -> Result<(), Refusal>
    ensures { answer_of result ≡ extension_verdict ext p.now }
{
    if p.len() < words_at(p) as usize {
        return Err(Refusal::ExtensionCut);
    }
    if extension_type(p) != ext {
        return Err(Refusal::ExtensionType);
    }
    let count = word_count(p);
    if count == 0 || 15 < count {
        return Err(Refusal::WordCount);
    }
    if p.len() < payload_at(p) as usize {
        return Err(Refusal::WordsCut);
    }
    Ok(())
}
