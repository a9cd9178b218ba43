// The messages that `write` is given.
ghost use Rattle.std.specs.Prelude.{◌≡◌};
ghost use Rattle.grammar.specs.Said.{climax_in, side_in, quality_in, sqi_in};
ghost use Rattle.grammar.specs.Pieces.{head_in, key_in, tx_in, rx_in};

use crate::pieces::{flag, one_of};
use base::part;
use packet::{Rx, Side, Sqi, Tx};
use words::{byte, dash, half, number, place_of, word};

#[derive(Clone, Copy)]
struct HeadSaid {
    sequence: u16,
    timestamp: u32,
    ssrc: u32,
    ptt: u8,
}

#[derive(Clone, Copy)]
struct KeySaid {
    id: u8,
    pm: bool,
    ptts: bool,
}

// SEQ TS SSRC PTT, from word 2 on.
#[tactic(auto, unfolding(crate::specs::Pieces::head_in))]
fn head(s: &[u8]) -> Option<HeadSaid>
    ensures { result ≡ head_in s.now }
{
    Some(HeadSaid {
        sequence: half(word(s, 2))?,
        timestamp: number(word(s, 3))?,
        ssrc: number(word(s, 4))?,
        ptt: byte(word(s, 5))?,
    })
}

// ID PM PTTS
#[tactic(auto, unfolding(crate::specs::Pieces::key_in))]
fn key(id: &[u8], pm: &[u8], ptts: &[u8]) -> Option<KeySaid>
    ensures { result ≡ key_in id.now pm.now ptts.now }
{
    Some(KeySaid {
        id: byte(id)?,
        pm: flag(pm)?,
        ptts: flag(ptts)?,
    })
}

// CLD
#[tactic(auto, unfolding(crate::specs::Said::climax_in))]
fn climax(w: &[u8]) -> Option<Option<u8>>
    ensures { result ≡ climax_in w.now }
{
    if dash(w) {
        Some(None)
    } else {
        Some(Some(byte(w)?))
    }
}

// MSS
fn side(w: &[u8]) -> Option<Option<Side>>
    ensures { result ≡ side_in w.now }
{
    one_of(w, b"- 0 1", &[None, Some(Side::Main), Some(Side::Standby)])
}

// QUALITY/METHOD
fn quality(w: &[u8]) -> Option<Option<Sqi>>
    ensures { result ≡ quality_in w.now }
{
    let slash = place_of(w, b'/')?;
    Some(Some(Sqi {
        quality: byte(&w[..slash])?,
        method: byte(&w[slash + 1..])?,
    }))
}

// SQI
#[tactic(auto, unfolding(crate::specs::Said::sqi_in))]
fn sqi(w: &[u8]) -> Option<Option<Sqi>>
    ensures { result ≡ sqi_in w.now }
{
    if dash(w) { Some(None) } else { quality(w) }
}

// SEQ TS SSRC PTT ID PM PTTS CLD MSS, from word 2 on.
#[tactic(auto, unfolding(crate::specs::Pieces::tx_in))]
pub(crate) fn tx(s: &[u8]) -> Option<Tx>
    ensures { result ≡ tx_in s.now }
{
    let head = head(s)?;
    let key = key(word(s, 6), word(s, 7), word(s, 8))?;
    Some(Tx {
        sequence: head.sequence,
        timestamp: head.timestamp,
        ssrc: head.ssrc,
        ptt: head.ptt,
        id: key.id,
        pm: key.pm,
        ptts: key.ptts,
        climax: climax(word(s, 9))?,
        side: side(word(s, 10))?,
    })
}

// SEQ TS SSRC PTT SQU ID PM PTTS SCT SQI MSS, from word 2 on.
#[tactic(auto, unfolding(crate::specs::Pieces::rx_in))]
pub(crate) fn rx(s: &[u8]) -> Option<Rx>
    ensures { result ≡ rx_in s.now }
{
    let head = head(s)?;
    let squ = flag(word(s, 6))?;
    let key = key(word(s, 7), word(s, 8), word(s, 9))?;
    Some(Rx {
        sequence: head.sequence,
        timestamp: head.timestamp,
        ssrc: head.ssrc,
        ptt: head.ptt,
        squ,
        id: key.id,
        pm: key.pm,
        ptts: key.ptts,
        sct: flag(word(s, 10))?,
        sqi: sqi(word(s, 11))?,
        side: side(word(s, 12))?,
    })
}
