// Rules that the readers and the writers share, and PTT on, which the bench asks.
ghost use Rattle.std.specs.Prelude.{◌≡◌};
ghost use Rattle.packet.specs.Items.{sqi_allowed};
ghost use Rattle.packet.specs.Packet.{audio_length, ptt_on};

use crate::ptt;

// The payload types.
pub const AUDIO: u8 = 8;

pub const R2S: u8 = 123;

// The method RSSI.
pub const RSSI: u8 = 0;

// The values that an SQI item may have.
pub fn sqi_allowed(quality: u8, method: u8) -> bool
    ensures { result ≡ sqi_allowed quality method }
{
    match method {
        RSSI => quality <= 15,
        1..=3 => quality <= 31,
        _ => false,
    }
}

// 10, 20 or 30 ms of audio.
pub fn audio_length(n: usize) -> bool
    ensures { result ≡ audio_length n }
{
    matches!(n, 80 | 160 | 240)
}

// PTT on: a type that is not off; the reserved codes are none.
pub fn ptt_on(ptt: u8) -> bool
    ensures { result ≡ ptt_on ptt }
{
    matches!(ptt, ptt::NORMAL..=ptt::TEST)
}
