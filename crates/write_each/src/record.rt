// A record is 32 bytes that say what to write; numbers are most significant byte first.
//
//     0      direction: 0 TX, else RX           19     an SQI item: 0 absent; 20 its quality, 21 its method
//     1-2    extension type                     22     a CLIMAX item: 0 absent; 23 its delay
//     3-4    sequence                           24     a main/standby item: 0 absent, 1 main, else standby
//     5-8    timestamp                          25-26  length of the audio, at most 512
//     9-12   SSRC                               27-28  room of the lent buffer, at most 512
//     13     PTT type                           29-31  nothing
//     14-18  SQU, ptt-id, PM, PTTS, SCT; a bit is set by any number but 0
ghost use Rattle.std.specs.Prelude.{◌≤◌};

use base::{number16_at, number32_at};
use packet::{Refusal, Rx, Side, Sqi, Tx};
use writer::{write_rx, write_tx};

pub(crate) type Record = [u8; 32];

pub(crate) fn write(record: &Record, audio: &[u8], lent: &mut [u8]) -> Result<usize, Refusal> {
    let ext = number16_at(record, 1);
    if record[0] == 0 {
        write_tx(ext, tx(record), audio, lent)
    } else {
        write_rx(ext, rx(record), audio, lent)
    }
}

fn tx(record: &Record) -> Tx {
    Tx {
        sequence: number16_at(record, 3),
        timestamp: number32_at(record, 5),
        ssrc: number32_at(record, 9),
        ptt: record[13],
        id: record[15],
        pm: record[16] != 0,
        ptts: record[17] != 0,
        climax: (record[22] != 0).then_some(record[23]),
        side: side(record[24]),
    }
}

fn rx(record: &Record) -> Rx {
    Rx {
        sequence: number16_at(record, 3),
        timestamp: number32_at(record, 5),
        ssrc: number32_at(record, 9),
        ptt: record[13],
        squ: record[14] != 0,
        id: record[15],
        pm: record[16] != 0,
        ptts: record[17] != 0,
        sct: record[18] != 0,
        sqi: (record[19] != 0).then_some(Sqi {
            quality: record[20],
            method: record[21],
        }),
        side: side(record[24]),
    }
}

fn side(b: u8) -> Option<Side> {
    match b {
        0 => None,
        1 => Some(Side::Main),
        _ => Some(Side::Standby),
    }
}

pub(crate) fn audio_length(record: &Record) -> usize {
    number16_at(record, 25).min(512) as usize
}

pub(crate) fn room(record: &Record) -> usize
    ensures { result ≤ 512 }
{
    number16_at(record, 27).min(512) as usize
}
