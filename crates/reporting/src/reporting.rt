// Reports to a seat: the message, the refusals in front of it, and the sequence number behind it.
ghost use Rattle.std.specs.Prelude.{◌≡◌, false, length};
ghost use Rattle.packet.specs.Refusals.{answer_of};
ghost use Rattle.record.specs.Record.{settled};
ghost use Rattle.reporting.specs.Reporting.{id_told, sqi_told, audio_barred, report_of, report_said, report_buffer, next_sequence, reported_bench};

use packet::{RSSI, Refusal, Rx, Sqi, audio_length, quality};
use record::kind::{kind_of, side_told};
use record::{Air, Answered, Bench, entry_of, is_open, seat_of, set_entry};
use seats::opening::{own_id, seat_verdict};
use writer::put_rx;

// A report for seat n, written into `out`: its length, and the bench with the next sequence number. Refused by 13, 14, 25, 26,
// in this order. It tells the air that the record keeps, and works nothing out.
pub fn report(b: Bench, n: u8, timestamp: u32, audio: &[u8], out: &mut [u8]) -> Answered<usize>
    ensures answer { answer_of result.answer ≡ report_said b n timestamp audio.now (length out.old) }
    ensures buffer { out.new ≡ report_buffer b n timestamp audio.now out.old }
    ensures bench { result.bench ≡ settled (report_said b n timestamp audio.now (length out.old)) b (reported_bench b n) }
{
    let answer = written(b, n, timestamp, audio, out);
    let bench = match answer {
        Ok(_) => reported_bench(b, n),
        Err(_) => b,
    };
    Answered { bench, answer }
}

// The report in the buffer. 13, 14 and 25 are asked here, 26 by the writer.
#[tactic(auto, unfolding(crate::specs::Reporting::report_said, crate::specs::Reporting::report_buffer, crate::specs::Reporting::report_refusals, crate::specs::Reporting::report_bytes, seats::specs::Opening::seat_verdict, seats::specs::Opening::seat_refusals, writer::specs::Writing::put, writer::specs::Writing::put_refusals, writer::specs::Writing::after_put))]
fn written(b: Bench, n: u8, timestamp: u32, audio: &[u8], out: &mut [u8]) -> Result<usize, Refusal>
    ensures answer { answer_of result ≡ report_said b n timestamp audio.now (length out.old) }
    ensures buffer { out.new ≡ report_buffer b n timestamp audio.now out.old }
{
    seat_verdict(n, is_open(b.seats, n))?;
    if audio_barred(b.signals, audio.len()) {
        return Err(Refusal::ReportAudio);
    }
    put_rx(b.setup.ext, report_of(b, n, timestamp), audio, out)
}

// 25: audio of another length than 10, 20 or 30 ms, or while no signal is received.
fn audio_barred(signals: u8, audio: usize) -> bool
    ensures { result ≡ audio_barred signals audio }
{
    audio != 0 && (!audio_length(audio) || signals == 0)
}

// The report as a message, of any bench and any number, also one that is no seat's.
#[tactic(auto, unfolding(crate::specs::Reporting::report_of))]
pub fn report_of(b: Bench, n: u8, timestamp: u32) -> Rx
    ensures { result ≡ report_of b n timestamp }
{
    let seat = seat_of(b.seats, n);
    // A copy of these alone: lent out of b, each report of a tick would copy the whole bench.
    let sequences = b.sequences;
    Rx {
        sequence: entry_of(0, &sequences, n),
        timestamp,
        ssrc: seat.ssrc,
        ptt: b.air.ptt,
        squ: 1 <= b.signals,
        id: id_told(b.air, n, seat.call),
        pm: seat.heard.field.pm,
        ptts: b.air.ptts,
        sct: 2 <= b.signals,
        sqi: sqi_told(b.signals, b.level),
        side: side_told(kind_of(b.setup.kind), b.standby),
    }
}

// The seat's own ptt-id if it is on the air at the top rank, else the smallest there, 0 if nobody is.
fn id_told(air: Air, n: u8, call: u8) -> u8
    ensures { result ≡ id_told air n call }
{
    if entry_of(false, &air.leads, n) {
        own_id(n, call)
    } else {
        air.id
    }
}

// With the method RSSI, exactly while a signal is received.
fn sqi_told(signals: u8, level: i16) -> Option<Sqi>
    ensures { result ≡ sqi_told signals level }
{
    (1 <= signals).then(|| Sqi {
        quality: quality(level),
        method: RSSI,
    })
}

// The bench after a report was written: the seat's next sequence number.
#[tactic(auto, unfolding(crate::specs::Reporting::reported_bench))]
fn reported_bench(mut b: Bench, n: u8) -> Bench
    ensures { result ≡ reported_bench b n }
{
    let last = entry_of(0, &b.sequences, n);
    set_entry(&mut b.sequences, n, next_sequence(last));
    b
}

// One up, wrapping.
pub fn next_sequence(last: u16) -> u16
    ensures { result ≡ next_sequence last }
{
    last.wrapping_add(1)
}
