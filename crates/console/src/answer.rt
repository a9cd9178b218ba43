// The answer to a call: the library is asked, and what it says is written as a line, with no line end.
use crate::say::{
    air_line, heard_line, opened_line, quality_line, ticked_line, totals_line, written_line,
};
use crate::usage::{expected, help};
use base::part;
use bench::{Answered, Bench, Setup, kind_code};
use grammar::{Call, Lent, ROOM, SetupSaid};
use packet::{Refusal, quality};
use reader::{payload, read_rx, read_tx};
use show::{refusal_line, rx_line, tx_line};
use std::array;
use text::Line;
use writer::{write_rx, write_tx};

// The answer is on the line, unless the call is refused.
type Said = Result<(), Refusal>;

// `bytes` has the bytes that the line gave; the line itself says what was expected where it is no call.
pub(crate) fn answer(b: &mut Bench, call: Call, s: &[u8], bytes: &[u8], line: &mut Line) {
    if let Err(r) = accepted(b, call, s, bytes, line) {
        refusal_line(line, r);
    }
}

fn accepted(b: &mut Bench, call: Call, s: &[u8], bytes: &[u8], line: &mut Line) -> Said {
    let ext = b.setup.ext;
    match call {
        Call::Nothing => {}
        Call::Setup(said) => set(b, Bench::fresh(setup(said)), line),
        Call::Open { seat, request } => opened_line(line, kept(b, bench::open(*b, seat, request))?),
        Call::Close(seat) => done(b, bench::close(*b, seat), line)?,
        Call::Tick {
            ms,
            timestamp,
            room,
        } => tick(b, ms, timestamp, room, line)?,
        Call::Packet { seat, count } => hear(b, seat, part(bytes, 0, count), line)?,
        Call::Report {
            seat,
            timestamp,
            lent,
        } => report(b, seat, timestamp, lent, bytes, line)?,
        Call::Received { signals, level } => set(b, bench::received(*b, signals, level), line),
        Call::Transmitter { healthy } => set(b, bench::transmitter(*b, healthy), line),
        Call::Side { standby } => done(b, bench::side(*b, standby), line)?,
        Call::ReadTx(count) => tx(ext, part(bytes, 0, count), line)?,
        Call::ReadRx(count) => rx(ext, part(bytes, 0, count), line)?,
        Call::WriteTx { message, lent } => write(lent, bytes, line, |audio, buffer| {
            write_tx(ext, message, audio, buffer)
        })?,
        Call::WriteRx { message, lent } => write(lent, bytes, line, |audio, buffer| {
            write_rx(ext, message, audio, buffer)
        })?,
        Call::Quality(level) => quality_line(line, quality(level)),
        Call::Air => air_line(line, b.air),
        Call::Totals(seat) => totals_line(line, bench::totals(*b, seat)?),
        Call::Help => help(line),
        Call::Wrong => expected(line, s),
    }
    Ok(())
}

// A call that is always accepted, and tells nothing.
fn set(b: &mut Bench, after: Bench, line: &mut Line) {
    *b = after;
    line.put(b"ok");
}

fn setup(said: SetupSaid) -> Setup {
    Setup {
        // Seats as bits, seat 1 the lowest.
        lesson: array::from_fn(|i| (said.lessons >> i) & 1 == 1),
        ext: said.ext,
        kind: kind_code(said.kind),
        equal_summation: said.equal_summation,
        coupling_summation: said.coupling_summation,
    }
}

// Keeps the bench after a call, and hands on what the call answers.
fn kept<T>(b: &mut Bench, after: Answered<T>) -> Result<T, Refusal> {
    *b = after.bench;
    after.answer
}

// A call that tells nothing.
fn done(b: &mut Bench, after: Answered<()>, line: &mut Line) -> Said {
    kept(b, after)?;
    line.put(b"ok");
    Ok(())
}

fn tick(b: &mut Bench, ms: u16, timestamp: u32, room: usize, line: &mut Line) -> Said {
    let mut buffer = [0u8; ROOM];
    let ticked = bench::tick(*b, ms, timestamp, &mut buffer[..room.min(ROOM)]);
    *b = ticked.bench;
    let used = ticked.answer?;
    ticked_line(line, ticked.seats, part(&buffer, 0, used));
    Ok(())
}

fn hear(b: &mut Bench, seat: u8, p: &[u8], line: &mut Line) -> Said {
    let answer = kept(b, bench::packet(*b, seat, p));
    heard_line(line, answer?, bench::audio(answer, p));
    Ok(())
}

fn report(
    b: &mut Bench,
    seat: u8,
    timestamp: u32,
    lent: Lent,
    bytes: &[u8],
    line: &mut Line,
) -> Said {
    write(lent, bytes, line, |audio, buffer| {
        kept(b, bench::report(*b, seat, timestamp, audio, buffer))
    })
}

fn tx(ext: u16, p: &[u8], line: &mut Line) -> Said {
    tx_line(line, read_tx(ext, p)?, payload(p).len());
    Ok(())
}

fn rx(ext: u16, p: &[u8], line: &mut Line) -> Said {
    rx_line(line, read_rx(ext, p)?, payload(p).len());
    Ok(())
}

// What `writer` writes, given the audio and the buffer that are lent.
fn write<W: FnOnce(&[u8], &mut [u8]) -> Result<usize, Refusal>>(
    lent: Lent,
    bytes: &[u8],
    line: &mut Line,
    writer: W,
) -> Said
    requires { W.IsAlwaysCallable writer }
{
    let mut buffer = [0u8; ROOM];
    let room = lent.room.min(ROOM);
    let n = writer(part(bytes, 0, lent.audio), &mut buffer[..room])?;
    written_line(line, part(&buffer, 0, n));
    Ok(())
}
