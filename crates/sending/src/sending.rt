// A tick and its reports: refusals 24 and 26, the closings, and then report behind report, each in what is left of the buffer.
ghost use Rattle.std.specs.Prelude.{◌≡◌, [], ◌≤◌, length};
ghost use Rattle.base.specs.Bytes.{overlaid};
ghost use Rattle.packet.specs.Refusals.{refusal, answer_of};
ghost use Rattle.record.specs.Record.{settled};
ghost use Rattle.air.specs.Air.{aired};
ghost use Rattle.framing.specs.Framing.{framed};
ghost use Rattle.reporting.specs.Reporting.{report_bytes};
ghost use Rattle.sending.specs.Sending.{records_from, in_order, reported_to, sent_bench, no_seats, tick_said, tick_sets, tick_buffer};

use air::aired;
use framing::put_length;
use packet::Refusal;
use record::Bench;
use reporting::{next_sequence, report_of};
use seats::{due_seats, silent_seats, ticked_bench};
use writer::put_rx;

// The longest that one tick may last, in ms.
const LONGEST: u16 = 1000;

// The most bytes that the reports of one tick take: eight of 24, each behind two.
const ROOM: usize = 208;

// Sets of seats: those closed by silence, and those due a report. Seat n has place n - 1.
#[repr(C)]
#[derive(Clone, Copy)]
pub struct SeatSets {
    pub closed: [bool; 8],
    pub due: [bool; 8],
}

// `answer`: the bytes used, or a refusal.
#[derive(Clone, Copy)]
pub struct Ticked {
    pub bench: Bench,
    pub answer: Result<usize, Refusal>,
    pub seats: SeatSets,
}

impl SeatSets {
    pub const NONE: SeatSets = SeatSets {
        closed: [false; 8],
        due: [false; 8],
    };
}

// Lets ms pass, and writes into `out` the report of each seat that is due, lowest seat first, each behind its length. Refused by 24, 26.
#[tactic(auto, using(crate::proofs::SendingLaws::tick_laws), unfolding(crate::specs::Sending::tick_said, crate::specs::Sending::tick_refusals, crate::specs::Sending::tick_sets, crate::specs::Sending::tick_buffer, crate::specs::Sending::sent_bench, crate::specs::Sending::sent_bytes, crate::specs::Sending::records, air::specs::Air::bench_air, air::specs::Air::keyings))]
pub fn tick(b: Bench, ms: u16, timestamp: u32, out: &mut [u8]) -> Ticked
    ensures answer { answer_of result.answer ≡ tick_said b ms timestamp (length out.old) }
    ensures seats { result.seats ≡ tick_sets b ms timestamp (length out.old) }
    ensures buffer { out.new ≡ tick_buffer b ms timestamp out.old }
    ensures bench { result.bench ≡ settled (tick_said b ms timestamp (length out.old)) b (aired (sent_bench b ms)) }
{
    if LONGEST < ms {
        return refused(b, Refusal::ElapsedTooLong);
    }
    if out.len() < ROOM {
        return refused(b, Refusal::BufferTooShort);
    }
    let closed = silent_seats(b.seats, ms);
    let due = due_seats(b.seats, ms);
    let ticked = ticked_bench(b, ms);
    // Who is on the air after the closings: worked out once, for every report and for the record.
    let shown = aired(ticked);
    let used = put_reports(shown, timestamp, due, out);
    Ticked {
        bench: reported_to(due, shown),
        answer: Ok(used),
        seats: SeatSets { closed, due },
    }
}

fn refused(b: Bench, r: Refusal) -> Ticked
    ensures answer { answer_of result.answer ≡ refusal r }
    ensures seats { result.seats ≡ no_seats }
    ensures bench { result.bench ≡ b }
{
    Ticked {
        bench: b,
        answer: Err(r),
        seats: SeatSets::NONE,
    }
}

// The reports of one bench, seat after seat, each in the part of the buffer that those before it left.
#[tactic(auto, using(crate::proofs::SendingLaws::put_laws), unfolding(crate::specs::Sending::records_from, crate::specs::Sending::in_order))]
fn put_reports(shown: Bench, timestamp: u32, due: [bool; 8], out: &mut [u8]) -> usize
    requires { 208 ≤ length out.old }
    ensures long { result ≡ length (in_order (records_from shown timestamp 1 due)) }
    ensures buffer { out.new ≡ overlaid (in_order (records_from shown timestamp 1 due)) out.old }
{
    let mut used = 0;
    for (i, due) in due.iter().enumerate() {
        if *due {
            used += put_framed(shown, timestamp, i as u8 + 1, &mut out[used..]);
        }
    }
    used
}

// The seat's report, straight into its place behind the length, and then the length, which the writer answers.
#[tactic(auto, using(framing::proofs::Framing::length_last), unfolding(framing::specs::Framing::framed))]
fn put_framed(shown: Bench, timestamp: u32, n: u8, out: &mut [u8]) -> usize
    requires { 26 ≤ length out.old }
    ensures long { (result ≡ length (framed (report_bytes shown n timestamp []))) × (result ≤ 26) }
    ensures buffer { out.new ≡ overlaid (framed (report_bytes shown n timestamp [])) out.old }
{
    let long = put_report(shown, timestamp, n, &mut out[2..]);
    put_length(long as u16, out);
    2 + long
}

// The seat's report, which 24 bytes of room always hold: so the writer refuses none.
#[tactic(auto, using(crate::proofs::SendingLaws::report_laws), unfolding(reporting::specs::Reporting::report_bytes, writer::specs::Writing::put, writer::specs::Writing::put_refusals, writer::specs::Writing::after_put))]
fn put_report(shown: Bench, timestamp: u32, n: u8, out: &mut [u8]) -> usize
    requires { 24 ≤ length out.old }
    ensures long { (result ≡ length (report_bytes shown n timestamp [])) × (result ≤ 24) }
    ensures buffer { out.new ≡ overlaid (report_bytes shown n timestamp []) out.old }
{
    put_rx(shown.setup.ext, report_of(shown, n, timestamp), &[], out).unwrap()
}

// The bench after a report to each of these seats.
// kept: by its place, since of `iter_mut` under `zip` a proof knows no element.
#[tactic(auto, using(crate::proofs::SendingLaws::further_laws), unfolding(crate::specs::Sending::one_further))]
fn reported_to(reported: [bool; 8], mut b: Bench) -> Bench
    ensures { result ≡ reported_to reported b }
{
    for (i, reported) in reported.iter().enumerate() {
        if *reported {
            b.sequences[i] = next_sequence(b.sequences[i]);
        }
    }
    b
}
