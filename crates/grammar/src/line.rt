// From a line to its call. What is no call in every word is `Wrong`: a word that is not there, or a last word with more
// behind it, is empty, and says nothing.
ghost use Rattle.std.specs.Prelude.{◌≡◌, length};
ghost use Rattle.grammar.specs.Grammar.{named_in, call_in, bytes_in, close_in, tick_in, received_in, transmitter_in, side_call_in, quality_call_in, alone, totals_in};
ghost use Rattle.grammar.specs.Pieces.{bytes_word, write_bytes, said_with, setup_with, open_with, packet_with, report_with, read_with, write_tx_with, write_rx_with, write_with};

use crate::call::{Call, Name};
use crate::messages::{rx, tx};
use crate::pieces::{direction, lent, one_of, room, second};
use crate::requests::{modes, request};
use packet::Direction;
use words::{byte, bytes, half, last, level, number, word};

// Which call the first word of a line names.
#[tactic(auto, unfolding(crate::specs::Grammar::named_in))]
pub fn named(s: &[u8]) -> Option<Name>
    ensures { result ≡ named_in s.now }
{
    one_of(
        word(s, 0),
        b"setup open close tick packet report received transmitter side read write quality air totals help",
        &Name::ALL,
    )
}

// Bytes that the line gives are put into `room`.
#[tactic(auto, using(crate::proofs::Together::call_said, crate::proofs::Together::bytes_said_by_line), unfolding(crate::specs::Grammar::call_in))]
pub fn parsed(s: &[u8], room: &mut [u8]) -> Call
    ensures value { result ≡ call_in s.now (length room.old) }
    ensures room_after { room.new ≡ bytes_in s.now room.old }
{
    let name = named(s);
    let given = bytes(bytes_word(s, name), room);
    if word(s, 0).is_empty() {
        Call::Nothing
    } else {
        said(s, name, given).unwrap_or(Call::Wrong)
    }
}

// The word that gives bytes; an empty one where the call has none.
#[tactic(auto, unfolding(crate::specs::Pieces::bytes_word))]
fn bytes_word(s: &[u8], name: Option<Name>) -> &[u8]
    ensures { result.now ≡ bytes_word s.now name }
{
    match name {
        Some(Name::Packet | Name::Read) => last(s, 2),
        Some(Name::Report) => word(s, 3),
        Some(Name::Write) => write_bytes(s),
        _ => b"",
    }
}

#[tactic(auto, unfolding(crate::specs::Pieces::write_bytes))]
fn write_bytes(s: &[u8]) -> &[u8]
    ensures { result.now ≡ write_bytes s.now }
{
    match direction(word(s, 1)) {
        Some(Direction::Tx) => word(s, 11),
        Some(Direction::Rx) => word(s, 13),
        None => b"",
    }
}

// `given` is how many bytes the line gave, where it gave any that could be read.
#[tactic(auto, unfolding(crate::specs::Grammar::air_in, crate::specs::Grammar::help_in))]
fn said(s: &[u8], name: Option<Name>, given: Option<usize>) -> Option<Call>
    ensures { result ≡ said_with s.now name given }
{
    match name? {
        Name::Setup => setup(s),
        Name::Open => open(s),
        Name::Close => close(s),
        Name::Tick => tick(s),
        Name::Packet => packet(s, given),
        Name::Report => report(s, given),
        Name::Received => received(s),
        Name::Transmitter => transmitter(s),
        Name::Side => side(s),
        Name::Read => read(s, given),
        Name::Write => write(s, given),
        Name::Quality => quality(s),
        Name::Air => alone(s, Call::Air),
        Name::Totals => totals(s),
        Name::Help => alone(s, Call::Help),
    }
}

fn setup(s: &[u8]) -> Option<Call>
    ensures { result ≡ setup_with s.now }
{
    Some(Call::Setup(modes(s)?))
}

fn open(s: &[u8]) -> Option<Call>
    ensures { result ≡ open_with s.now }
{
    Some(Call::Open {
        seat: byte(word(s, 1))?,
        request: request(s)?,
    })
}

#[tactic(auto, unfolding(crate::specs::Grammar::close_in))]
fn close(s: &[u8]) -> Option<Call>
    ensures { result ≡ close_in s.now }
{
    Some(Call::Close(byte(last(s, 1))?))
}

#[tactic(auto, unfolding(crate::specs::Grammar::tick_in))]
fn tick(s: &[u8]) -> Option<Call>
    ensures { result ≡ tick_in s.now }
{
    Some(Call::Tick {
        ms: half(word(s, 1))?,
        timestamp: number(word(s, 2))?,
        room: room(last(s, 3))?,
    })
}

fn packet(s: &[u8], given: Option<usize>) -> Option<Call>
    ensures { result ≡ packet_with s.now given }
{
    Some(Call::Packet {
        seat: byte(word(s, 1))?,
        count: given?,
    })
}

fn report(s: &[u8], given: Option<usize>) -> Option<Call>
    ensures { result ≡ report_with s.now given }
{
    Some(Call::Report {
        seat: byte(word(s, 1))?,
        timestamp: number(word(s, 2))?,
        lent: lent(given, last(s, 4))?,
    })
}

#[tactic(auto, unfolding(crate::specs::Grammar::received_in))]
fn received(s: &[u8]) -> Option<Call>
    ensures { result ≡ received_in s.now }
{
    Some(Call::Received {
        signals: byte(word(s, 1))?,
        level: level(last(s, 2))?,
    })
}

#[tactic(auto, unfolding(crate::specs::Grammar::transmitter_in))]
fn transmitter(s: &[u8]) -> Option<Call>
    ensures { result ≡ transmitter_in s.now }
{
    Some(Call::Transmitter {
        healthy: second(last(s, 1), b"unhealthy healthy")?,
    })
}

#[tactic(auto, unfolding(crate::specs::Grammar::side_call_in))]
fn side(s: &[u8]) -> Option<Call>
    ensures { result ≡ side_call_in s.now }
{
    Some(Call::Side {
        standby: second(last(s, 1), b"main standby")?,
    })
}

fn read(s: &[u8], given: Option<usize>) -> Option<Call>
    ensures { result ≡ read_with s.now given }
{
    let count = given?;
    one_of(
        word(s, 1),
        b"tx rx",
        &[Call::ReadTx(count), Call::ReadRx(count)],
    )
}

fn write(s: &[u8], given: Option<usize>) -> Option<Call>
    ensures { result ≡ write_with s.now given }
{
    match direction(word(s, 1))? {
        Direction::Tx => write_tx(s, given),
        Direction::Rx => write_rx(s, given),
    }
}

fn write_tx(s: &[u8], given: Option<usize>) -> Option<Call>
    ensures { result ≡ write_tx_with s.now given }
{
    Some(Call::WriteTx {
        message: tx(s)?,
        lent: lent(given, last(s, 12))?,
    })
}

fn write_rx(s: &[u8], given: Option<usize>) -> Option<Call>
    ensures { result ≡ write_rx_with s.now given }
{
    Some(Call::WriteRx {
        message: rx(s)?,
        lent: lent(given, last(s, 14))?,
    })
}

#[tactic(auto, unfolding(crate::specs::Grammar::quality_call_in))]
fn quality(s: &[u8]) -> Option<Call>
    ensures { result ≡ quality_call_in s.now }
{
    Some(Call::Quality(level(last(s, 1))?))
}

#[tactic(auto, unfolding(crate::specs::Grammar::totals_in))]
fn totals(s: &[u8]) -> Option<Call>
    ensures { result ≡ totals_in s.now }
{
    Some(Call::Totals(byte(last(s, 1))?))
}

// A call that is its name alone.
fn alone(s: &[u8], call: Call) -> Option<Call>
    ensures { result ≡ alone s.now call }
{
    if last(s, 0).is_empty() {
        None
    } else {
        Some(call)
    }
}
