// The lines, with no line end. What does not fit into the buffer is dropped.
ghost use Rattle.text.specs.Lines.{Puts};
ghost use Rattle.packet.specs.Refusals.{number_of, cause_of};
ghost use Rattle.show.specs.Lines.{tx_line, rx_line, refused_line, refusal_line};

use crate::pieces::{named, put_climax, put_head, put_side, put_sqi};
use packet::{Refusal, Rx, Tx, cause, number};
use text::Line;

// kept: a line for each direction, whose fields differ (`tx_line`, `rx_line` of Lines.antt).
pub fn tx_line(line: &mut Line, m: Tx, audio: usize)
    ensures { Puts line.old line.new (tx_line m audio) }
{
    put_head(line, b"TX", m.sequence, m.timestamp, m.ssrc, audio, m.ptt);
    named(line, b" id=", m.id as u64);
    named(line, b" pm=", m.pm as u64);
    named(line, b" ptts=", m.ptts as u64);
    put_climax(line, m.climax);
    put_side(line, m.side);
    named(line, b" audio=", audio as u64);
}

pub fn rx_line(line: &mut Line, m: Rx, audio: usize)
    ensures { Puts line.old line.new (rx_line m audio) }
{
    put_head(line, b"RX", m.sequence, m.timestamp, m.ssrc, audio, m.ptt);
    named(line, b" squ=", m.squ as u64);
    named(line, b" id=", m.id as u64);
    named(line, b" pm=", m.pm as u64);
    named(line, b" ptts=", m.ptts as u64);
    named(line, b" sct=", m.sct as u64);
    put_sqi(line, m.sqi);
    put_side(line, m.side);
    named(line, b" audio=", audio as u64);
}

#[tactic(auto, unfolding(crate::specs::Lines::refused_line))]
pub fn refused_line(line: &mut Line, number: u8)
    ensures { Puts line.old line.new (refused_line number) }
{
    named(line, b"refused ", number as u64);
}

pub fn refusal_line(line: &mut Line, refusal: Refusal)
    ensures { Puts line.old line.new (refusal_line (number_of refusal) (cause_of (number_of refusal))) }
{
    refused_line(line, number(refusal));
    named(line, b" cause ", cause(refusal) as u64);
}
