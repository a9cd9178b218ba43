// What the decoding programs print for a packet.
ghost use Rattle.text.specs.Lines.{Puts};
ghost use Rattle.packet.specs.Refusals.{answer_of};
ghost use Rattle.show.specs.Lines.{answer_line, decoded_line};

use crate::line::{refused_line, tx_line};
use packet::{Refusal, Tx, number};
use reader::{payload, read_tx};
use text::Line;

#[tactic(auto, unfolding(crate::specs::Lines::answer_line))]
pub fn answer_line(line: &mut Line, read: Result<Tx, Refusal>, audio: usize)
    ensures { Puts line.old line.new (answer_line (answer_of read) audio) }
{
    match read {
        Ok(m) => tx_line(line, m, audio),
        Err(r) => refused_line(line, number(r)),
    }
}

// The line of a packet, with its end, so that a program writes it in one call.
pub fn decode(line: &mut Line, ext: u16, p: &[u8])
    ensures { Puts line.old line.new (decoded_line ext p.now) }
{
    answer_line(line, read_tx(ext, p), payload(p).len());
    line.put_byte(b'\n');
}
