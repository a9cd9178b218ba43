// The line that shows a packet, as document 01 prints it. Start at specs/Lines.antt; then line.rt, the lines of messages
// and refusals, and decoded.rt, the line of a packet's bytes. proofs/Enough.antt: 377 bytes decide what is printed.
#![tactic(auto)]

pub mod decoded;
pub mod line;
mod pieces;

pub use decoded::{answer_line, decode};
pub use line::{refusal_line, refused_line, rx_line, tx_line};
