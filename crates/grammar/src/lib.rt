// The console's grammar: what a line of text says. Start at specs/Grammar.antt, which has the calls under the usage lines
// that `help` prints; specs/Said.antt has what one word says. Then call.rt, what a line says, and line.rt, which reads it.
// Private: requests.rt (what `setup` and `open` are given), messages.rt (the messages that `write` is given), pieces.rt (words
// that say more than a number).
#![tactic(auto)]

pub mod call;
pub mod line;
mod messages;
mod pieces;
mod requests;

pub use call::{Call, Lent, Name, ROOM, SetupSaid};
pub use line::{named, parsed};
