// What a packet of document 01 is: the messages of both directions, every refusal with its number and cause, the rules that
// readers and writers share, and the quality of a level.
// Start at specs/Packet.antt, Items.antt and Refusals.antt, which say it in 01's order; the crates `reader` and `writer` do it.
// Messages.antt has what a message of one direction is as one of either. item.rt and ptt.rt name the types of items and of PTT.
// Apart from these, level.rt is the quality of a level, said in specs/Quality.antt.
#![tactic(auto)]

pub mod item;
pub mod level;
pub mod message;
pub mod ptt;
pub mod refusal;
pub mod rules;

pub use level::quality;
pub use message::{Direction, Items, Message, Rx, Side, Sqi, Tx};
pub use refusal::{Refusal, cause, number};
pub use rules::{AUDIO, R2S, RSSI, audio_length, ptt_on, sqi_allowed};
