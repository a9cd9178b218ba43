// The readers of packets: refusals 1 to 12, and the message and the payload of an accepted packet.
// Start at specs/Reading.antt, which says what the public functions promise; then reading.rt. Private: frame.rt (refusals
// 1 to 9).
#![tactic(auto)]

mod frame;
pub mod reading;

pub use reading::{payload, read_rx, read_tx};
