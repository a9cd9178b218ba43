// The writers of packets: refusals 27 and 26, and the packet in its plain form; and below them one that refuses 26 alone.
// Start at specs/Writing.antt, which says what the public functions promise; then writing.rt. Private: plain.rt (the bytes of
// a packet).
#![tactic(auto)]

mod plain;
pub mod writing;

pub use writing::{put_rx, write_rx, write_tx};
