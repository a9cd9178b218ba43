// The call that lets time pass: seats closed by silence, and the reports of the seats that are due, into one send buffer.
// Start at specs/Sending.antt, then sending.rt.
#![tactic(auto)]

pub mod sending;

pub use sending::{SeatSets, Ticked, tick};
