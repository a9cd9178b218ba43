// A packet for a seat: refusals 13, 14, 1 to 12, 19 to 23, 33, what it answers, and the bench after it; and the totals of its packets.
// Start at specs/Hearing.antt, then hearing.rt; specs/Account.antt, then account.rt. Private: admission.rt (refusals 19 to 23, 33),
// memory.rt (what a seat remembers and counts).
#![tactic(auto)]

pub mod account;
mod admission;
pub mod hearing;
mod memory;

pub use account::totals;
pub use hearing::{Hearing, audio, packet};
