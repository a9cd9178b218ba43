// What opening, closing, time and the radio do to the bench. Each accepted call leaves the air right in the record (`aired`).
// Start at specs/Opening.antt, then Ticking.antt and Radio.antt, which say in 01's order what the public functions promise.
#![tactic(auto)]

pub mod opening;
pub mod radio;
pub mod ticking;

pub use opening::{CallType, Request, close, open};
pub use radio::{received, side, transmitter};
pub use ticking::{due_seats, silence_cause, silent_seats, ticked_bench};
