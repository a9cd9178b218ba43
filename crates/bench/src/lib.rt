// The bench of document 01: every call in one place, from the crates that make them. Seats and events: `seats`; a packet and
// totals: `hearing`, a packet with its audio in one call: `relaying`; a report: `reporting`; a tick with its reports: `sending`; who is on the air: `air`, kept in the record: `record`.
// specs/Step.antt has every call as one definition; proofs/Keeping.antt, that keeping the air changes no answer.
#![tactic(auto)]

pub use air::aired;
pub use hearing::{Hearing, audio, packet, totals};
pub use record::{Air, Answered, Bench, Kind, Setup, Totals, kind_code};
pub use relaying::{Relayed, relay};
pub use reporting::report;
pub use seats::{CallType, Request, close, open, received, side, silence_cause, transmitter};
pub use sending::{SeatSets, Ticked, tick};
