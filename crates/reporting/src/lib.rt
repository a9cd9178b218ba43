// A report to a seat: refusals 13, 14, 25, 26, the message, its bytes, and the sequence number after it. The message and the next
// number are also for the reports of a tick (`sending`).
// Start at specs/Reporting.antt, then reporting.rt.
#![tactic(auto)]

pub mod reporting;

pub use reporting::{next_sequence, report, report_of};
