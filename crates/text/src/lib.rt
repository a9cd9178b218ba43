// Text out: lines in lent buffers; no packet is known here. Start at specs/Text.antt and Lines.antt, which say what it is to
// put text on a line; then out.rt. proofs/Writing.antt has `_and_`, by which whoever puts several texts shows what stands there.
#![tactic(auto)]

pub mod out;

pub use out::Line;
