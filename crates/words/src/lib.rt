// Text in: what a line says; no packet is known here. specs/Input.antt and input.rt for the words of a line,
// specs/Numbers.antt and numbers.rt for the numbers that they say, specs/Pairs.antt and pairs.rt for their bytes.
#![tactic(auto)]

pub mod input;
pub mod numbers;
pub mod pairs;

pub use input::{choice, last, place_of, word};
pub use numbers::{byte, half, hex_half, level, number};
pub use pairs::{bytes, dash};
