// The record of the bench: set-up, seats, what is shown of the air, and the bench. No enum inside, so that it can cross to a
// C host as it is; any content is legal input. Seat n has place n - 1 in every array of eight.
// Start at specs/Record.antt, which says what stands in it at the start and what the functions below promise; specs/Kind.antt
// has all that depends on the kind of radio.
#![tactic(auto)]

pub mod kind;
pub mod seat;
pub mod setup;
pub mod shown;
pub mod whole;

pub use kind::{Kind, kind_code};
pub use seat::{
    Field, Heard, Seat, Totals, entry_of, flag_of, is_open, no_such_seat, seat_of, set_entry,
};
pub use setup::{Setup, lesson_seat};
pub use shown::Air;
pub use whole::{Answered, Bench};
