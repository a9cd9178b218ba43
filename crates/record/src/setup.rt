// What is fixed for the life of a bench.
ghost use Rattle.std.specs.Prelude.{◌≡◌};
ghost use Rattle.record.specs.Record.{lesson};

use crate::seat::flag_of;

#[repr(C)]
#[derive(Clone, Copy)]
pub struct Setup {
    pub lesson: [bool; 8],
    pub ext: u16,
    // the kind of radio, by its code (kind_code); kept: the record holds no enum
    pub kind: u8,
    // equal-rank mode: summation, else lockout
    pub equal_summation: bool,
    // coupling mode: summation, else interruption
    pub coupling_summation: bool,
}

#[tactic(auto, unfolding(crate::specs::Record::lesson))]
pub fn lesson_seat(setup: Setup, n: u8) -> bool
    ensures { result ≡ lesson setup n }
{
    flag_of(setup.lesson, n)
}
