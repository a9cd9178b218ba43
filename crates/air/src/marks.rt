// A set of seats as eight marks; seat n has place n - 1. specs/Marks.antt says what each function finds.
ghost use Rattle.std.specs.Prelude.{◌≡◌, position};
ghost use Rattle.base.specs.Lists.{how_many};
ghost use Rattle.air.specs.Marks.{smallest_from};

// The smallest seat that is marked, 0 if none is. (kept: 0, which `Air.id` holds)
#[tactic(auto, using(crate::proofs::Chains::smallest_found))]
pub(crate) fn smallest(marks: &[bool; 8]) -> u8
    ensures { result ≡ smallest_from 1 marks.now }
{
    first_mark(marks).map_or(0, |i| i as u8 + 1)
}

fn first_mark(marks: &[bool]) -> Option<usize>
    ensures { result ≡ position (λ m. m) marks.now }
{
    marks.iter().position(|m| *m)
}

// How many are marked.
#[tactic(auto, using(crate::proofs::Chains::marked_found))]
pub(crate) fn marked(marks: &[bool]) -> usize
    ensures { result ≡ how_many (λ m. m) marks.now }
{
    marks.iter().filter(|m| **m).count()
}
