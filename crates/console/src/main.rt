// The class's console: one call a line on standard input, one answer a line on standard output, over the whole library.
// session.rt has a line read by the crate grammar, which makes a call of it, and answered by answer.rt, which asks the library
// and writes what it says (say.rt). usage.rt has the calls as they are to be written.
#![tactic(auto)]

mod answer;
mod say;
mod session;
mod usage;

use bench::{Bench, Kind, Setup, kind_code};
use session::Session;
use std::io::{self, Read};

// setup 78 0167 pair lockout interruption
fn usual() -> Setup {
    Setup {
        lesson: [false, false, false, false, false, false, true, true],
        ext: 0x0167,
        kind: kind_code(Kind::Pair),
        equal_summation: false,
        coupling_summation: false,
    }
}

fn main(rt: HostRuntime) -> io::Result<()> {
    let mut input = rt.reader();
    let mut session = Session::new(Bench::fresh(usual()));
    let mut piece = [0u8; 4096];
    // More turns than an input has pieces: they show that the loop ends.
    for _ in 0..u64::MAX {
        let n = input.read(&mut piece)?;
        if n == 0 {
            break;
        }
        session.take(&rt, &piece[..n])?;
    }
    // A last line without its end is answered too.
    session.answer(&rt)
}
