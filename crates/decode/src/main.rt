// Reads one TX packet from standard input and prints its line.
#![tactic(auto)]

ghost use Rattle.std.specs.Prelude.{◌≤◌, length, IfOk};

use std::io::{self, Read};
use text::Line;

// Reads until the buffer is full or the input ends, and answers how many bytes have come.
// kept: in three programs, since no promise can say what a stream gives; `io::copy` was tried
// (docs/LOOK-BACK.md).
fn read_full(input: &mut impl Read, buffer: &mut [u8]) -> io::Result<usize>
    ensures { IfOk result (λ n. n ≤ length buffer.old) }
{
    let mut n = 0;
    // Each turn but the last brings a byte.
    for _ in 0..buffer.len() {
        let got = input.read(&mut buffer[n..])?;
        if got == 0 {
            break;
        }
        n += got;
    }
    Ok(n)
}

fn main(rt: HostRuntime) -> io::Result<()> {
    // One byte more than the longest packet: what follows it cannot change the answer.
    let mut packet = [0u8; 377];
    let n = read_full(&mut rt.reader(), &mut packet)?;
    // The longest line has 102 bytes with its end.
    let mut room = [0u8; 128];
    let mut line = Line::new(&mut room);
    show::decode(&mut line, 0x0167, &packet[..n]);
    rt.write_all(line.text())
}
