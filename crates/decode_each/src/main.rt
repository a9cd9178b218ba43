// Reads many TX packets from standard input and prints the line of each. Before each packet stands its length, in two
// bytes, most significant first; a packet that the end of the input cuts is judged as far as it goes.
#![tactic(auto)]

ghost use Rattle.std.specs.Prelude.{◌≤◌, length, IfOk};

use base::join8;
use std::io::{self, Read};
use text::Line;

// Reads until the buffer is full or the input ends, and answers how many bytes have come.
// kept: in three programs, since no promise can say what a stream gives; `io::copy` was tried
// (docs/LOOK-BACK.md).
fn read_full(input: &mut impl Read, buffer: &mut [u8]) -> io::Result<usize>
    ensures { IfOk result (λ n. n ≤ length buffer.old) }
{
    let mut n = 0;
    // Each turn but the last brings a byte.
    for _ in 0..buffer.len() {
        let got = input.read(&mut buffer[n..])?;
        if got == 0 {
            break;
        }
        n += got;
    }
    Ok(n)
}

// The next packet, read into the buffer; none at the end of the input.
fn next<'a>(input: &mut impl Read, buffer: &'a mut [u8; 65536]) -> io::Result<Option<&'a [u8]>> {
    let mut head = [0u8; 2];
    if read_full(input, &mut head)? < 2 {
        return Ok(None);
    }
    let size = join8(head[0], head[1]) as usize;
    let n = read_full(input, &mut buffer[..size])?;
    Ok(Some(&buffer[..n]))
}

fn print(rt: &impl Print, packet: &[u8]) -> io::Result<()> {
    let mut room = [0u8; 128];
    let mut line = Line::new(&mut room);
    show::decode(&mut line, 0x0167, packet);
    rt.write_all(line.text())
}

fn main(rt: HostRuntime) -> io::Result<()> {
    let mut input = rt.reader();
    let mut buffer = [0u8; 65536];
    // More turns than an input has packets: they show that the loop ends.
    for _ in 0..u64::MAX {
        let Some(packet) = next(&mut input, &mut buffer)? else {
            break;
        };
        print(&rt, packet)?;
    }
    Ok(())
}
