// Writes many messages, one for each record of standard input (record.rt), and prints a line for each: the answer, and the
// whole lent buffer, so that the bytes behind the packet are seen too. A record that the end of the input cuts is left out.
#![tactic(auto)]

ghost use Rattle.std.specs.Prelude.{◌≤◌, length, IfOk};

mod line;
mod record;

use crate::line::put_line;
use crate::record::{Record, audio_length, room, write};
use base::part;
use std::array;
use std::io::{self, Read};
use text::Line;

// Reads until the buffer is full or the input ends, and answers how many bytes have come.
// kept: in three programs, since no promise can say what a stream gives; `io::copy` was tried
// (docs/LOOK-BACK.md).
fn read_full(input: &mut impl Read, buffer: &mut [u8]) -> io::Result<usize>
    ensures { IfOk result (λ n. n ≤ length buffer.old) }
{
    let mut n = 0;
    // Each turn but the last brings a byte.
    for _ in 0..buffer.len() {
        let got = input.read(&mut buffer[n..])?;
        if got == 0 {
            break;
        }
        n += got;
    }
    Ok(n)
}

// The next record; none where the input ends before it is whole.
fn next(input: &mut impl Read) -> io::Result<Option<Record>> {
    let mut record = [0u8; 32];
    let n = read_full(input, &mut record)?;
    Ok((n == 32).then_some(record))
}

fn answer(rt: &impl Print, record: &Record, sound: &[u8]) -> io::Result<()> {
    let mut space = [0xEEu8; 512];
    let lent = &mut space[0..room(record)];
    let written = write(record, part(sound, 0, audio_length(record)), lent);
    // The longest line has 1,044 bytes with its end.
    let mut room = [0u8; 1056];
    let mut line = Line::new(&mut room);
    put_line(&mut line, written, lent);
    rt.write_all(line.text())
}

// The audio of every message is the front of this.
fn sound() -> [u8; 512] {
    array::from_fn(|i| ((7 * i + 1) % 256) as u8)
}

fn main(rt: HostRuntime) -> io::Result<()> {
    let mut input = rt.reader();
    let sound = sound();
    // More turns than an input has records: they show that the loop ends.
    for _ in 0..u64::MAX {
        let Some(record) = next(&mut input)? else {
            break;
        };
        answer(&rt, &record, &sound)?;
    }
    Ok(())
}
