// Lines, however the input comes in pieces.
use crate::answer::answer;
use crate::usage::too_long;
use base::{copy_in, part};
use bench::Bench;
use grammar::parsed;
use std::io;
use text::Line;

// The longest line that is read, without its end.
const LINE: usize = 2048;

// The bench, and the line that has begun.
#[derive(Drop)]
pub(crate) struct Session {
    bench: Bench,
    line: [u8; LINE],
    // How many bytes of the line have come; none where it is too long.
    length: Option<usize>,
}

impl Session {
    pub(crate) fn new(bench: Bench) -> Session {
        Session {
            bench,
            line: [0; LINE],
            length: Some(0),
        }
    }

    // Answers each line that ends in the piece, and keeps the beginning of the next.
    pub(crate) fn take(&mut self, rt: &impl Print, piece: &[u8]) -> io::Result<()> {
        for (i, part) in piece.split(|b| *b == b'\n').enumerate() {
            if i > 0 {
                self.answer(rt)?;
            }
            self.keep(part);
        }
        Ok(())
    }

    // Keeps a part of a line behind what has come, where there is room for it.
    fn keep(&mut self, part: &[u8]) {
        self.length = match self.length {
            Some(n) if n <= LINE && part.len() <= LINE - n => {
                copy_in(&mut self.line[n..], part);
                Some(n + part.len())
            }
            _ => None,
        };
    }

    // Answers the line that has come, in one write.
    pub(crate) fn answer(&mut self, rt: &impl Print) -> io::Result<()> {
        // The longest answer, 30 ms of audio in hexadecimal, has under 600 bytes.
        let mut room = [0u8; 2048];
        let mut line = Line::new(&mut room);
        match self.length {
            Some(n) => told(&mut self.bench, part(&self.line, 0, n), &mut line),
            None => too_long(&mut line),
        }
        self.length = Some(0);
        send(rt, &mut line)
    }
}

// Puts the answer to a line.
fn told(b: &mut Bench, s: &[u8], line: &mut Line) {
    // Two digits a byte: no line says more.
    let mut bytes = [0u8; 1024];
    let call = parsed(s, &mut bytes);
    answer(b, call, s, &bytes, line);
}

// A line without words is not answered.
fn send(rt: &impl Print, line: &mut Line) -> io::Result<()> {
    if line.text().is_empty() {
        return Ok(());
    }
    line.put_byte(b'\n');
    rt.write_all(line.text())
}
