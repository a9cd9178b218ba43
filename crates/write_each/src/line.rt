// The line of a message: what the writer answered, and every byte of the buffer that it was lent.
use packet::Refusal;
use show::refusal_line;
use text::Line;

pub(crate) fn put_line(line: &mut Line, written: Result<usize, Refusal>, lent: &[u8]) {
    put_answer(line, written);
    line.put_byte(b' ');
    line.put_bytes(lent);
    line.put_byte(b'\n');
}

fn put_answer(line: &mut Line, written: Result<usize, Refusal>) {
    match written {
        Ok(n) => {
            line.put(b"ok ");
            line.put_number(n as u64);
        }
        Err(r) => refusal_line(line, r),
    }
}
