// The lines of answers, with no line end.
use bench::{Air, Hearing, SeatSets, Totals};
use text::Line;

pub(crate) fn opened_line(line: &mut Line, id: u8) {
    line.put(b"ok id=");
    line.put_number(id as u64);
}

pub(crate) fn ticked_line(line: &mut Line, sets: SeatSets, reports: &[u8]) {
    line.put(b"ok closed=");
    put_seats(line, sets.closed);
    line.put(b" due=");
    put_seats(line, sets.due);
    line.put(b" used=");
    put_counted(line, reports);
}

pub(crate) fn heard_line(line: &mut Line, h: Hearing, audio: &[u8]) {
    line.put(b"ok missing=");
    line.put_number(h.missing as u64);
    line.put(b" reply=");
    line.put_bit(h.reply);
    put_side(line, h.standby);
    line.put(b" audio=");
    line.put_bytes(audio);
}

pub(crate) fn quality_line(line: &mut Line, quality: u8) {
    line.put(b"ok quality=");
    line.put_number(quality as u64);
}

pub(crate) fn air_line(line: &mut Line, air: Air) {
    line.put(b"ok on=");
    put_seats(line, air.on);
    line.put(b" ptt=");
    line.put_number(air.ptt as u64);
}

pub(crate) fn totals_line(line: &mut Line, totals: Totals) {
    line.put(b"ok heard=");
    line.put_number(totals.heard as u64);
    line.put(b" missing=");
    line.put_number(totals.missing as u64);
}

pub(crate) fn written_line(line: &mut Line, packet: &[u8]) {
    line.put(b"ok len=");
    put_counted(line, packet);
}

// How many bytes there are, and these bytes.
fn put_counted(line: &mut Line, bytes: &[u8]) {
    line.put_number(bytes.len() as u64);
    line.put(b" ");
    line.put_bytes(bytes);
}

fn put_side(line: &mut Line, standby: bool) {
    if standby {
        line.put(b" side=standby");
    } else {
        line.put(b" side=main");
    }
}

// The digits of the seats of a set, in rising order.
fn put_seats(line: &mut Line, seats: [bool; 8]) {
    if seats == [false; 8] {
        line.put(b"-");
    }
    for (digit, marked) in (b'1'..=b'8').zip(seats) {
        if marked {
            line.put_byte(digit);
        }
    }
}
