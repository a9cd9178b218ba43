// The calls as they are to be written, for `help` and for what a wrong line is told.
use grammar::{Name, named};
use text::Line;

fn usage(call: Name) -> &'static [u8] {
    match call {
        Name::Setup => {
            b"setup SEATS EXT single|pair|shared lockout|summation interruption|summation"
        }
        Name::Open => b"open SEAT idle|rxonly|txrx|coupling PERIOD MULTIPLIER SSRC SEQUENCE",
        Name::Close => b"close SEAT",
        Name::Tick => b"tick MS TIMESTAMP ROOM",
        Name::Packet => b"packet SEAT HEX",
        Name::Report => b"report SEAT TIMESTAMP AUDIO ROOM",
        Name::Received => b"received COUNT LEVEL",
        Name::Transmitter => b"transmitter healthy|unhealthy",
        Name::Side => b"side main|standby",
        Name::Read => b"read tx|rx HEX",
        Name::Write => {
            b"write tx SEQ TS SSRC PTT ID PM PTTS CLD MSS AUDIO ROOM or write rx SEQ TS SSRC PTT SQU ID PM PTTS SCT SQI MSS AUDIO ROOM"
        }
        Name::Quality => b"quality LEVEL",
        Name::Air => b"air",
        Name::Totals => b"totals SEAT",
        Name::Help => b"help",
    }
}

// What a line that is no call is told.
pub(crate) fn expected(line: &mut Line, s: &[u8]) {
    line.put(b"error: expected ");
    line.put(named(s).map_or(b"a call; help prints them", usage));
}

pub(crate) fn too_long(line: &mut Line) {
    line.put(b"error: expected a line of at most 2048 bytes");
}

// Every call, one a line.
pub(crate) fn help(line: &mut Line) {
    line.put(usage(Name::Setup));
    for call in &Name::ALL[1..] {
        line.put_byte(b'\n');
        line.put(usage(*call));
    }
}
