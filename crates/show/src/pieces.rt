// The pieces of a line.
ghost use Rattle.std.specs.Prelude.{◌++◌};
ghost use Rattle.text.specs.Text.{decimal};
ghost use Rattle.text.specs.Lines.{Puts};
ghost use Rattle.show.specs.Lines.{kind_text, head_text, sqi_text, climax_text, side_text};

use packet::{Side, Sqi};
use text::Line;

// A truth counts as 1 or 0.
pub(crate) fn named(line: &mut Line, name: &[u8], n: u64)
    ensures { Puts line.old line.new (name.now ++ decimal n) }
{
    line.put(name);
    line.put_number(n);
}

fn put_kind(line: &mut Line, audio: usize)
    ensures { Puts line.old line.new (kind_text audio) }
{
    if audio == 0 {
        line.put(b" kind=R2S");
    } else {
        line.put(b" kind=AUDIO");
    }
}

// What the lines of both directions begin with.
pub(crate) fn put_head(
    line: &mut Line,
    name: &[u8],
    sequence: u16,
    timestamp: u32,
    ssrc: u32,
    audio: usize,
    ptt: u8,
)
    ensures { Puts line.old line.new (head_text name.now sequence timestamp ssrc audio ptt) }
{
    line.put(name);
    named(line, b" seq=", sequence as u64);
    named(line, b" ts=", timestamp as u64);
    named(line, b" ssrc=", ssrc as u64);
    put_kind(line, audio);
    named(line, b" ptt=", ptt as u64);
}

pub(crate) fn put_sqi(line: &mut Line, item: Option<Sqi>)
    ensures { Puts line.old line.new (sqi_text item) }
{
    match item {
        None => line.put(b" sqi=-"),
        Some(sqi) => {
            named(line, b" sqi=", sqi.quality as u64);
            named(line, b"/", sqi.method as u64);
        }
    }
}

pub(crate) fn put_climax(line: &mut Line, item: Option<u8>)
    ensures { Puts line.old line.new (climax_text item) }
{
    match item {
        None => line.put(b" cld=-"),
        Some(value) => named(line, b" cld=", value as u64),
    }
}

pub(crate) fn put_side(line: &mut Line, item: Option<Side>)
    ensures { Puts line.old line.new (side_text item) }
{
    match item {
        None => line.put(b" mss=-"),
        Some(Side::Main) => line.put(b" mss=0"),
        Some(Side::Standby) => line.put(b" mss=1"),
    }
}
