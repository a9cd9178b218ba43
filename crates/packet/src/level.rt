// The quality of a received signal, from its level in tenths of a dBm.
ghost use Rattle.std.specs.Prelude.{◌≡◌};
ghost use Rattle.packet.specs.Quality.{floor_div, quality};

// A twentieth, rounded down. Below zero `/` would round up.
fn floor_twentieth(x: i16) -> i16
    ensures { result ≡ floor_div x 20 }
{
    x.div_euclid(20)
}

// Below this the quality is 0, above the other 15: in tenths of a dBm.
const FAINT: i16 = -1000;

const LOUD: i16 = -700;

// 0 to 15, in steps of 20 tenths.
#[tactic(auto, using(crate::proofs::Levels::quality_held), unfolding(crate::specs::Quality::quality))]
pub fn quality(level: i16) -> u8
    ensures { result ≡ quality level }
{
    match level {
        ..FAINT => 0,
        FAINT..=LOUD => (floor_twentieth(level) + 50) as u8,
        _ => 15,
    }
}
