//! The waves of vibrato and tremolo.

ghost use Rattle.std.specs.Prelude.{◌≡◌, ◌≤◌, ◌≤ℤ◌, pos, negsuc};
ghost use Rattle.ft_tables.specs.Waves as waves;

/// The first quarter of a sine, up to 255.
const SINES: [u8; 17] = [
    0, 24, 49, 74, 97, 120, 141, 161, 180, 197, 212, 224, 235, 244, 250, 253, 255,
];

/// The first half of a sine, at 0 to 31.
fn half_sine(place: u8) -> u8
    requires { place ≤ 31 }
    ensures { result ≡ waves.half_sine place }
{
    if place <= 16 {
        return SINES[usize::from(place)];
    }
    SINES[usize::from(32 - place)]
}

/// Above 0 for the first 32 positions, and as far below for the others.
fn mirrored(position: u8, size: u8) -> i16
    ensures value { result ≡ waves.mirrored position size }
    ensures low { negsuc 254 ≤ℤ result }
    ensures high { result ≤ℤ pos 255 }
{
    if position < 32 {
        i16::from(size)
    } else {
        -i16::from(size)
    }
}

/// The wave of a kind at one of its 64 positions, -255 to 255.
///
/// Kind 0 is a sine, 1 a ramp down, 2 a square, and 3 a ramp up.
#[tactic(auto, unfolding(crate::specs::Waves::wave_of))]
pub fn wave(kind: u8, position: u8) -> i16
    requires kind { kind ≤ 3 }
    requires position { position ≤ 63 }
    ensures value { result ≡ waves.wave_of kind position }
    ensures low { negsuc 254 ≤ℤ result }
    ensures high { result ≤ℤ pos 255 }
{
    match kind {
        0 => mirrored(position, half_sine(position % 32)),
        1 => 255 - 8 * i16::from(position),
        2 => mirrored(position, 255),
        _ => 8 * i16::from(position) - 255,
    }
}
