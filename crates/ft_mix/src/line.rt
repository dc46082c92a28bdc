//! The straight line between two values, on which a voice moves.

ghost use Rattle.std.specs.Prelude.{◌≡◌, ◌^◌, ◌≤ℤ◌, pos, negsuc, FitsSigned};
ghost use Rattle.std.specs.Int.{w16};
ghost use Rattle.ft_replay.specs.Sound as sound;

/// How much of a rise, -65,535 to 65,535, is made at a fraction of 2^32, rounded down.
#[tactic(auto, unfolding(ft_replay::specs::Sound::part))]
fn part(rise: i32, fraction: u32) -> i32
    requires low { negsuc 65534 ≤ℤ rise }
    requires high { rise ≤ℤ pos 65535 }
    ensures { result ≡ sound.part rise fraction }
{
    ((i64::from(rise) * i64::from(fraction)) >> 32) as i32
}

/// The value at a fraction of 2^32 on the line from a value to the next, each of -32,768 to 32,767.
pub fn between(first: i16, second: i16, fraction: u32) -> i32
    ensures value { result ≡ sound.between first second fraction }
    ensures range { FitsSigned w16 result }
{
    let first = i32::from(first);
    let second = i32::from(second);
    first + part(second - first, fraction)
}
