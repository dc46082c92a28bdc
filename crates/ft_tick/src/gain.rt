//! Gains.

ghost use Rattle.std.specs.Prelude.{◌≡◌, ◌≤◌, ◌<◌, ◌*◌};
ghost use Rattle.ft_replay.specs.Hearing as hearing;

/// The gain of a voice by volume, global volume and envelope, 0 to 64 each, and
/// fade, of 32,768. It is 65,536 where all are full.
#[tactic(auto, unfolding(ft_replay::specs::Hearing::gain_of))]
pub fn gain_of(volume: u8, global: u8, envelope: u8, fade: u16) -> u32
    requires volume { volume ≤ 64 }
    requires global { global ≤ 64 }
    requires envelope { envelope ≤ 64 }
    requires fade { fade ≤ 32768 }
    ensures value { result ≡ hearing.gain_of volume global envelope fade }
    ensures bounded { result ≤ 65536 }
{
    let levels = u64::from(volume) * u64::from(global) * u64::from(envelope);
    ((levels * u64::from(fade)) >> 17) as u32
}

/// The gain of the left side.
pub fn left_gain(gain: u32, pan: u8) -> u32
    requires { gain ≤ 65536 }
    ensures value { result ≡ hearing.left_gain gain pan }
    ensures bounded { result ≤ 65536 }
{
    gain * (256 - u32::from(pan)) / 256
}

/// The gain of the right side.
pub fn right_gain(gain: u32, pan: u8) -> u32
    requires { gain ≤ 65536 }
    ensures value { result ≡ hearing.right_gain gain pan }
    ensures bounded { result ≤ 65536 }
{
    gain * u32::from(pan) / 256
}
