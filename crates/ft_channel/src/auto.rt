//! The automatic vibrato of an instrument.

ghost use Rattle.std.specs.Prelude.{◌≡◌, ◌≤◌, ◌≤ℤ◌, pos, negsuc};
ghost use Rattle.ft_types.specs.Valid.{IsValidVibrato};
ghost use Rattle.ft_replay.specs.Hearing as hearing;
ghost use Rattle.ft_channel.specs.Staying.{Stays};

use crate::swings::parts_of;
use ft_replay::Channel;
use ft_tables::wave;
use ft_types::Vibrato;

/// The wave of a kind of automatic vibrato.
fn auto_wave(kind: u8) -> u8
    requires { kind ≤ 3 }
    ensures value { result ≡ hearing.auto_wave kind }
    ensures bounded { result ≤ 3 }
{
    match kind {
        0 => 0,
        1 => 2,
        2 => 3,
        _ => 1,
    }
}

/// The depth that an automatic vibrato has come to.
fn auto_depth(v: &Vibrato, age: u16) -> u8
    requires { IsValidVibrato v.now }
    ensures value { result ≡ hearing.auto_depth v.now age }
    ensures bounded { result ≤ 15 }
{
    if v.sweep == 0 || u16::from(v.sweep) <= age {
        return v.depth;
    }
    (u32::from(v.depth) * u32::from(age) / u32::from(v.sweep)) as u8
}

/// What an automatic vibrato adds to the period that is heard, -14 to 14; then it goes on by a tick.
#[tactic(auto, unfolding(ft_replay::specs::Hearing::auto_offset))]
pub fn auto_vibrato(ch: &mut Channel, v: &Vibrato) -> i32
    requires { IsValidVibrato v.now }
    ensures value { result ≡ hearing.auto_offset v.now ch.old }
    ensures low { negsuc 13 ≤ℤ result }
    ensures high { result ≤ℤ pos 14 }
    ensures on { ch.new ≡ hearing.with_auto_vibrato v.now ch.old }
    ensures stays { Stays ch.old ch.new }
{
    let height = wave(auto_wave(v.kind), ch.auto_pos / 4);
    let offset = parts_of(height, auto_depth(v, ch.auto_age), 256);
    ch.auto_pos = ((u16::from(ch.auto_pos) + u16::from(v.rate)) % 256) as u8;
    ch.auto_age = ch.auto_age.saturating_add(1);
    i32::from(offset)
}
