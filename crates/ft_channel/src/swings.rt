//! What swings by a wave: vibrato and tremolo; and the steps of an arpeggio.

ghost use Rattle.std.specs.Prelude.{◌≡◌, ◌≤◌, ◌≤ℤ◌, pos, negsuc};
ghost use Rattle.ft_replay.specs.Range.{IsMemoryInRange};
ghost use Rattle.ft_replay.specs.Swings as swings;
ghost use Rattle.ft_channel.specs.Staying.{Stays};

use ft_replay::Channel;
use ft_tables::wave;

/// That many parts of the height of a wave, rounded towards 0.
#[tactic(auto, unfolding(ft_replay::specs::Swings::parts_of))]
pub fn parts_of(height: i16, depth: u8, parts: u16) -> i16
    requires low { negsuc 254 ≤ℤ height }
    requires high { height ≤ℤ pos 255 }
    requires depth { depth ≤ 15 }
    requires parts { 1 ≤ parts }
    ensures value { result ≡ swings.parts_of height depth parts }
    ensures auto_low { parts ≡ 256 → negsuc 13 ≤ℤ result }
    ensures auto_high { parts ≡ 256 → result ≤ℤ pos 14 }
{
    let size = (height.unsigned_abs() * u16::from(depth) / parts) as i16;
    if height < 0 {
        return -size;
    }
    size
}

/// The kind of wave: a sine, a ramp, or a square.
fn wave_kind(kind: u8) -> u8
    ensures value { result ≡ swings.wave_kind kind }
    ensures bounded { result ≤ 2 }
{
    (kind % 4).min(2)
}

/// A speed other than 0 becomes that of the vibrato.
pub fn set_vibrato_speed(channel: &mut Channel, speed: u8)
    requires { speed ≤ 15 }
    ensures value { channel.new ≡ swings.with_vibrato_speed speed channel.old }
    ensures stays { Stays channel.old channel.new }
{
    if speed != 0 {
        channel.vib_speed = speed;
    }
}

/// A depth other than 0 becomes that of the vibrato.
pub fn set_vibrato_depth(channel: &mut Channel, depth: u8)
    requires { depth ≤ 15 }
    ensures value { channel.new ≡ swings.with_vibrato_depth depth channel.old }
    ensures stays { Stays channel.old channel.new }
{
    if depth != 0 {
        channel.vib_depth = depth;
    }
}

/// The period that is heard swings, and the wave goes on.
pub fn vibrate(channel: &mut Channel)
    requires { IsMemoryInRange channel.old }
    ensures value { channel.new ≡ swings.vibrato channel.old }
    ensures stays { Stays channel.old channel.new }
{
    let height = wave(wave_kind(channel.vib_kind), channel.vib_pos);
    channel.vib_off = parts_of(height, channel.vib_depth, 32);
    channel.vib_pos = (channel.vib_pos + channel.vib_speed) % 64;
}

/// A speed other than 0 becomes that of the tremolo.
pub fn set_tremolo_speed(channel: &mut Channel, speed: u8)
    requires { speed ≤ 15 }
    ensures value { channel.new ≡ swings.with_tremolo_speed speed channel.old }
    ensures stays { Stays channel.old channel.new }
{
    if speed != 0 {
        channel.trem_speed = speed;
    }
}

/// A depth other than 0 becomes that of the tremolo.
pub fn set_tremolo_depth(channel: &mut Channel, depth: u8)
    requires { depth ≤ 15 }
    ensures value { channel.new ≡ swings.with_tremolo_depth depth channel.old }
    ensures stays { Stays channel.old channel.new }
{
    if depth != 0 {
        channel.trem_depth = depth;
    }
}

/// The volume that is heard swings, and the wave goes on.
pub fn tremble(channel: &mut Channel)
    requires { IsMemoryInRange channel.old }
    ensures value { channel.new ≡ swings.tremolo channel.old }
    ensures stays { Stays channel.old channel.new }
{
    let height = wave(wave_kind(channel.trem_kind), channel.trem_pos);
    channel.trem_off = parts_of(height, channel.trem_depth, 64);
    channel.trem_pos = (channel.trem_pos + channel.trem_speed) % 64;
}

/// The steps of an arpeggio: the note, and two that are higher, in turn.
pub fn step_arpeggio(channel: &mut Channel, u: u16, x: u8, y: u8)
    requires first { x ≤ 15 }
    requires second { y ≤ 15 }
    ensures value { channel.new ≡ swings.arpeggio u x y channel.old }
    ensures stays { Stays channel.old channel.new }
{
    channel.arp = match u % 3 {
        0 => 0,
        1 => x,
        _ => y,
    };
}
