//! What moves a period, a volume or a panning.

ghost use Rattle.std.specs.Prelude.{◌≡◌, ◌≤◌};
ghost use Rattle.ft_types.specs.Limits.{highest_period};
ghost use Rattle.ft_replay.specs.Slides as slides;
ghost use Rattle.ft_channel.specs.Staying.{Stays};

use crate::memory::{PANNING_SLIDE, VOLUME_SLIDE};
use ft_replay::Channel;

/// The period falls, at least to 1: the voice sounds higher. A period of 0 is none, and stays.
pub fn lower_period(channel: &mut Channel, amount: u16)
    ensures value { channel.new ≡ slides.with_lower_period amount channel.old }
    ensures stays { Stays channel.old channel.new }
{
    if channel.period != 0 {
        channel.period = channel.period.saturating_sub(amount).max(1);
    }
}

/// The period rises, at most to 31,999: the voice sounds lower. A period of 0 is none, and stays.
pub fn raise_period(channel: &mut Channel, amount: u16)
    ensures value { channel.new ≡ slides.with_higher_period amount channel.old }
    ensures stays { Stays channel.old channel.new }
{
    if channel.period != 0 {
        channel.period = channel.period.saturating_add(amount).min(31999);
    }
}

/// A period that goes by an amount to another one, and not past it.
fn towards(target: u16, amount: u16, period: u16) -> u16
    requires target { target ≤ highest_period }
    requires period { period ≤ highest_period }
    ensures value { result ≡ slides.towards target amount period }
    ensures bounded { result ≤ highest_period }
{
    if period < target {
        return period.saturating_add(amount).min(target);
    }
    period.saturating_sub(amount).max(target)
}

/// The period goes to the target of a tone portamento.
pub fn tone_portamento(channel: &mut Channel)
    requires target { channel.old.target ≤ highest_period }
    requires period { channel.old.period ≤ highest_period }
    ensures value { channel.new ≡ slides.tone_portamento channel.old }
    ensures stays { Stays channel.old channel.new }
{
    channel.gliding = true;
    if channel.period == 0 || channel.target == 0 {
        return;
    }
    let amount = 4 * u16::from(channel.tone_speed);
    channel.period = towards(channel.target, amount, channel.period);
}

/// A speed other than 0 becomes that of tone portamentos.
pub fn set_tone_speed(channel: &mut Channel, speed: u8)
    ensures value { channel.new ≡ slides.with_tone_speed speed channel.old }
    ensures stays { Stays channel.old channel.new }
{
    if speed != 0 {
        channel.tone_speed = speed;
    }
}

/// A level that goes up by the first digit where it isn't 0, else down by the second.
pub fn slid(most: u8, change: u8, level: u8) -> u8
    ensures value { result ≡ slides.slid most change level }
    ensures bounded { level ≤ most → result ≤ most }
{
    if change / 16 == 0 {
        return level.saturating_sub(change % 16);
    }
    level.saturating_add(change / 16).min(most)
}

/// The volume rises, at most to 64.
pub fn raise_volume(channel: &mut Channel, change: u8)
    ensures value { channel.new ≡ slides.with_volume_up change channel.old }
    ensures stays { Stays channel.old channel.new }
{
    channel.vol = channel.vol.saturating_add(change).min(64);
}

/// The volume falls, at least to 0.
pub fn lower_volume(channel: &mut Channel, change: u8)
    ensures value { channel.new ≡ slides.with_volume_down change channel.old }
    ensures stays { Stays channel.old channel.new }
{
    channel.vol = channel.vol.saturating_sub(change);
}

/// The panning goes right, at most to 255.
pub fn go_right(channel: &mut Channel, change: u8)
    ensures value { channel.new ≡ slides.with_panning_right change channel.old }
    ensures stays { Stays channel.old channel.new }
{
    channel.pan = channel.pan.saturating_add(change);
}

/// The panning goes left, at least to 0.
pub fn go_left(channel: &mut Channel, change: u8)
    ensures value { channel.new ≡ slides.with_panning_left change channel.old }
    ensures stays { Stays channel.old channel.new }
{
    channel.pan = channel.pan.saturating_sub(change);
}

/// The volume slides by what the channel remembers.
pub fn slide_volume(channel: &mut Channel)
    ensures value { channel.new ≡ slides.volume_slide channel.old }
    ensures stays { Stays channel.old channel.new }
{
    channel.vol = slid(64, channel.memory[VOLUME_SLIDE], channel.vol);
}

/// The panning slides by what the channel remembers.
pub fn slide_panning(channel: &mut Channel)
    ensures value { channel.new ≡ slides.panning_slide channel.old }
    ensures stays { Stays channel.old channel.new }
{
    channel.pan = slid(255, channel.memory[PANNING_SLIDE], channel.pan);
}
