//! Effects that slide once, at the start of a row, by what they remember.

ghost use Rattle.std.specs.Prelude.{◌≡◌};
ghost use Rattle.ft_replay.specs.Rules as rules;
ghost use Rattle.ft_channel.specs.Staying.{Stays};

use crate::memory as place;
use crate::memory::remember;
use crate::slides::{lower_period, lower_volume, raise_period, raise_volume};
use ft_replay::Channel;

/// E1: the period falls once.
pub fn fine_portamento_up(channel: &mut Channel, speed: u8)
    ensures value { channel.new ≡ rules.fine_portamento_up speed channel.old }
    ensures stays { Stays channel.old channel.new }
{
    remember(channel, place::FINE_PORTAMENTO_UP, speed);
    let amount = 4 * u16::from(channel.memory[place::FINE_PORTAMENTO_UP]);
    lower_period(channel, amount);
}

/// E2: the period rises once.
pub fn fine_portamento_down(channel: &mut Channel, speed: u8)
    ensures value { channel.new ≡ rules.fine_portamento_down speed channel.old }
    ensures stays { Stays channel.old channel.new }
{
    remember(channel, place::FINE_PORTAMENTO_DOWN, speed);
    let amount = 4 * u16::from(channel.memory[place::FINE_PORTAMENTO_DOWN]);
    raise_period(channel, amount);
}

/// X1: the period falls once, four times as finely.
pub fn extra_fine_up(channel: &mut Channel, speed: u8)
    ensures value { channel.new ≡ rules.extra_fine_up speed channel.old }
    ensures stays { Stays channel.old channel.new }
{
    remember(channel, place::EXTRA_FINE_UP, speed);
    lower_period(channel, u16::from(channel.memory[place::EXTRA_FINE_UP]));
}

/// X2: the period rises once, four times as finely.
pub fn extra_fine_down(channel: &mut Channel, speed: u8)
    ensures value { channel.new ≡ rules.extra_fine_down speed channel.old }
    ensures stays { Stays channel.old channel.new }
{
    remember(channel, place::EXTRA_FINE_DOWN, speed);
    raise_period(channel, u16::from(channel.memory[place::EXTRA_FINE_DOWN]));
}

/// EA: the volume rises once.
pub fn fine_volume_up(channel: &mut Channel, change: u8)
    ensures value { channel.new ≡ rules.fine_volume_up change channel.old }
    ensures stays { Stays channel.old channel.new }
{
    remember(channel, place::FINE_VOLUME_UP, change);
    raise_volume(channel, channel.memory[place::FINE_VOLUME_UP]);
}

/// EB: the volume falls once.
pub fn fine_volume_down(channel: &mut Channel, change: u8)
    ensures value { channel.new ≡ rules.fine_volume_down change channel.old }
    ensures stays { Stays channel.old channel.new }
{
    remember(channel, place::FINE_VOLUME_DOWN, change);
    lower_volume(channel, channel.memory[place::FINE_VOLUME_DOWN]);
}
