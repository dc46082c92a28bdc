//! What a channel remembers of the parameters of its effects.

ghost use Rattle.std.specs.Prelude.{◌≡◌, ◌<◌};
ghost use Rattle.ft_replay.specs.Memory as memory;
ghost use Rattle.ft_channel.specs.Staying.{Stays};

use ft_replay::Channel;

/// The place of each effect's memory. R has one for each of its digits.
pub const PORTAMENTO_UP: usize = 0;

pub const PORTAMENTO_DOWN: usize = 1;

pub const SAMPLE_OFFSET: usize = 2;

pub const VOLUME_SLIDE: usize = 3;

pub const FINE_PORTAMENTO_UP: usize = 4;

pub const FINE_PORTAMENTO_DOWN: usize = 5;

pub const FINE_VOLUME_UP: usize = 6;

pub const FINE_VOLUME_DOWN: usize = 7;

pub const GLOBAL_SLIDE: usize = 8;

pub const PANNING_SLIDE: usize = 9;

pub const RETRIGGER_CHANGE: usize = 10;

pub const RETRIGGER_INTERVAL: usize = 11;

pub const TREMOR: usize = 12;

pub const EXTRA_FINE_UP: usize = 13;

pub const EXTRA_FINE_DOWN: usize = 14;

/// A parameter other than 0 is remembered.
pub fn remember(channel: &mut Channel, place: usize, parameter: u8)
    requires { place < 15 }
    ensures value { channel.new ≡ memory.with_memory place parameter channel.old }
    ensures stays { Stays channel.old channel.new }
{
    if parameter != 0 {
        channel.memory[place] = parameter;
    }
}
