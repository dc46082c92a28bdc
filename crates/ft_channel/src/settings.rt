//! Effects that set something of their channel, at the start of a row.

ghost use Rattle.std.specs.Prelude.{◌≡◌, ◌≤◌};
ghost use Rattle.ft_replay.specs.Rules as rules;
ghost use Rattle.ft_channel.specs.Staying.{Stays};

use crate::memory as place;
use crate::memory::remember;
use crate::retriggers::start_tremor;
use crate::swings::{set_tremolo_depth, set_tremolo_speed, set_vibrato_depth, set_vibrato_speed};
use ft_replay::Channel;

/// E3: whether tone portamentos are heard in semitones.
pub fn set_glissando(channel: &mut Channel, on: bool)
    ensures value { channel.new ≡ rules.with_glissando on channel.old }
    ensures stays { Stays channel.old channel.new }
{
    channel.glissando = on;
}

/// E4: the kind of the vibrato's wave.
pub fn set_vibrato_kind(channel: &mut Channel, kind: u8)
    requires { kind ≤ 7 }
    ensures value { channel.new ≡ rules.with_vibrato_kind kind channel.old }
    ensures stays { Stays channel.old channel.new }
{
    channel.vib_kind = kind;
}

/// E7: the kind of the tremolo's wave.
pub fn set_tremolo_kind(channel: &mut Channel, kind: u8)
    requires { kind ≤ 7 }
    ensures value { channel.new ≡ rules.with_tremolo_kind kind channel.old }
    ensures stays { Stays channel.old channel.new }
{
    channel.trem_kind = kind;
}

/// L: the position of both envelopes.
pub fn set_envelope_positions(channel: &mut Channel, position: u8)
    ensures value { channel.new ≡ rules.with_envelope_positions position channel.old }
    ensures stays { Stays channel.old channel.new }
{
    channel.vol_env = u16::from(position);
    channel.pan_env = u16::from(position);
}

/// R: both digits are remembered.
pub fn remember_retrigger(channel: &mut Channel, change: u8, interval: u8)
    ensures value { channel.new ≡ rules.with_retrigger change interval channel.old }
    ensures stays { Stays channel.old channel.new }
{
    remember(channel, place::RETRIGGER_CHANGE, change);
    remember(channel, place::RETRIGGER_INTERVAL, interval);
}

/// T: the digits are remembered, and the voice is muted where its turn is over.
pub fn set_tremor(channel: &mut Channel, times: u8)
    ensures value { channel.new ≡ rules.with_tremor times channel.old }
    ensures stays { Stays channel.old channel.new }
{
    remember(channel, place::TREMOR, times);
    start_tremor(channel);
}

/// 4: digits other than 0 become the speed and the depth of the vibrato.
pub fn set_vibrato(channel: &mut Channel, speed: u8, depth: u8)
    requires speed { speed ≤ 15 }
    requires depth { depth ≤ 15 }
    ensures value { channel.new ≡ rules.with_vibrato speed depth channel.old }
    ensures stays { Stays channel.old channel.new }
{
    set_vibrato_speed(channel, speed);
    set_vibrato_depth(channel, depth);
}

/// 7: digits other than 0 become the speed and the depth of the tremolo.
pub fn set_tremolo(channel: &mut Channel, speed: u8, depth: u8)
    requires speed { speed ≤ 15 }
    requires depth { depth ≤ 15 }
    ensures value { channel.new ≡ rules.with_tremolo speed depth channel.old }
    ensures stays { Stays channel.old channel.new }
{
    set_tremolo_speed(channel, speed);
    set_tremolo_depth(channel, depth);
}
