//! The volume column: at the start of a row, and in its later ticks.

ghost use Rattle.std.specs.Prelude.{◌≡◌, ◌≤◌};
ghost use Rattle.ft_replay.specs.Effects.{IsVolumeEffect};
ghost use Rattle.ft_replay.specs.Range.{IsMemoryInRange};
ghost use Rattle.ft_replay.specs.VolumeColumn as column;
ghost use Rattle.ft_channel.specs.Staying.{Stays};

use crate::slides::{
    go_left, go_right, lower_volume, raise_volume, set_tone_speed, tone_portamento,
};
use crate::swings::{set_vibrato_depth, set_vibrato_speed, vibrate};
use ft_replay::{Channel, VolumeEffect};

/// Sets the volume, 0 to 64.
pub fn set_volume(channel: &mut Channel, volume: u8)
    requires { volume ≤ 64 }
    ensures value { channel.new ≡ column.with_volume volume channel.old }
    ensures stays { Stays channel.old channel.new }
{
    channel.vol = volume;
}

/// Sets the panning, 0 left to 255 right.
pub fn set_panning(channel: &mut Channel, panning: u8)
    ensures value { channel.new ≡ column.with_panning panning channel.old }
    ensures stays { Stays channel.old channel.new }
{
    channel.pan = panning;
}

/// The volume column of a row's start.
#[tactic(auto, unfolding(ft_replay::specs::VolumeColumn::volume_start_of))]
pub fn volume_start(channel: &mut Channel, effect: VolumeEffect)
    requires { IsVolumeEffect effect }
    ensures value { channel.new ≡ column.volume_start_of effect channel.old }
    ensures stays { Stays channel.old channel.new }
{
    match effect {
        VolumeEffect::Volume { volume } => set_volume(channel, volume),
        VolumeEffect::FineDown { change } => lower_volume(channel, change),
        VolumeEffect::FineUp { change } => raise_volume(channel, change),
        VolumeEffect::VibratoSpeed { speed } => set_vibrato_speed(channel, speed),
        VolumeEffect::Vibrato { depth } => set_vibrato_depth(channel, depth),
        VolumeEffect::Panning { panning } => set_panning(channel, panning),
        VolumeEffect::TonePortamento { speed } => set_tone_speed(channel, speed),
        _ => {}
    }
}

/// The volume column of a later tick.
#[tactic(auto, unfolding(ft_replay::specs::VolumeColumn::volume_tick_of))]
pub fn volume_tick(channel: &mut Channel, effect: VolumeEffect)
    requires { IsMemoryInRange channel.old }
    ensures value { channel.new ≡ column.volume_tick_of effect channel.old }
    ensures stays { Stays channel.old channel.new }
{
    match effect {
        VolumeEffect::SlideDown { change } => lower_volume(channel, change),
        VolumeEffect::SlideUp { change } => raise_volume(channel, change),
        VolumeEffect::Vibrato { .. } => vibrate(channel),
        VolumeEffect::PanningLeft { change } => go_left(channel, change),
        VolumeEffect::PanningRight { change } => go_right(channel, change),
        VolumeEffect::TonePortamento { .. } => tone_portamento(channel),
        _ => {}
    }
}
