//! What the effect of a cell does, over any view of a song.

ghost use Rattle.std.specs.Prelude.{◌≡◌, ◌≤◌, ◌<◌, ◌+◌, ℕ};
ghost use Rattle.ft_types.specs.declared.voice.SampleHead.{SampleHead};
ghost use Rattle.ft_types.specs.Work as work_of;
ghost use Rattle.ft_replay.specs.Calls as calls;
ghost use Rattle.ft_replay.specs.Effects.{IsEffect};
ghost use Rattle.ft_replay.specs.Range.{IsChannelInRange, IsTimed};
ghost use Rattle.ft_replay.specs.Row as row;
ghost use Rattle.ft_channel.specs.Looping.{Loops};
ghost use Rattle.ft_channel.specs.Staying.{Stays, StaysInPlace, StaysTimed};

use crate::key_off::key_off;
use crate::rules::{channel_start, channel_tick};
use crate::sequence::{control_start, control_tick, loop_start};
use ft_replay::{Channel, Control, Effect};
use ft_types::SongView;

/// K: a key off where the tick is the effect's.
fn key_off_at<V: SongView>(view: &mut V, channel: &mut Channel, u: u16, effect: Effect)
    ensures shows { calls.ShowsOn V.shows V.shown view.old view.new }
    ensures value { (w : V.World) → V.shows view.new w → channel.new
        ≡ row.key_off_at (V.shown view.old w).song u effect channel.old }
    ensures stays { Stays channel.old channel.new }
    ensures holds { V.holds view.new ≡ V.holds view.old }
    ensures keeps { (c : ℕ) (h : SampleHead) → V.keeps view.old c h → V.keeps view.new c h }
    ensures words { V.words view.new ≡ V.words view.old }
    ensures work { (V.work view.old ≤ V.work view.new)
        × (V.work view.new ≤ V.work view.old + work_of.envelope_bound) }
    ensures same { V.same view.old view.new }
{
    match effect {
        Effect::KeyOff { tick } if u16::from(tick) == u => key_off(view, channel),
        _ => {}
    }
}

/// What an effect does at the start of a row.
#[tactic(auto, unfolding(ft_replay::specs::Row::effect_start_of))]
pub fn effect_start<V: SongView>(
    view: &mut V,
    channel: &mut Channel,
    control: &mut Control,
    c: u8,
    effect: Effect,
)
    requires effect { IsEffect effect }
    requires row { control.old.row ≤ 255 }
    requires range { IsChannelInRange c channel.old }
    ensures shows { calls.ShowsOn V.shows V.shown view.old view.new }
    ensures value { (w : V.World) → V.shows view.new w
        → Loops (row.effect_start_of (V.shown view.old w).song c effect)
        channel.old channel.new control.old control.new }
    ensures stays { Stays channel.old channel.new }
    ensures place { StaysInPlace control.old control.new }
    ensures timed { StaysTimed c control.old control.new }
    ensures holds { V.holds view.new ≡ V.holds view.old }
    ensures keeps { (d : ℕ) (h : SampleHead) → V.keeps view.old d h → V.keeps view.new d h }
    ensures words { V.words view.new ≡ V.words view.old }
    ensures work { (V.work view.old ≤ V.work view.new)
        × (V.work view.new ≤ V.work view.old + work_of.envelope_bound) }
    ensures same { V.same view.old view.new }
{
    channel_start(channel, effect);
    key_off_at(view, channel, 0, effect);
    control_start(control, c, effect);
    loop_start(channel, control, c, effect);
}

/// What an effect does in a later tick `u`.
#[tactic(auto, unfolding(ft_replay::specs::Row::effect_tick_of))]
pub fn effect_tick<V: SongView>(
    view: &mut V,
    channel: &mut Channel,
    control: &mut Control,
    c: u8,
    u: u16,
    effect: Effect,
)
    requires effect { IsEffect effect }
    requires range { IsChannelInRange c channel.old }
    ensures shows { calls.ShowsOn V.shows V.shown view.old view.new }
    ensures value { (w : V.World) → V.shows view.new w
        → Loops (row.effect_tick_of (V.shown view.old w).song u effect)
        channel.old channel.new control.old control.new }
    ensures stays { Stays channel.old channel.new }
    ensures place { StaysInPlace control.old control.new }
    ensures timed { (n : ℕ) → IsTimed n control.old → IsTimed n control.new }
    ensures holds { V.holds view.new ≡ V.holds view.old }
    ensures keeps { (d : ℕ) (h : SampleHead) → V.keeps view.old d h → V.keeps view.new d h }
    ensures words { V.words view.new ≡ V.words view.old }
    ensures work { (V.work view.old ≤ V.work view.new)
        × (V.work view.new ≤ V.work view.old + work_of.envelope_bound) }
    ensures same { V.same view.old view.new }
{
    channel_tick(channel, u, effect);
    key_off_at(view, channel, u, effect);
    control_tick(control, channel, effect);
}
