//! The key off, and the target of a tone portamento: what a note does to a voice that sounds.

ghost use Rattle.std.specs.Prelude.{◌≡◌, ◌≤◌, ◌<◌, ◌+◌, ◌≤ℤ◌, ◌*◌, ℕ, ℤ, pos, true, nat_abs};
ghost use Rattle.ft_types.specs.Limits.{highest_period};
ghost use Rattle.ft_types.specs.declared.voice.SampleHead.{SampleHead};
ghost use Rattle.ft_types.specs.Work as work_of;
ghost use Rattle.ft_tables.specs.Pitch as pitch;
ghost use Rattle.ft_replay.specs.Calls as calls;
ghost use Rattle.ft_replay.specs.Envelopes as envelopes;
ghost use Rattle.ft_replay.specs.Row as row;
ghost use Rattle.ft_channel.specs.Staying.{Stays};

use crate::envelope::is_on;
use ft_replay::Channel;
use ft_tables::{period, played_note};
use ft_types::{Cell, Envelope, SongView};

/// Whether there is an envelope that is on.
fn has_envelope(envelope: Option<Envelope>) -> bool
    ensures { result ≡ envelopes.is_on envelope }
{
    match envelope {
        Some(envelope) => is_on(&envelope),
        None => false,
    }
}

/// The channel is released; without a volume envelope that is on it is silent.
#[tactic(auto, unfolding(ft_replay::specs::Row::with_key_off))]
pub fn key_off<V: SongView>(view: &mut V, channel: &mut Channel)
    ensures shows { calls.ShowsOn V.shows V.shown view.old view.new }
    ensures value { (w : V.World) → V.shows view.new w → channel.new
        ≡ row.with_key_off (V.shown view.old w).song channel.old }
    ensures stays { Stays channel.old channel.new }
    ensures holds { V.holds view.new ≡ V.holds view.old }
    ensures keeps { (c : ℕ) (h : SampleHead) → V.keeps view.old c h → V.keeps view.new c h }
    ensures words { V.words view.new ≡ V.words view.old }
    ensures work { (V.work view.old ≤ V.work view.new)
        × (V.work view.new ≤ V.work view.old + work_of.envelope_bound) }
    ensures same { V.same view.old view.new }
{
    let on = has_envelope(view.envelope(channel.instrument, 0));
    channel.released = true;
    if !on {
        channel.vol = 0;
    }
}

/// The period of a note of this row that is played.
pub fn tuned_period(linear: bool, note: i16, finetune: i8) -> u16
    requires low { pos 0 ≤ℤ note }
    requires high { note ≤ℤ pos 118 }
    ensures value { result ≡ pitch.period_of linear (nat_abs note) finetune }
    ensures range { result ≤ highest_period }
{
    period(linear, note as u8, finetune)
}

/// Whether a note is played, which it is from 0 to 118.
pub fn is_played(note: i16) -> bool
    ensures value { result ≡ pitch.is_played note }
    ensures played { result ≡ true → (pos 0 ≤ℤ note) × (note ≤ℤ pos 118) }
{
    0 <= note && note <= 118
}

/// Sets the target of a tone portamento.
fn set_target(channel: &mut Channel, period: u16)
    requires { period ≤ highest_period }
    ensures value { channel.new ≡ record channel.old { target = period } }
    ensures stays { Stays channel.old channel.new }
{
    channel.target = period;
}

/// The row's note becomes the target of a tone portamento, by the sample of the sounding voice.
#[tactic(auto, unfolding(ft_replay::specs::Row::with_target))]
pub fn aim<V: SongView>(view: &mut V, channel: &mut Channel, cell: Cell)
    ensures shows { calls.ShowsOn V.shows V.shown view.old view.new }
    ensures value { (w : V.World) → V.shows view.new w → channel.new
        ≡ row.with_target (V.shown view.old w).song cell channel.old }
    ensures stays { Stays channel.old channel.new }
    ensures holds { V.holds view.new ≡ V.holds view.old }
    ensures keeps { (c : ℕ) (h : SampleHead) → V.keeps view.old c h → V.keeps view.new c h }
    ensures words { V.words view.new ≡ V.words view.old }
    ensures work { (V.work view.old ≤ V.work view.new)
        × (V.work view.new ≤ V.work view.old + work_of.head_bound) }
    ensures same { V.same view.old view.new }
{
    let Some(voice) = channel.voice else {
        return;
    };
    let note = played_note(cell.note, voice.head.relative);
    if !is_played(note) {
        return;
    }
    let linear = view.head().linear;
    set_target(channel, tuned_period(linear, note, voice.head.finetune));
}
