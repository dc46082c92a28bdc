//! Which rule an effect has on its channel.

ghost use Rattle.std.specs.Prelude.{◌≡◌, ◌≤◌};
ghost use Rattle.ft_replay.specs.Effects.{IsEffect};
ghost use Rattle.ft_replay.specs.Range.{IsMemoryInRange};
ghost use Rattle.ft_replay.specs.Rules as rules;
ghost use Rattle.ft_channel.specs.Staying.{Stays};

use crate::fine::{
    extra_fine_down, extra_fine_up, fine_portamento_down, fine_portamento_up, fine_volume_down,
    fine_volume_up,
};
use crate::memory as place;
use crate::memory::remember;
use crate::retriggers::{cut_note, go_on_tremor, retrigger, retrigger_many};
use crate::settings::{
    remember_retrigger, set_envelope_positions, set_glissando, set_tremolo, set_tremolo_kind,
    set_tremor, set_vibrato, set_vibrato_kind,
};
use crate::slides::{
    lower_period, raise_period, set_tone_speed, slide_panning, slide_volume, tone_portamento,
};
use crate::swings::{step_arpeggio, tremble, vibrate};
use crate::volume::{set_panning, set_volume};
use ft_replay::{Channel, Effect};

/// What an effect does to its channel at the start of a row: it remembers, slides once or sets.
#[tactic(auto, unfolding(ft_replay::specs::Rules::slide_start, ft_replay::specs::Rules::setting_start))]
pub fn channel_start(channel: &mut Channel, effect: Effect)
    requires { IsEffect effect }
    ensures value { channel.new
        ≡ rules.setting_start effect (rules.slide_start effect channel.old) }
    ensures stays { Stays channel.old channel.new }
{
    match effect {
        Effect::PortamentoUp { speed } => remember(channel, place::PORTAMENTO_UP, speed),
        Effect::PortamentoDown { speed } => remember(channel, place::PORTAMENTO_DOWN, speed),
        Effect::TonePortamento { speed } => set_tone_speed(channel, speed),
        Effect::Vibrato { speed, depth } => set_vibrato(channel, speed, depth),
        Effect::TonePortamentoSlide { change } => remember(channel, place::VOLUME_SLIDE, change),
        Effect::VibratoSlide { change } => remember(channel, place::VOLUME_SLIDE, change),
        Effect::Tremolo { speed, depth } => set_tremolo(channel, speed, depth),
        Effect::Panning { panning } => set_panning(channel, panning),
        Effect::VolumeSlide { change } => remember(channel, place::VOLUME_SLIDE, change),
        Effect::Volume { volume } => set_volume(channel, volume.min(64)),
        Effect::FinePortamentoUp { speed } => fine_portamento_up(channel, speed),
        Effect::FinePortamentoDown { speed } => fine_portamento_down(channel, speed),
        Effect::Glissando { on } => set_glissando(channel, on),
        Effect::VibratoWave { kind } => set_vibrato_kind(channel, kind),
        Effect::TremoloWave { kind } => set_tremolo_kind(channel, kind),
        Effect::FineVolumeUp { change } => fine_volume_up(channel, change),
        Effect::FineVolumeDown { change } => fine_volume_down(channel, change),
        Effect::NoteCut { tick } => cut_note(channel, 0, tick),
        Effect::GlobalSlide { change } => remember(channel, place::GLOBAL_SLIDE, change),
        Effect::EnvelopePosition { position } => set_envelope_positions(channel, position),
        Effect::PanningSlide { change } => remember(channel, place::PANNING_SLIDE, change),
        Effect::MultiRetrigger { change, interval } => {
            remember_retrigger(channel, change, interval)
        }
        Effect::Tremor { times } => set_tremor(channel, times),
        Effect::ExtraFineUp { speed } => extra_fine_up(channel, speed),
        Effect::ExtraFineDown { speed } => extra_fine_down(channel, speed),
        _ => {}
    }
}

/// The period falls by four times what the channel remembers.
fn portamento_up(channel: &mut Channel)
    ensures value { channel.new ≡ rules.portamento_up channel.old }
    ensures stays { Stays channel.old channel.new }
{
    let amount = 4 * u16::from(channel.memory[place::PORTAMENTO_UP]);
    lower_period(channel, amount);
}

/// The period rises by four times what the channel remembers.
fn portamento_down(channel: &mut Channel)
    ensures value { channel.new ≡ rules.portamento_down channel.old }
    ensures stays { Stays channel.old channel.new }
{
    let amount = 4 * u16::from(channel.memory[place::PORTAMENTO_DOWN]);
    raise_period(channel, amount);
}

/// A tone portamento with a volume slide.
fn tone_portamento_slide(channel: &mut Channel)
    requires { IsMemoryInRange channel.old }
    ensures value { channel.new ≡ rules.tone_portamento_slide channel.old }
    ensures stays { Stays channel.old channel.new }
{
    tone_portamento(channel);
    slide_volume(channel);
}

/// A vibrato with a volume slide.
fn vibrato_slide(channel: &mut Channel)
    requires { IsMemoryInRange channel.old }
    ensures value { channel.new ≡ rules.vibrato_slide channel.old }
    ensures stays { Stays channel.old channel.new }
{
    vibrate(channel);
    slide_volume(channel);
}

/// What an effect does to its channel in later tick `u`: it slides, swings or begins anew.
#[tactic(auto, unfolding(ft_replay::specs::Rules::slide_tick, ft_replay::specs::Rules::swing_tick))]
pub fn channel_tick(channel: &mut Channel, u: u16, effect: Effect)
    requires effect { IsEffect effect }
    requires memory { IsMemoryInRange channel.old }
    ensures value { channel.new
        ≡ rules.swing_tick u effect (rules.slide_tick effect channel.old) }
    ensures stays { Stays channel.old channel.new }
{
    match effect {
        Effect::PortamentoUp { .. } => portamento_up(channel),
        Effect::PortamentoDown { .. } => portamento_down(channel),
        Effect::TonePortamento { .. } => tone_portamento(channel),
        Effect::TonePortamentoSlide { .. } => tone_portamento_slide(channel),
        Effect::VibratoSlide { .. } => vibrato_slide(channel),
        Effect::VolumeSlide { .. } => slide_volume(channel),
        Effect::PanningSlide { .. } => slide_panning(channel),
        Effect::Arpeggio { x, y } => step_arpeggio(channel, u, x, y),
        Effect::Vibrato { .. } => vibrate(channel),
        Effect::Tremolo { .. } => tremble(channel),
        Effect::NoteCut { tick } => cut_note(channel, u, tick),
        Effect::Retrigger { interval } => retrigger(channel, u, interval),
        Effect::MultiRetrigger { .. } => retrigger_many(channel),
        Effect::Tremor { .. } => go_on_tremor(channel),
        _ => {}
    }
}
