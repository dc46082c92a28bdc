//! What is heard of a channel.

ghost use Rattle.std.specs.Prelude.{◌≡◌, ◌≤◌, ◌<◌, ◌+◌, ◌*◌, ◌≤ℤ◌, ◌+ℤ◌, ◌-ℤ◌, ℕ, None, Some, IfSome, pos, negsuc, length, map, get_or, is_some};
ghost use Rattle.std.specs.Int.{int_max};
ghost use Rattle.ft_types.specs.Limits.{lowest_rate, highest_period};
ghost use Rattle.ft_types.specs.declared.voice.SampleHead.{SampleHead};
ghost use Rattle.ft_types.specs.Valid.{IsValidEnvelope, IsValidShape};
ghost use Rattle.ft_replay.specs.Calls as calls;
ghost use Rattle.ft_replay.specs.Envelopes as envelopes;
ghost use Rattle.ft_replay.specs.Hearing as hearing;
ghost use Rattle.ft_replay.specs.Range.{AreInRange, IsChannelInRange, IsMemoryInRange, IsVoiceInRange};
ghost use Rattle.ft_channel.specs.Staying.{voice_head};
ghost use Rattle.ft_tick.specs.Bounds.{hear_bound};

use crate::gain::{gain_of, left_gain, right_gain};
use ft_channel::{auto_vibrato, envelope_at, envelope_next, is_on};
use ft_replay::{Channel, Control};
use ft_tables::{amiga_higher, step_of};
use ft_types::{Envelope, Shape, SongView, Voice};

/// What all channels share in a tick.
#[derive(Clone, Copy)]
struct Sounding {
    /// The kind of periods.
    linear: bool,
    /// Frames a second.
    rate: u32,
    /// Global volume, 0 to 64.
    global: u8,
}

/// A volume brought into 0 to 64.
fn within_volume(z: i32) -> u8
    ensures value { result ≡ hearing.brought_into (pos 0) (pos 64) z }
    ensures bounded { result ≤ 64 }
{
    z.clamp(0, 64) as u8
}

/// A panning moved to a side, at most to 0 or 255.
fn shifted(panning: u8, shift: i32) -> u8
    requires low { negsuc 127 ≤ℤ shift }
    requires high { shift ≤ℤ pos 128 }
    ensures { result ≡ hearing.brought_into (pos 0) (pos 255) (pos panning +ℤ shift) }
{
    (i32::from(panning) + shift).clamp(0, 255) as u8
}

/// A period brought into 1 to 31,999.
fn within_period(z: i32) -> u16
    ensures value { result ≡ hearing.brought_into (pos 1) (pos highest_period) z }
    ensures low { 1 ≤ result }
    ensures high { result ≤ highest_period }
{
    z.clamp(1, 31999) as u16
}

/// The volume that is heard, 0 to 64, with what a tremolo adds; 0 where a tremor mutes.
#[tactic(auto, unfolding(ft_replay::specs::Hearing::heard_volume))]
fn heard_volume(channel: &Channel) -> u8
    requires { IsMemoryInRange channel.now }
    ensures value { result ≡ hearing.heard_volume channel.now }
    ensures bounded { result ≤ 64 }
{
    if channel.muted {
        return 0;
    }
    within_volume(i32::from(channel.vol) + i32::from(channel.trem_off))
}

/// How far a panning is from the nearer side.
fn room_of(panning: u8) -> u8
    ensures value { result ≡ hearing.room_of panning }
    ensures bounded { result ≤ 128 }
{
    if panning <= 128 {
        return panning;
    }
    (256 - u16::from(panning)) as u8
}

/// That many parts of 32 of a room, rounded down.
#[tactic(auto, unfolding(ft_replay::specs::Hearing::moved))]
fn moved(parts: i32, room: u8) -> i32
    requires low { negsuc 31 ≤ℤ parts }
    requires high { parts ≤ℤ pos 32 }
    requires room { room ≤ 128 }
    ensures value { result ≡ hearing.moved parts room }
    ensures low { negsuc 127 ≤ℤ result }
    ensures high { result ≤ℤ pos 128 }
{
    (parts * i32::from(room)) >> 5
}

/// How far an envelope of the panning is from its middle, -32 to 32.
fn off_middle(envelope: u8) -> i32
    requires { envelope ≤ 64 }
    ensures value { result ≡ (pos envelope -ℤ pos 32) }
    ensures low { negsuc 31 ≤ℤ result }
    ensures high { result ≤ℤ pos 32 }
{
    i32::from(envelope) - 32
}

/// The panning that is heard, by its envelope of 0 to 64, which is 32 in the middle.
#[tactic(auto, unfolding(ft_replay::specs::Hearing::heard_panning))]
fn heard_panning(panning: u8, envelope: u8) -> u8
    requires { envelope ≤ 64 }
    ensures value { result ≡ hearing.heard_panning panning envelope }
{
    shifted(panning, moved(off_middle(envelope), room_of(panning)))
}

/// Whole semitones that are nearest to a distance of periods.
#[tactic(auto, unfolding(ft_replay::specs::Hearing::in_semitones))]
fn in_semitones(distance: i32) -> i32
    requires low { negsuc 31998 ≤ℤ distance }
    requires high { distance ≤ℤ pos highest_period }
    ensures value { result ≡ hearing.in_semitones distance }
    ensures low { (distance -ℤ pos 31) ≤ℤ result }
    ensures high { result ≤ℤ (distance +ℤ pos 32) }
{
    64 * ((distance + 32) >> 6)
}

/// The period of a tone portamento, in semitones from its target where it is to be heard so.
#[tactic(auto, unfolding(ft_replay::specs::Hearing::glided_period))]
fn glided_period(channel: &Channel) -> i32
    requires { IsMemoryInRange channel.now }
    ensures value { result ≡ hearing.glided_period channel.now }
    ensures low { negsuc 30 ≤ℤ result }
    ensures high { result ≤ℤ pos 32031 }
{
    let period = i32::from(channel.period);
    if !channel.glissando || !channel.gliding {
        return period;
    }
    let target = i32::from(channel.target);
    target + in_semitones(period - target)
}

/// A period of at least 1.
fn at_least_1(period: i32) -> i32
    requires { period ≤ℤ pos 32031 }
    ensures value { result ≡ int_max (pos 1) period }
    ensures low { pos 1 ≤ℤ result }
    ensures high { result ≤ℤ pos 32031 }
{
    if period < 1 {
        return 1;
    }
    period
}

/// The period as many semitones higher as an arpeggio says, at least 1.
#[tactic(auto, unfolding(ft_replay::specs::Hearing::stepped_period))]
fn stepped_period(channel: &Channel, linear: bool) -> i32
    requires { IsMemoryInRange channel.now }
    ensures value { result ≡ hearing.stepped_period linear channel.now }
    ensures low { pos 1 ≤ℤ result }
    ensures high { result ≤ℤ pos 32031 }
{
    if linear {
        return at_least_1(glided_period(channel) - 64 * i32::from(channel.arp));
    }
    at_least_1(i32::from(amiga_higher(channel.arp, channel.period)))
}

/// The period with what a vibrato adds.
fn vibrated_period(channel: &Channel, linear: bool) -> i32
    requires { IsMemoryInRange channel.now }
    ensures value { result ≡ (hearing.stepped_period linear channel.now +ℤ channel.now.vib_off) }
    ensures low { negsuc 32768 ≤ℤ result }
    ensures high { result ≤ℤ pos 64799 }
{
    stepped_period(channel, linear) + i32::from(channel.vib_off)
}

/// The period that is heard, 1 to 31,999, with what a vibrato and the automatic vibrato add.
#[tactic(auto, unfolding(ft_replay::specs::Hearing::heard_period))]
fn heard_period(channel: &Channel, linear: bool, offset: i32) -> u16
    requires range { IsMemoryInRange channel.now }
    requires low { negsuc 13 ≤ℤ offset }
    requires high { offset ≤ℤ pos 14 }
    ensures value { result ≡ hearing.heard_period linear offset channel.now }
    ensures low { 1 ≤ result }
    ensures high { result ≤ highest_period }
{
    within_period(vibrated_period(channel, linear) + offset)
}

/// What is heard of an envelope: where it is off, or there is none, as much as is said.
fn heard_envelope(without: u8, envelope: &Option<Envelope>, position: u16) -> u8
    requires without { without ≤ 64 }
    requires valid { IfSome envelope.now IsValidEnvelope }
    ensures value { result ≡ envelopes.heard_envelope without envelope.now position }
    ensures bounded { result ≤ 64 }
{
    match envelope {
        Some(envelope) if is_on(envelope) => envelope_at(envelope, position),
        _ => without,
    }
}

/// A channel's voice gets its gains and its step.
#[tactic(auto, unfolding(ft_replay::specs::Hearing::heard_voice))]
fn heard_voice(
    channel: &Channel,
    voice: Voice,
    time: Sounding,
    volume: &Option<Envelope>,
    panning: &Option<Envelope>,
    offset: i32,
) -> Voice
    requires range { IsMemoryInRange channel.now }
    requires voice { IsVoiceInRange voice }
    requires volume { IfSome volume.now IsValidEnvelope }
    requires panning { IfSome panning.now IsValidEnvelope }
    requires global { time.global ≤ 64 }
    requires rate { lowest_rate ≤ time.rate }
    requires low { negsuc 13 ≤ℤ offset }
    requires high { offset ≤ℤ pos 14 }
    ensures value { result ≡ hearing.heard_voice time.linear time.rate time.global volume.now
        panning.now offset channel.now voice }
    ensures range { IsVoiceInRange result }
    ensures head { result.head ≡ voice.head }
    ensures home { result.channel ≡ voice.channel }
{
    let level = heard_envelope(64, volume, channel.vol_env);
    let gain = gain_of(heard_volume(channel), time.global, level, channel.fade);
    let pan = heard_panning(channel.pan, heard_envelope(32, panning, channel.pan_env));
    Voice {
        step: step_of(
            time.linear,
            time.rate,
            heard_period(channel, time.linear, offset),
        ),
        left: left_gain(gain, pan),
        right: right_gain(gain, pan),
        ..voice
    }
}

/// What the automatic vibrato of an instrument that exists adds to the period; then it goes on.
fn vibrate(channel: &mut Channel, shape: &Option<Shape>) -> i32
    requires { IfSome shape.now IsValidShape }
    ensures value { result ≡ hearing.offset_by shape.now channel.old }
    ensures low { negsuc 13 ≤ℤ result }
    ensures high { result ≤ℤ pos 14 }
    ensures on { channel.new ≡ hearing.with_auto_by shape.now channel.old }
    ensures range { (c : ℕ) → IsChannelInRange c channel.old → IsChannelInRange c channel.new }
    ensures voice { channel.new.voice ≡ channel.old.voice }
{
    match shape {
        Some(shape) => auto_vibrato(channel, &shape.vibrato),
        None => 0,
    }
}

/// The next position of an envelope; one that is off stays.
fn next_position(envelope: &Option<Envelope>, released: bool, position: u16) -> u16
    requires { IfSome envelope.now IsValidEnvelope }
    ensures { result ≡ envelopes.next_position envelope.now released position }
{
    match envelope {
        Some(envelope) if is_on(envelope) => envelope_next(envelope, released, position),
        _ => position,
    }
}

/// The envelopes of a channel go on.
fn go_on_envelopes(channel: &mut Channel, volume: &Option<Envelope>, panning: &Option<Envelope>)
    requires volume { IfSome volume.now IsValidEnvelope }
    requires panning { IfSome panning.now IsValidEnvelope }
    ensures value { channel.new ≡ hearing.with_envelopes volume.now panning.now channel.old }
    ensures range { (c : ℕ) → IsChannelInRange c channel.old → IsChannelInRange c channel.new }
    ensures voice { channel.new.voice ≡ channel.old.voice }
{
    channel.vol_env = next_position(volume, channel.released, channel.vol_env);
    channel.pan_env = next_position(panning, channel.released, channel.pan_env);
}

/// The fadeout of an instrument; none where it is missing.
fn fadeout_of(shape: &Option<Shape>) -> u16
    ensures { result ≡ hearing.fadeout_of shape.now }
{
    match shape {
        Some(shape) => shape.fadeout,
        None => 0,
    }
}

/// The tick is the last one of a channel's voice.
fn end_after_tick(channel: &mut Channel)
    ensures value { channel.new ≡ record channel.old { voice = hearing.with_last channel.old.voice } }
    ensures range { (c : ℕ) → IsChannelInRange c channel.old → IsChannelInRange c channel.new }
    ensures sample { voice_head channel.new.voice ≡ voice_head channel.old.voice }
{
    let Some(voice) = channel.voice else {
        return;
    };
    channel.voice = Some(Voice {
        last: true,
        ..voice
    });
}

/// After a key off the fade of a channel falls; at 0 its voice ends.
fn fade(channel: &mut Channel, fadeout: u16)
    ensures value { channel.new ≡ hearing.with_fade fadeout channel.old }
    ensures range { (c : ℕ) → IsChannelInRange c channel.old → IsChannelInRange c channel.new }
    ensures sample { voice_head channel.new.voice ≡ voice_head channel.old.voice }
{
    if !channel.released {
        return;
    }
    channel.fade = channel.fade.saturating_sub(fadeout);
    if channel.fade == 0 {
        end_after_tick(channel);
    }
}

/// A channel's voice gets its gains and its step; then envelopes, automatic vibrato and fade go on.
fn sound(
    channel: &mut Channel,
    voice: Voice,
    time: Sounding,
    volume: &Option<Envelope>,
    panning: &Option<Envelope>,
    shape: &Option<Shape>,
)
    requires voice { channel.old.voice ≡ Some voice }
    requires range { (c : ℕ) × IsChannelInRange c channel.old }
    requires volume { IfSome volume.now IsValidEnvelope }
    requires panning { IfSome panning.now IsValidEnvelope }
    requires shape { IfSome shape.now IsValidShape }
    requires global { time.global ≤ 64 }
    requires rate { lowest_rate ≤ time.rate }
    ensures value { channel.new ≡ hearing.heard_by time.rate time.global time.linear
        volume.now panning.now shape.now channel.old.voice channel.old }
    ensures range { (c : ℕ) → IsChannelInRange c channel.old → IsChannelInRange c channel.new }
    ensures sample { voice_head channel.new.voice ≡ voice_head channel.old.voice }
{
    let offset = vibrate(channel, shape);
    let heard = heard_voice(channel, voice, time, volume, panning, offset);
    channel.voice = Some(heard);
    go_on_envelopes(channel, volume, panning);
    fade(channel, fadeout_of(shape));
}

/// A channel with a voice gets its gains and its step. Of a channel without one nothing is read.
#[tactic(auto, unfolding(ft_replay::specs::Hearing::heard_channel))]
fn hear_one<V: SongView>(
    view: &mut V,
    channel: &mut Channel,
    control: &Control,
    linear: bool,
    rate: u32,
)
    requires linear { (w : V.World) → V.shows view.old w
        → linear ≡ (V.shown view.old w).song.linear }
    requires range { (c : ℕ) × IsChannelInRange c channel.old }
    requires global { control.now.global ≤ 64 }
    requires rate { lowest_rate ≤ rate }
    ensures shows { calls.ShowsOn V.shows V.shown view.old view.new }
    ensures value { (w : V.World) → V.shows view.new w → channel.new
        ≡ hearing.heard_channel rate control.now (V.shown view.old w).song channel.old }
    ensures range { (c : ℕ) → IsChannelInRange c channel.old → IsChannelInRange c channel.new }
    ensures kept { (c : ℕ) → calls.IsKept (V.keeps view.old) c channel.old.voice
        → calls.IsKept (V.keeps view.new) c channel.new.voice }
    ensures sounds { is_some channel.new.voice ≡ is_some channel.old.voice }
    ensures holds { V.holds view.new ≡ V.holds view.old }
    ensures keeps { (c : ℕ) (h : SampleHead) → V.keeps view.old c h → V.keeps view.new c h }
    ensures work { (V.work view.old ≤ V.work view.new)
        × (V.work view.new ≤ V.work view.old + hear_bound) }
    ensures silent { channel.old.voice ≡ None → V.work view.new ≡ V.work view.old }
    ensures same { V.same view.old view.new }
{
    let Some(voice) = channel.voice else {
        return;
    };
    let volume = view.envelope(channel.instrument, 0);
    let panning = view.envelope(channel.instrument, 1);
    let shape = view.shape(channel.instrument);
    let time = Sounding {
        linear,
        rate,
        global: control.global,
    };
    sound(channel, voice, time, &volume, &panning, &shape);
}

/// The channels with a voice get their gains and their steps.
pub fn hear<V: SongView>(
    view: &mut V,
    channels: &mut [Channel],
    control: &Control,
    linear: bool,
    rate: u32,
)
    requires linear { (w : V.World) → V.shows view.old w
        → linear ≡ (V.shown view.old w).song.linear }
    requires range { AreInRange channels.old }
    requires global { control.now.global ≤ 64 }
    requires rate { lowest_rate ≤ rate }
    ensures shows { calls.ShowsOn V.shows V.shown view.old view.new }
    ensures value { (w : V.World) → V.shows view.new w → channels.new
        ≡ map (hearing.heard_channel rate control.now (V.shown view.old w).song) channels.old }
    ensures range { AreInRange channels.new }
    ensures keeps { calls.KeepsForAll (V.keeps view.old) (V.keeps view.new)
        (V.holds view.old) (V.holds view.new) channels.old channels.new }
    ensures work { (V.work view.old ≤ V.work view.new)
        × (V.work view.new ≤ V.work view.old + length channels.old * hear_bound) }
    ensures same { V.same view.old view.new }
{
    for c in 0..channels.len() {
        hear_one(view, &mut channels[c], control, linear, rate);
    }
}
