//! Moves voices on after a tick, and ends those that are over.

ghost use Rattle.std.specs.Prelude.{◌≡◌, ◌≢◌, ◌≤◌, ◌<◌, ◌+◌, ◌++◌, ◌^◌, [], ◌∷◌, ℕ, All, length};
ghost use Rattle.ft_types.specs.Valid.{IsValidHead};
ghost use Rattle.ft_replay.specs.Range.{IsVoiceInRange};
ghost use Rattle.ft_replay.specs.Sound as sound;
ghost use Rattle.ft_mix.specs.Mixing as mixing;

use crate::reach::turn;
use arrayvec::ArrayVec;
use ft_types::{SampleHead, SongView, Voice};

/// Where a voice has come to after that many frames.
fn reached(voice: Voice, frames: u32) -> u64
    requires range { IsVoiceInRange voice }
    requires few { frames ≤ 3751 }
    ensures value { result ≡ sound.reached frames voice }
    ensures bound { result < 2 ^ 56 }
{
    voice.pos + u64::from(frames) * voice.step
}

/// A position past the end of a loop, brought back by whole turns.
#[tactic(auto, unfolding(ft_replay::specs::Sound::brought_back))]
fn brought_back(head: &SampleHead, position: u64) -> u64
    requires head { IsValidHead head.now }
    requires position { position < 2 ^ 56 }
    ensures { result ≡ sound.brought_back head.now position }
{
    if head.loop_kind == 0 {
        return position;
    }
    let frame = (position >> 32) as u32;
    if frame < head.loop_start + head.loop_len {
        return position;
    }
    let back = head.loop_start + (frame - head.loop_start) % turn(head);
    u64::from(back) * (1 << 32) + position % (1 << 32)
}

/// Whether a voice has ended after that many frames.
fn is_ended(voice: Voice, frames: u32) -> bool
    requires range { IsVoiceInRange voice }
    requires few { frames ≤ 3751 }
    ensures { result ≡ sound.is_ended frames voice }
{
    if voice.last {
        return true;
    }
    voice.head.loop_kind == 0 && reached(voice, frames) >> 32 >= u64::from(voice.head.frames)
}

/// Moves a voice on to those that go on, or ends it: then its channel keeps nothing any more.
fn settle_voice<V: SongView>(view: &mut V, voice: Voice, frames: u32, on: &mut ArrayVec<Voice, 32>)
    requires channel { voice.channel < length (V.holds view.old) }
    requires range { IsVoiceInRange voice }
    requires few { frames ≤ 3751 }
    requires room { length on.old.items < 32 }
    ensures on { on.new.items ≡ on.old.items ++ sound.voices_after frames (voice ∷ []) }
    ensures shown { (w : V.World) → V.shows view.new w → V.shows view.old w
        × (V.shown view.new w ≡ sound.shown_after frames (voice ∷ []) (V.shown view.old w)) }
    ensures holds { V.holds view.new ≡ sound.holds_after frames (voice ∷ []) (V.holds view.old) }
    ensures keeps { (c : ℕ) (h : SampleHead) → mixing.SoundsOn frames (voice ∷ []) c
        → V.keeps view.old c h → V.keeps view.new c h }
    ensures work { (V.work view.old ≤ V.work view.new) × (V.work view.new ≤ V.work view.old + 1) }
    ensures same { V.same view.old view.new }
{
    if is_ended(voice, frames) {
        view.stop(voice.channel);
        return;
    }
    let pos = brought_back(&voice.head, reached(voice, frames));
    on.push(Voice { pos, ..voice });
}

/// The voices that go on after that many frames, in their order. The channels of the others keep
/// nothing any more.
pub fn settle<V: SongView>(view: &mut V, voices: &[Voice], frames: u32) -> ArrayVec<Voice, 32>
    requires voices { All (mixing.IsMixed (V.keeps view.old) (length (V.holds view.old)))
        voices.now }
    requires few { length voices.now ≤ 32 }
    requires frames { frames ≤ 3751 }
    ensures on { result.items ≡ sound.voices_after frames voices.now }
    ensures shown { (w : V.World) → V.shows view.new w → V.shows view.old w
        × (V.shown view.new w ≡ sound.shown_after frames voices.now (V.shown view.old w)) }
    ensures holds { V.holds view.new ≡ sound.holds_after frames voices.now (V.holds view.old) }
    ensures keeps { (c : ℕ) (h : SampleHead) → mixing.SoundsOn frames voices.now c
        → V.keeps view.old c h → V.keeps view.new c h }
    ensures work { (V.work view.old ≤ V.work view.new)
        × (V.work view.new ≤ V.work view.old + length voices.now) }
    ensures same { V.same view.old view.new }
{
    let mut on = ArrayVec::new();
    for voice in voices {
        settle_voice(view, *voice, frames, &mut on);
    }
    on
}
