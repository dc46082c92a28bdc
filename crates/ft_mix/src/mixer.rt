//! Mixes the voices of a tick.

ghost use Rattle.std.specs.Prelude.{◌≡◌, ◌≢◌, ◌≤◌, ◌<◌, ◌+◌, ◌*◌, ◌/◌, ◌%◌, ℕ, All, length};
ghost use Rattle.std.specs.List.{sum_by};
ghost use Rattle.ft_types.specs.Limits.{room_of_tick};
ghost use Rattle.ft_types.specs.Work as work_of;
ghost use Rattle.ft_replay.specs.Range.{IsVoiceInRange};
ghost use Rattle.ft_replay.specs.Sound as sound;
ghost use Rattle.ft_replay.specs.Standing.{IsAscending};
ghost use Rattle.ft_mix.specs.Mixing as mixing;

use crate::block::fill;
use crate::settle::settle;
use arrayvec::ArrayVec;
use ft_types::{SampleHead, SongView, Voice};

/// Writes the sound of the voices of a tick over the whole of `out`, moves the voices on, and ends
/// those that are over: their channels keep nothing any more. `out` has two numbers a frame, left
/// and right in turn, and at most 3,751 frames.
pub fn mix<V: SongView>(view: &mut V, voices: &mut ArrayVec<Voice, 32>, out: &mut [i16])
    requires voices { All (mixing.IsMixed (V.keeps view.old) (length (V.holds view.old)))
        voices.old.items }
    requires even { length out.old % 2 ≡ 0 }
    requires room { length out.old ≤ room_of_tick }
    ensures sound { (w : V.World) → V.shows view.new w → V.shows view.old w
        × (V.shown view.new w
        ≡ sound.shown_after (length out.old / 2) voices.old.items (V.shown view.old w))
        × (out.new
        ≡ sound.sound_of_voices (V.shown view.old w).kept voices.old.items (length out.old / 2)) }
    ensures voices { voices.new.items ≡ sound.voices_after (length out.old / 2) voices.old.items }
    ensures range { All IsVoiceInRange voices.new.items }
    ensures ascend { (low high : ℕ) → IsAscending low high voices.old.items
        → IsAscending low high voices.new.items }
    ensures mixed { (low high : ℕ) → IsAscending low high voices.old.items
        → All (mixing.IsMixed (V.keeps view.new) (length (V.holds view.new))) voices.new.items }
    ensures holds { V.holds view.new
        ≡ sound.holds_after (length out.old / 2) voices.old.items (V.holds view.old) }
    ensures wide { length (V.holds view.new) ≡ length (V.holds view.old) }
    ensures keeps { (c : ℕ) (h : SampleHead)
        → mixing.SoundsOn (length out.old / 2) voices.old.items c
        → V.keeps view.old c h → V.keeps view.new c h }
    ensures many { length out.new ≡ length out.old }
    ensures work { (V.work view.old ≤ V.work view.new) × (V.work view.new ≤ V.work view.old
        + length voices.old.items * (1 + 2 * work_of.frame_bound * (length out.old / 2))) }
    ensures cost { V.work view.new ≤ V.work view.old
        + sum_by (mixing.voice_cost (length out.old / 2)) voices.old.items }
    ensures same { V.same view.old view.new }
{
    let frames = (out.len() / 2) as u32;
    fill(view, voices.as_slice(), out);
    let on = settle(view, voices.as_slice(), frames);
    *voices = on;
}
