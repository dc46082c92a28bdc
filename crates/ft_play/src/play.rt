//! A whole tick: its state, and its sound.

ghost use Rattle.std.specs.Prelude.{◌≡◌, ◌≤◌, ◌+◌, ◌*◌, ℕ, All, length, take, drop};
ghost use Rattle.std.specs.List.{sum_by};
ghost use Rattle.ft_types.specs.Limits.{lowest_rate, highest_rate, longest_tick};
ghost use Rattle.ft_types.specs.Work.{frame_bound};
ghost use Rattle.ft_mix.specs.Mixing.{IsMixed, voice_cost};
ghost use Rattle.ft_replay.specs.Calls as calls;
ghost use Rattle.ft_replay.specs.Range.{IsSongInRange, IsVoiceInRange};
ghost use Rattle.ft_replay.specs.Sound as sound;
ghost use Rattle.ft_replay.specs.Standing.{IsAscending, sequential_of};
ghost use Rattle.ft_replay.specs.Tick as tick;
ghost use Rattle.ft_tick.specs.Bounds.{tick_bound};
ghost use Rattle.ft_play.specs.Bounds.{play_bound};
ghost use Rattle.ft_play.specs.Mixed.{voices_of};

use arrayvec::ArrayVec;
use ft_mix::mix;
use ft_replay::{Place, SongState};
use ft_tick::tick_state;
use ft_types::{SongView, Voice};

/// Writes the sound of the voices of a tick over the first frames of `out`, moves the voices on,
/// and ends those that are over.
fn mix_front<V: SongView>(
    view: &mut V,
    voices: &mut ArrayVec<Voice, 32>,
    frames: u32,
    out: &mut [i16],
)
    requires voices { All (IsMixed (V.keeps view.old) (length (V.holds view.old))) voices.old.items }
    requires few { frames ≤ longest_tick }
    requires room { 2 * frames ≤ length out.old }
    ensures sound { (w : V.World) → V.shows view.new w → V.shows view.old w
        × (V.shown view.new w ≡ sound.shown_after frames voices.old.items (V.shown view.old w))
        × (take (2 * frames) out.new
        ≡ sound.sound_of_voices (V.shown view.old w).kept voices.old.items frames) }
    ensures rest { drop (2 * frames) out.new ≡ drop (2 * frames) out.old }
    ensures many { length out.new ≡ length out.old }
    ensures voices { voices.new.items ≡ sound.voices_after frames voices.old.items }
    ensures range { All IsVoiceInRange voices.new.items }
    ensures ascend { (low high : ℕ) → IsAscending low high voices.old.items
        → IsAscending low high voices.new.items }
    ensures kept { (low high : ℕ) → IsAscending low high voices.old.items
        → calls.AreVoicesKept (V.keeps view.new) voices.new.items }
    ensures holds { V.holds view.new
        ≡ sound.holds_after frames voices.old.items (V.holds view.old) }
    ensures wide { length (V.holds view.new) ≡ length (V.holds view.old) }
    ensures work { (V.work view.old ≤ V.work view.new) × (V.work view.new ≤ V.work view.old
        + length voices.old.items * (1 + 2 * frame_bound * frames)) }
    ensures cost { V.work view.new
        ≤ V.work view.old + sum_by (voice_cost frames) voices.old.items }
    ensures same { V.same view.old view.new }
{
    mix(view, voices, &mut out[..2 * frames as usize]);
}

/// Puts voices in place of others.
fn copy_voices(from: &ArrayVec<Voice, 32>, to: &mut ArrayVec<Voice, 32>)
    ensures { to.new.items ≡ from.now.items }
{
    to.clear();
    let copied = to.try_extend_from_slice(from.as_slice());
    prove!(copied.is_ok());
}

/// Plays the next tick: its frames, left and right in turn, are the first numbers of `out`, and the
/// rest of `out` stays as it was. A tick has 1 to 3,750 frames. `mixed` is then the voices as the
/// mixer was given them, at their first frame and by ascending channel.
///
/// The rate is 8,000 to 48,000 frames a second. The view has the song's channels, and keeps the
/// sample of each voice on its channel. It does so after the tick. Each channel that kept a sample
/// exactly where it had a voice does so again. Channels past the song's own stay as they are.
pub fn play_tick<V: SongView>(
    view: &mut V,
    song: &mut SongState,
    rate: u32,
    mixed: &mut ArrayVec<Voice, 32>,
    out: &mut [i16],
) -> Place
    requires wide { song.old.used ≡ length (V.holds view.old) }
    requires low { lowest_rate ≤ rate }
    requires high { rate ≤ highest_rate }
    requires range { IsSongInRange song.old }
    requires kept { calls.AreVoicesKept (V.keeps view.old) song.old.voices.items }
    requires room { 7500 ≤ length out.old }
    ensures made { calls.Makes V.shows V.shown
        (λ version a_song state. (tick.seq_tick version a_song rate state).state) view.old view.new
        (sequential_of song.old) (sequential_of song.new) }
    ensures place { (w : V.World) → V.shows view.new w → result
        ≡ (tick.seq_tick (V.shown view.old w).version (V.shown view.old w).song rate
        (sequential_of song.old (V.shown view.old w))).place }
    ensures sound { (w : V.World) → V.shows view.new w → take (2 * result.frames) out.new
        ≡ (tick.seq_tick (V.shown view.old w).version (V.shown view.old w).song rate
        (sequential_of song.old (V.shown view.old w))).sound }
    ensures mixed { (w : V.World) → V.shows view.new w → mixed.new.items
        ≡ voices_of (tick.tick_state_of (V.shown view.old w).version (V.shown view.old w).song rate
        (sequential_of song.old (V.shown view.old w))).state.lanes }
    ensures rest { drop (2 * result.frames) out.new ≡ drop (2 * result.frames) out.old }
    ensures many { length out.new ≡ length out.old }
    ensures kept { calls.AreVoicesKept (V.keeps view.new) song.new.voices.items }
    ensures exact { calls.StaysExact (V.holds view.old) (V.holds view.new)
        song.old.voices.items song.new.voices.items }
    ensures wide { length (V.holds view.new) ≡ length (V.holds view.old) }
    ensures range { IsSongInRange song.new }
    ensures used { song.new.used ≡ song.old.used }
    ensures past { drop song.old.used song.new.channels ≡ drop song.old.used song.old.channels }
    ensures some_frames { 1 ≤ result.frames }
    ensures few_frames { result.frames ≤ longest_tick }
    ensures work { (V.work view.old ≤ V.work view.new)
        × (V.work view.new ≤ V.work view.old + play_bound song.old.used result.frames) }
    ensures cost { V.work view.new ≤ V.work view.old
        + tick_bound song.old.used + sum_by (voice_cost result.frames) mixed.new.items }
    ensures few_voices { length mixed.new.items ≤ song.old.used }
    ensures same { V.same view.old view.new }
{
    let at = tick_state(view, song, rate);
    copy_voices(&song.voices, mixed);
    mix_front(view, &mut song.voices, at.frames, out);
    at
}
