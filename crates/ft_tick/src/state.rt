//! The tick of a song between ticks.

ghost use Rattle.std.specs.Prelude.{◌≡◌, ◌≤◌, ◌<◌, ◌+◌, length, take, drop};
ghost use Rattle.ft_types.specs.Limits.{lowest_rate, highest_rate, longest_tick};
ghost use Rattle.ft_replay.specs.Calls as calls;
ghost use Rattle.ft_replay.specs.Range.{IsBetweenTicks, IsSongInRange};
ghost use Rattle.ft_replay.specs.Standing.{seated, sequential_of, state_of};
ghost use Rattle.ft_replay.specs.Tick as tick;
ghost use Rattle.ft_tick.specs.Bounds.{tick_bound};

use crate::seats::{gather, seat};
use crate::tick::make_tick;
use arrayvec::ArrayVec;
use ft_replay::{Channel, Control, Place, SongState};
use ft_types::{SongView, Voice};

/// Makes the state of a tick from the parts of a song. Its voices sit in their channels meanwhile.
fn tick_parts<V: SongView>(
    view: &mut V,
    channels: &mut [Channel; 32],
    control: &mut Control,
    voices: &mut ArrayVec<Voice, 32>,
    used: u8,
    rate: u32,
) -> Place
    requires wide { used ≡ length (V.holds view.old) }
    requires low { lowest_rate ≤ rate }
    requires high { rate ≤ highest_rate }
    requires range { IsBetweenTicks used control.old channels.old voices.old.items }
    ensures made { calls.Makes V.shows V.shown
        (λ version song state. (tick.tick_state_of version song rate state).state) view.old view.new
        (state_of control.old (seated (take used channels.old) voices.old.items))
        (state_of control.new (seated (take used channels.new) voices.new.items)) }
    ensures place { (w : V.World) → V.shows view.new w → result
        ≡ (tick.tick_state_of (V.shown view.old w).version (V.shown view.old w).song rate
        (state_of control.old (seated (take used channels.old) voices.old.items)
        (V.shown view.old w))).place }
    ensures keeps { calls.KeepsVoices (V.keeps view.old) (V.keeps view.new)
        (V.holds view.old) (V.holds view.new) voices.old.items voices.new.items }
    ensures range { IsBetweenTicks used control.new channels.new voices.new.items }
    ensures past { drop used channels.new ≡ drop used channels.old }
    ensures some_frames { 1 ≤ result.frames }
    ensures few_frames { result.frames ≤ longest_tick }
    ensures work { (V.work view.old ≤ V.work view.new)
        × (V.work view.new ≤ V.work view.old + tick_bound used) }
    ensures same { V.same view.old view.new }
{
    let channels = &mut channels[..used as usize];
    seat(channels, voices.as_slice());
    let at = make_tick(view, channels, control, rate);
    *voices = gather(channels);
    at
}

/// Makes the state of the next tick, with its voices at their first frame, and says where the tick
/// is and how many frames it has: 1 to 3,750.
///
/// The rate is 8,000 to 48,000 frames a second. The view has the song's channels. Where each channel
/// kept the sample of its voice, each does so after the tick. Each channel that kept a sample exactly
/// where it had a voice does so again. Channels past the song's own stay as they are.
pub fn tick_state<V: SongView>(view: &mut V, song: &mut SongState, rate: u32) -> Place
    requires wide { song.old.used ≡ length (V.holds view.old) }
    requires low { lowest_rate ≤ rate }
    requires high { rate ≤ highest_rate }
    requires range { IsSongInRange song.old }
    ensures made { calls.Makes V.shows V.shown
        (λ version a_song state. (tick.tick_state_of version a_song rate state).state)
        view.old view.new (sequential_of song.old) (sequential_of song.new) }
    ensures shown { calls.MakesShown V.shows V.shown
        (λ version a_song state. (tick.tick_state_of version a_song rate state).state)
        view.old view.new (sequential_of song.old) (sequential_of song.new) }
    ensures place { (w : V.World) → V.shows view.new w → result
        ≡ (tick.tick_state_of (V.shown view.old w).version (V.shown view.old w).song rate
        (sequential_of song.old (V.shown view.old w))).place }
    ensures keeps { calls.KeepsVoices (V.keeps view.old) (V.keeps view.new)
        (V.holds view.old) (V.holds view.new) song.old.voices.items song.new.voices.items }
    ensures range { IsSongInRange song.new }
    ensures used { song.new.used ≡ song.old.used }
    ensures past { drop song.old.used song.new.channels ≡ drop song.old.used song.old.channels }
    ensures some_frames { 1 ≤ result.frames }
    ensures few_frames { result.frames ≤ longest_tick }
    ensures work { (V.work view.old ≤ V.work view.new)
        × (V.work view.new ≤ V.work view.old + tick_bound song.old.used) }
    ensures same { V.same view.old view.new }
{
    let used = song.used;
    tick_parts(
        view,
        &mut song.channels,
        &mut song.control,
        &mut song.voices,
        used,
        rate,
    )
}
