//! Voices take their seats in their channels for a tick, and leave them after it.

ghost use Rattle.std.specs.Prelude.{◌≡◌, ◌≤◌, ◌<◌, ◌+◌, ◌++◌, ◌∷◌, [], All, length, get_or, set, map, option_to_list};
ghost use Rattle.ft_replay.specs.State.{blank_channel};
ghost use Rattle.ft_replay.specs.Standing as standing;

use arrayvec::ArrayVec;
use ft_replay::Channel;
use ft_types::Voice;

/// Moves a voice to its channel.
fn seat_one(channels: &mut [Channel], voice: Voice)
    requires { voice.channel < length channels.old }
    ensures seated { channels.new ≡ standing.seat_of voice channels.old }
    ensures many { length channels.new ≡ length channels.old }
{
    channels[voice.channel as usize].voice = Some(voice);
}

/// Moves each voice to its channel.
pub fn seat(channels: &mut [Channel], voices: &[Voice])
    requires { All (λ voice. voice.channel < length channels.old) voices.now }
    ensures seated { channels.new ≡ standing.seated channels.old voices.now }
    ensures many { length channels.new ≡ length channels.old }
{
    for voice in voices {
        seat_one(channels, *voice);
    }
}

/// Takes the voice of a channel, if it has one.
fn take_voice(channels: &mut [Channel], c: usize, on: &mut ArrayVec<Voice, 32>)
    requires channel { c < length channels.old }
    requires room { length on.old.items < 32 }
    ensures channels { channels.new
        ≡ set channels.old c (standing.emptied (get_or channels.old c blank_channel)) }
    ensures on { on.new.items
        ≡ on.old.items ++ option_to_list (get_or channels.old c blank_channel).voice }
    ensures few { length on.new.items ≤ length on.old.items + 1 }
{
    let Some(voice) = channels[c].voice else {
        return;
    };
    on.push(voice);
    channels[c].voice = None;
}

/// Takes the voices out of their channels, in ascending order.
pub fn gather(channels: &mut [Channel]) -> ArrayVec<Voice, 32>
    requires { length channels.old ≤ 32 }
    ensures voices { result.items ≡ standing.gathered channels.old }
    ensures channels { channels.new ≡ map standing.emptied channels.old }
{
    let mut on = ArrayVec::new();
    for c in 0..channels.len() {
        take_voice(channels, c, &mut on);
    }
    on
}
