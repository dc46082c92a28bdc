//! What begins a voice anew within a row, or silences it.

ghost use Rattle.std.specs.Prelude.{◌≡◌, ◌≤◌};
ghost use Rattle.ft_replay.specs.Retriggers as retriggers;
ghost use Rattle.ft_channel.specs.Staying.{Stays};

use crate::memory::{RETRIGGER_CHANGE, RETRIGGER_INTERVAL, TREMOR};
use ft_replay::Channel;
use ft_types::Voice;

/// The voice is at its first frame again.
fn restart(channel: &mut Channel)
    ensures value { channel.new ≡ retriggers.restarted channel.old }
    ensures stays { Stays channel.old channel.new }
{
    let Some(voice) = channel.voice else {
        return;
    };
    channel.voice = Some(Voice { pos: 0, ..voice });
}

/// The voice begins anew where the tick is a multiple of an interval that isn't 0.
pub fn retrigger(channel: &mut Channel, u: u16, interval: u8)
    ensures value { channel.new ≡ retriggers.retrigger u interval channel.old }
    ensures stays { Stays channel.old channel.new }
{
    if interval != 0 && u % u16::from(interval) == 0 {
        restart(channel);
    }
}

/// What R makes of a volume, by its first digit.
#[tactic(auto, unfolding(ft_replay::specs::Retriggers::retriggered_volume))]
fn retriggered_volume(change: u8, volume: u8) -> u8
    requires { volume ≤ 64 }
    ensures value { result ≡ retriggers.retriggered_volume change volume }
    ensures bounded { result ≤ 64 }
{
    if change % 8 == 0 {
        return volume;
    }
    match change {
        1..=5 => volume.saturating_sub(1 << (change - 1)),
        6 => 2 * volume / 3,
        7 => volume / 2,
        9..=13 => (volume + (1 << (change - 9))).min(64),
        14 => (3 * volume / 2).min(64),
        _ => (2 * volume).min(64),
    }
}

/// One more tick is counted; where as many are as R says, the voice begins anew with another volume.
pub fn retrigger_many(channel: &mut Channel)
    requires { channel.old.vol ≤ 64 }
    ensures value { channel.new ≡ retriggers.multi_retrigger channel.old }
    ensures stays { Stays channel.old channel.new }
{
    let change = channel.memory[RETRIGGER_CHANGE];
    let interval = channel.memory[RETRIGGER_INTERVAL];
    let counted = channel.retrigger.saturating_add(1);
    if interval == 0 || counted < interval {
        channel.retrigger = counted;
        return;
    }
    restart(channel);
    channel.retrigger = 0;
    channel.vol = retriggered_volume(change, channel.vol);
}

/// The voice is muted where more ticks are counted than are heard.
fn mute(channel: &mut Channel, times: u8)
    ensures value { channel.new ≡ retriggers.muted_by times channel.old }
    ensures stays { Stays channel.old channel.new }
{
    channel.muted = times / 16 < channel.tremor;
}

/// The tremor of a row's start.
pub fn start_tremor(channel: &mut Channel)
    ensures value { channel.new ≡ retriggers.tremor_start channel.old }
    ensures stays { Stays channel.old channel.new }
{
    mute(channel, channel.memory[TREMOR]);
}

/// The tremor of a later tick, which counts one more.
pub fn go_on_tremor(channel: &mut Channel)
    ensures value { channel.new ≡ retriggers.tremor_later channel.old }
    ensures stays { Stays channel.old channel.new }
{
    let times = channel.memory[TREMOR];
    let turn = u16::from(times / 16 + times % 16 + 2);
    channel.tremor = ((u16::from(channel.tremor) + 1) % turn) as u8;
    mute(channel, times);
}

/// The volume is 0 where the tick is that of a note cut.
pub fn cut_note(channel: &mut Channel, u: u16, tick: u8)
    ensures value { channel.new ≡ retriggers.note_cut u tick channel.old }
    ensures stays { Stays channel.old channel.new }
{
    if u16::from(tick) == u {
        channel.vol = 0;
    }
}
