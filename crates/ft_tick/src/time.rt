//! How long a tick is.

ghost use Rattle.std.specs.Prelude.{◌≡◌, ◌≤◌, ◌<◌, ◌+◌, ◌*◌, ℕ};
ghost use Rattle.ft_types.specs.Limits.{lowest_rate, highest_rate, longest_tick};
ghost use Rattle.ft_replay.specs.Range.{IsPlaying};
ghost use Rattle.ft_replay.specs.Time as time;

use ft_replay::Control;

/// What a tick divides by twice its BPM: the rest of the tick before counts where
/// the BPM stays.
fn tick_room(control: &Control, rate: u32) -> u32
    requires carry { 1 ≤ control.now.carry → control.now.carry < 2 * control.now.last_bpm }
    requires bpm { 1 ≤ control.now.bpm }
    requires rate { rate ≤ highest_rate }
    ensures value { result ≡ time.tick_room rate control.now }
    ensures bounded { result < 5 * rate + 2 * control.now.bpm }
{
    let carry = if control.bpm == control.last_bpm {
        control.carry
    } else {
        0
    };
    5 * rate + carry
}

/// The frames of a tick, 78 to 3,750. The rest of the division is kept for the next.
#[tactic(auto, unfolding(ft_replay::specs::Time::tick_frames))]
pub fn tick_frames(control: &mut Control, rate: u32) -> u32
    requires slow { 32 ≤ control.old.bpm }
    requires carry { 1 ≤ control.old.carry → control.old.carry < 2 * control.old.last_bpm }
    requires low { lowest_rate ≤ rate }
    requires high { rate ≤ highest_rate }
    ensures frames { result ≡ time.tick_frames rate control.old }
    ensures some_frames { 1 ≤ result }
    ensures few_frames { result ≤ longest_tick }
    ensures rest { control.new.carry < 2 * control.old.bpm }
    ensures control { control.new ≡ time.with_carry rate control.old }
    ensures playing { (n : ℕ) → IsPlaying n control.old → IsPlaying n control.new }
{
    let room = tick_room(control, rate);
    let beats = 2 * u32::from(control.bpm);
    control.carry = room % beats;
    control.last_bpm = control.bpm;
    room / beats
}
