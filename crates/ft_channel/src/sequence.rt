//! What effects say of the song as a whole.

ghost use Rattle.std.specs.Prelude.{◌≡◌, ◌≤◌, ℕ};
ghost use Rattle.ft_replay.specs.Effects.{IsEffect};
ghost use Rattle.ft_replay.specs.Range.{IsMemoryInRange, IsTimed};
ghost use Rattle.ft_replay.specs.Rules as rules;
ghost use Rattle.ft_replay.specs.Sequence as sequence;
ghost use Rattle.ft_channel.specs.Looping.{Loops};
ghost use Rattle.ft_channel.specs.Staying.{Stays, StaysInPlace, StaysTimed};

use crate::memory::GLOBAL_SLIDE;
use crate::slides::slid;
use ft_replay::{Channel, Control, Effect};

/// What an effect says of the song as a whole at the start of a row.
#[tactic(auto, unfolding(ft_replay::specs::Rules::control_start))]
pub fn control_start(control: &mut Control, c: u8, effect: Effect)
    requires { IsEffect effect }
    ensures value { control.new ≡ rules.control_start effect control.old }
    ensures place { StaysInPlace control.old control.new }
    ensures timed { StaysTimed c control.old control.new }
{
    match effect {
        Effect::Jump { order } => control.jump = Some(order),
        Effect::Break { row } => control.to_row = Some(row),
        Effect::PatternDelay { rows } => control.delay = rows,
        Effect::Tempo { ticks } => control.tempo = ticks,
        Effect::Bpm { bpm } => control.bpm = bpm,
        Effect::GlobalVolume { volume } => control.global = volume.min(64),
        _ => {}
    }
}

/// H: the global volume slides by what the channel remembers.
fn slide_global(control: &mut Control, change: u8)
    ensures value { control.new ≡ sequence.global_slide change control.old }
    ensures place { StaysInPlace control.old control.new }
    ensures timed { (n : ℕ) → IsTimed n control.old → IsTimed n control.new }
{
    control.global = slid(64, change, control.global);
}

/// What an effect says of the song as a whole in a later tick.
#[tactic(auto, unfolding(ft_replay::specs::Rules::control_tick))]
pub fn control_tick(control: &mut Control, channel: &Channel, effect: Effect)
    ensures value { control.new ≡ rules.control_tick effect channel.now control.old }
    ensures place { StaysInPlace control.old control.new }
    ensures timed { (n : ℕ) → IsTimed n control.old → IsTimed n control.new }
{
    match effect {
        Effect::GlobalSlide { .. } => slide_global(control, channel.memory[GLOBAL_SLIDE]),
        _ => {}
    }
}

/// How often a loop of rows is still to be played.
fn loops_left(channel: &Channel, times: u8) -> u8
    requires times { times ≤ 15 }
    requires count { channel.now.loop_count ≤ 15 }
    ensures value { result ≡ sequence.loops_left times channel.now }
    ensures bounded { result ≤ 15 }
{
    if channel.loop_count == 0 {
        return times;
    }
    channel.loop_count - 1
}

/// E6: the first row of a loop where `times` is 0, or else its end.
fn loop_rows(channel: &mut Channel, control: &mut Control, c: u8, times: u8)
    requires times { times ≤ 15 }
    requires row { control.old.row ≤ 255 }
    requires memory { IsMemoryInRange channel.old }
    ensures value { Loops (sequence.pattern_loop c times) channel.old channel.new control.old control.new }
    ensures stays { Stays channel.old channel.new }
    ensures place { StaysInPlace control.old control.new }
    ensures timed { StaysTimed c control.old control.new }
{
    if times == 0 {
        channel.loop_row = control.row as u8;
        return;
    }
    let left = loops_left(channel, times);
    channel.loop_count = left;
    if left != 0 {
        control.back = Some(c);
    }
}

/// The loop of rows of a row's start.
#[tactic(auto, unfolding(ft_replay::specs::Rules::loop_start))]
pub fn loop_start(channel: &mut Channel, control: &mut Control, c: u8, effect: Effect)
    requires effect { IsEffect effect }
    requires row { control.old.row ≤ 255 }
    requires memory { IsMemoryInRange channel.old }
    ensures value { Loops (rules.loop_start c effect) channel.old channel.new control.old control.new }
    ensures stays { Stays channel.old channel.new }
    ensures place { StaysInPlace control.old control.new }
    ensures timed { StaysTimed c control.old control.new }
{
    match effect {
        Effect::PatternLoop { times } => loop_rows(channel, control, c, times),
        _ => {}
    }
}
