//! The state of a tick, up to its sound, while its voices sit in their channels.

ghost use Rattle.std.specs.Prelude.{◌≡◌, ◌≤◌, ◌<◌, ◌+◌, ◌*◌, ℕ, List, length};
ghost use Rattle.ft_types.specs.Limits.{lowest_rate, highest_rate, longest_tick};
ghost use Rattle.ft_types.specs.Views.{Shown};
ghost use Rattle.ft_replay.specs.declared.state.Channel.{Channel as AChannel};
ghost use Rattle.ft_replay.specs.Calls as calls;
ghost use Rattle.ft_replay.specs.Range.{IsControlInRange, IsInRange, IsPlaying};
ghost use Rattle.ft_replay.specs.Standing.{state_of};
ghost use Rattle.ft_replay.specs.Tick as tick;
ghost use Rattle.ft_tick.specs.Bounds.{tick_bound};

use crate::hear::hear;
use crate::next::advance;
use crate::place::find_place;
use crate::rows::do_rows;
use crate::time::tick_frames;
use ft_replay::{Channel, Control, Place};
use ft_types::SongView;

/// Makes the state of a tick, with its voices at their first frame, and says where the tick is and
/// how many frames it has.
#[tactic(auto, unfolding(ft_replay::specs::Tick::tick_state_of))]
pub fn make_tick<V: SongView>(
    view: &mut V,
    channels: &mut [Channel],
    control: &mut Control,
    rate: u32,
) -> Place
    requires few { length channels.old ≤ 32 }
    requires wide { length channels.old ≤ length (V.holds view.old) }
    requires low { lowest_rate ≤ rate }
    requires high { rate ≤ highest_rate }
    requires range { IsInRange control.old channels.old }
    ensures made { calls.Makes V.shows V.shown
        (λ version song state. (tick.tick_state_of version song rate state).state) view.old view.new
        (state_of control.old channels.old) (state_of control.new channels.new) }
    ensures place { (w : V.World) → V.shows view.new w → result
        ≡ (tick.tick_state_of (V.shown view.old w).version (V.shown view.old w).song rate
        (state_of control.old channels.old (V.shown view.old w))).place }
    ensures keeps { calls.KeepsForAll (V.keeps view.old) (V.keeps view.new)
        (V.holds view.old) (V.holds view.new) channels.old channels.new }
    ensures range { IsInRange control.new channels.new }
    ensures some_frames { 1 ≤ result.frames }
    ensures few_frames { result.frames ≤ longest_tick }
    ensures work { (V.work view.old ≤ V.work view.new)
        × (V.work view.new ≤ V.work view.old + tick_bound (length channels.old)) }
    ensures same { V.same view.old view.new }
{
    let head = view.head();
    find_place(view, channels, control, head);
    let order = control.pos;
    let row = control.row;
    let tick = control.tick;
    do_rows(view, channels, control, head);
    let frames = tick_frames(control, rate);
    hear(view, channels, control, head.linear, rate);
    advance(channels, control);
    Place {
        order,
        row,
        tick,
        frames,
    }
}
