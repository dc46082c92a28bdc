//! The order position: each setting of it ends the loops of rows.

ghost use Rattle.std.specs.Prelude.{◌≡◌, map, length};
ghost use Rattle.ft_types.specs.Views.{Shown};
ghost use Rattle.ft_replay.specs.Range.{AreInRange};
ghost use Rattle.ft_replay.specs.Standing.{state_of};
ghost use Rattle.ft_replay.specs.Tick as tick;
ghost use Rattle.ft_tick.specs.Voices.{HaveSameVoices};

use ft_replay::{Channel, Control};

/// The loop of rows of a channel ends.
fn end_loop(channel: &mut Channel)
    ensures { channel.new ≡ tick.without_loop channel.old }
{
    channel.loop_row = 0;
    channel.loop_count = 0;
}

/// The loops of rows end on all channels.
#[tactic(auto, using(std::proofs::lemmas::List::Edits::map_over_more))]
fn end_loops(channels: &mut [Channel])
    ensures { channels.new ≡ map tick.without_loop channels.old }
{
    for channel in channels.iter_mut() {
        end_loop(channel);
    }
}

/// Sets the order position, at a row.
pub fn set_position(channels: &mut [Channel], control: &mut Control, position: u16, row: u16)
    ensures state { (shown : Shown) → state_of control.new channels.new shown
        ≡ tick.at_position position row (state_of control.old channels.old shown) }
    ensures channels { channels.new ≡ map tick.without_loop channels.old }
    ensures range { AreInRange channels.old → AreInRange channels.new }
    ensures many { length channels.new ≡ length channels.old }
    ensures voices { HaveSameVoices channels.old channels.new }
    ensures control { control.new ≡ record control.old { pos = position; row = row } }
{
    control.pos = position;
    control.row = row;
    end_loops(channels);
}
