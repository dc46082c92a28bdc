//! The next tick, and the next row.

ghost use Rattle.std.specs.Prelude.{◌≡◌, ◌≤◌, ◌<◌, ◌+◌, None, Some, IfSome, length, get_or, unwrap_or};
ghost use Rattle.ft_types.specs.Views.{Shown};
ghost use Rattle.ft_replay.specs.Range.{AreInRange, IsInRange, IsPlaying};
ghost use Rattle.ft_replay.specs.Standing.{state_of};
ghost use Rattle.ft_replay.specs.State.{blank_channel};
ghost use Rattle.ft_replay.specs.Tick as tick;
ghost use Rattle.ft_tick.specs.Voices.{HaveSameVoices};

use crate::position::set_position;
use ft_replay::{Channel, Control};

/// Whether a jump or a break leads to another order position.
fn leads_on(control: &Control) -> bool
    ensures { result ≡ tick.leads_on control.now }
{
    control.jump.is_some() || control.to_row.is_some()
}

/// The order position to which a jump leads, or else the next one.
fn next_position(control: &Control) -> u16
    requires { control.now.pos ≤ 255 }
    ensures value { result ≡ unwrap_or control.now.jump (control.now.pos + 1) }
    ensures bounded { result ≤ 256 }
{
    match control.jump {
        Some(order) => u16::from(order),
        None => control.pos + 1,
    }
}

/// The row that a break names, or else the first.
fn broken_row(control: &Control) -> u16
    ensures value { result ≡ unwrap_or control.now.to_row 0 }
    ensures bounded { result ≤ 255 }
{
    match control.to_row {
        Some(row) => u16::from(row),
        None => 0,
    }
}

/// Goes where a jump or a break leads, or else to the row below.
fn go_on(channels: &mut [Channel], control: &mut Control)
    requires pos { control.old.pos ≤ 255 }
    requires row { control.old.row ≤ 255 }
    ensures state { (shown : Shown) → state_of control.new channels.new shown
        ≡ tick.row_by None (state_of control.old channels.old shown) }
    ensures rest { control.new ≡ record control.old { pos = control.new.pos; row = control.new.row } }
    ensures pos { control.new.pos ≤ 256 }
    ensures row { control.new.row ≤ 256 }
    ensures range { AreInRange channels.old → AreInRange channels.new }
    ensures many { length channels.new ≡ length channels.old }
    ensures voices { HaveSameVoices channels.old channels.new }
{
    if leads_on(control) {
        let position = next_position(control);
        let row = broken_row(control);
        set_position(channels, control, position, row);
        return;
    }
    control.row += 1;
}

/// Goes back to the first row of a channel's loop.
fn go_back(channels: &[Channel], control: &mut Control, c: u8)
    requires { c < length channels.now }
    ensures state { (shown : Shown) → state_of control.new channels.now shown
        ≡ tick.row_by (Some c) (state_of control.old channels.now shown) }
    ensures rest { control.new ≡ record control.old { row = control.new.row } }
    ensures row { control.new.row ≤ 256 }
{
    control.row = u16::from(channels[c as usize].loop_row);
}

/// Finds the next row.
fn find_row(channels: &mut [Channel], control: &mut Control)
    requires pos { control.old.pos ≤ 255 }
    requires row { control.old.row ≤ 255 }
    requires back { IfSome control.old.back (λ c. c < length channels.old) }
    ensures state { (shown : Shown) → state_of control.new channels.new shown
        ≡ tick.row_by control.old.back (state_of control.old channels.old shown) }
    ensures rest { control.new ≡ record control.old { pos = control.new.pos; row = control.new.row } }
    ensures pos { control.new.pos ≤ 256 }
    ensures row { control.new.row ≤ 256 }
    ensures range { AreInRange channels.old → AreInRange channels.new }
    ensures many { length channels.new ≡ length channels.old }
    ensures voices { HaveSameVoices channels.old channels.new }
{
    match control.back {
        Some(c) => go_back(channels, control, c),
        None => go_on(channels, control),
    }
}

/// A row begins: nothing is pending any more.
fn begin_row(control: &mut Control)
    ensures { control.new ≡ tick.at_first_tick control.old }
{
    control.tick = 0;
    control.delay = 0;
    control.jump = None;
    control.to_row = None;
    control.back = None;
}

/// Goes on to the next row.
#[tactic(auto, unfolding(ft_replay::specs::Tick::next_row))]
fn next_row(channels: &mut [Channel], control: &mut Control)
    requires playing { IsPlaying (length channels.old) control.old }
    requires range { AreInRange channels.old }
    ensures state { (shown : Shown) → state_of control.new channels.new shown
        ≡ tick.next_row (state_of control.old channels.old shown) }
    ensures range { IsInRange control.new channels.new }
    ensures many { length channels.new ≡ length channels.old }
    ensures voices { HaveSameVoices channels.old channels.new }
{
    find_row(channels, control);
    begin_row(control);
}

/// Goes on to the next tick: after the last one of a row to the next row.
#[tactic(auto, unfolding(ft_replay::specs::Tick::next_tick))]
pub fn advance(channels: &mut [Channel], control: &mut Control)
    requires playing { IsPlaying (length channels.old) control.old }
    requires range { AreInRange channels.old }
    ensures state { (shown : Shown) → state_of control.new channels.new shown
        ≡ tick.next_tick (state_of control.old channels.old shown) }
    ensures range { IsInRange control.new channels.new }
    ensures many { length channels.new ≡ length channels.old }
    ensures voices { HaveSameVoices channels.old channels.new }
{
    let ticks = u16::from(control.tempo) * (1 + u16::from(control.delay));
    if control.tick + 1 == ticks {
        next_row(channels, control);
        return;
    }
    control.tick += 1;
}
