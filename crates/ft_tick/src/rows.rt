//! The rules of a row, channel by channel.

ghost use Rattle.std.specs.Prelude.{◌≡◌, ◌≢◌, ◌≤◌, ◌<◌, ◌+◌, ◌*◌, ◌%◌, ℕ, length, map};
ghost use Rattle.ft_types.specs.Views.{song_head_of};
ghost use Rattle.ft_replay.specs.Calls as calls;
ghost use Rattle.ft_replay.specs.Range.{AreInRange, IsPlaying};
ghost use Rattle.ft_replay.specs.Standing.{state_of};
ghost use Rattle.ft_replay.specs.Tick as tick;
ghost use Rattle.ft_tick.specs.Bounds.{turn_bound};

use ft_channel::{row_start, row_tick};
use ft_replay::{Channel, Control};
use ft_types::{SongHead, SongView};

/// Offsets and mutes hold for one tick.
fn clear(channel: &mut Channel)
    ensures { channel.new ≡ tick.without_offsets channel.old }
{
    channel.vib_off = 0;
    channel.trem_off = 0;
    channel.arp = 0;
    channel.gliding = false;
    channel.muted = false;
}

/// Clears the offsets and mutes of all channels.
#[tactic(auto, using(std::proofs::lemmas::List::Edits::map_over_more))]
fn clear_all(channels: &mut [Channel])
    ensures { channels.new ≡ map tick.without_offsets channels.old }
{
    for channel in channels.iter_mut() {
        clear(channel);
    }
}

/// A channel takes its cell and starts the row.
fn start_one<V: SongView>(
    view: &mut V,
    channels: &mut [Channel],
    control: &mut Control,
    head: SongHead,
    c: u8,
)
    requires channel { c < length channels.old }
    requires wide { length channels.old ≤ length (V.holds view.old) }
    requires head { (w : V.World) → V.shows view.old w
        → head ≡ song_head_of (V.shown view.old w).song }
    requires within { control.old.pos < head.length }
    requires range { AreInRange channels.old }
    requires playing { IsPlaying (length channels.old) control.old }
    requires first { control.old.tick ≡ 0 }
    ensures made { calls.Makes V.shows V.shown
        (λ version song state. tick.one_turn (tick.first_turn version song) c state)
        view.old view.new (state_of control.old channels.old) (state_of control.new channels.new) }
    ensures keeps { calls.KeepsForAll (V.keeps view.old) (V.keeps view.new)
        (V.holds view.old) (V.holds view.new) channels.old channels.new }
    ensures range { AreInRange channels.new }
    ensures playing { IsPlaying (length channels.new) control.new }
    ensures place { (control.new.pos ≡ control.old.pos) × (control.new.tick ≡ control.old.tick) }
    ensures work { (V.work view.old ≤ V.work view.new)
        × (V.work view.new ≤ V.work view.old + turn_bound) }
    ensures same { V.same view.old view.new }
{
    let pattern = view.order(control.pos);
    let cell = view.cell(pattern, control.row, c);
    let channel = &mut channels[c as usize];
    channel.cell = cell;
    row_start(view, channel, control, c, cell);
}

/// The channels start the row in turn.
fn start_all<V: SongView>(
    view: &mut V,
    channels: &mut [Channel],
    control: &mut Control,
    head: SongHead,
)
    requires few { length channels.old ≤ 32 }
    requires wide { length channels.old ≤ length (V.holds view.old) }
    requires head { (w : V.World) → V.shows view.old w
        → head ≡ song_head_of (V.shown view.old w).song }
    requires within { control.old.pos < head.length }
    requires range { AreInRange channels.old }
    requires playing { IsPlaying (length channels.old) control.old }
    requires first { control.old.tick ≡ 0 }
    ensures made { calls.Makes V.shows V.shown
        (λ version song. tick.in_turn (tick.first_turn version song) (length channels.old))
        view.old view.new (state_of control.old channels.old) (state_of control.new channels.new) }
    ensures keeps { calls.KeepsForAll (V.keeps view.old) (V.keeps view.new)
        (V.holds view.old) (V.holds view.new) channels.old channels.new }
    ensures range { AreInRange channels.new }
    ensures playing { IsPlaying (length channels.new) control.new }
    ensures work { (V.work view.old ≤ V.work view.new)
        × (V.work view.new ≤ V.work view.old + length channels.old * turn_bound) }
    ensures same { V.same view.old view.new }
{
    for c in 0..channels.len() {
        start_one(view, channels, control, head, c as u8);
    }
}

/// A channel does the rules of a later tick of the row.
fn go_on_one<V: SongView>(view: &mut V, channels: &mut [Channel], control: &mut Control, c: u8)
    requires channel { c < length channels.old }
    requires wide { length channels.old ≤ length (V.holds view.old) }
    requires range { AreInRange channels.old }
    requires playing { IsPlaying (length channels.old) control.old }
    ensures made { calls.Makes V.shows V.shown
        (λ version song state. tick.one_turn (tick.later_turn version song) c state)
        view.old view.new (state_of control.old channels.old) (state_of control.new channels.new) }
    ensures keeps { calls.KeepsForAll (V.keeps view.old) (V.keeps view.new)
        (V.holds view.old) (V.holds view.new) channels.old channels.new }
    ensures range { AreInRange channels.new }
    ensures playing { IsPlaying (length channels.new) control.new }
    ensures work { (V.work view.old ≤ V.work view.new)
        × (V.work view.new ≤ V.work view.old + turn_bound) }
    ensures same { V.same view.old view.new }
{
    let u = control.tick % u16::from(control.tempo);
    row_tick(view, &mut channels[c as usize], control, c, u);
}

/// The channels do the rules of a later tick of the row, in turn.
fn go_on_all<V: SongView>(view: &mut V, channels: &mut [Channel], control: &mut Control)
    requires few { length channels.old ≤ 32 }
    requires wide { length channels.old ≤ length (V.holds view.old) }
    requires range { AreInRange channels.old }
    requires playing { IsPlaying (length channels.old) control.old }
    ensures made { calls.Makes V.shows V.shown
        (λ version song. tick.in_turn (tick.later_turn version song) (length channels.old))
        view.old view.new (state_of control.old channels.old) (state_of control.new channels.new) }
    ensures keeps { calls.KeepsForAll (V.keeps view.old) (V.keeps view.new)
        (V.holds view.old) (V.holds view.new) channels.old channels.new }
    ensures range { AreInRange channels.new }
    ensures playing { IsPlaying (length channels.new) control.new }
    ensures work { (V.work view.old ≤ V.work view.new)
        × (V.work view.new ≤ V.work view.old + length channels.old * turn_bound) }
    ensures same { V.same view.old view.new }
{
    for c in 0..channels.len() {
        go_on_one(view, channels, control, c as u8);
    }
}

/// The rules of a tick's row. Where a row is repeated, its tick 0 has none.
#[tactic(auto, unfolding(ft_replay::specs::Tick::after_rows))]
pub fn do_rows<V: SongView>(
    view: &mut V,
    channels: &mut [Channel],
    control: &mut Control,
    head: SongHead,
)
    requires few { length channels.old ≤ 32 }
    requires wide { length channels.old ≤ length (V.holds view.old) }
    requires head { (w : V.World) → V.shows view.old w
        → head ≡ song_head_of (V.shown view.old w).song }
    requires within { control.old.tick ≡ 0 → control.old.pos < head.length }
    requires range { AreInRange channels.old }
    requires playing { IsPlaying (length channels.old) control.old }
    ensures made { calls.Makes V.shows V.shown tick.after_rows view.old view.new
        (state_of control.old channels.old) (state_of control.new channels.new) }
    ensures keeps { calls.KeepsForAll (V.keeps view.old) (V.keeps view.new)
        (V.holds view.old) (V.holds view.new) channels.old channels.new }
    ensures range { AreInRange channels.new }
    ensures playing { IsPlaying (length channels.new) control.new }
    ensures work { (V.work view.old ≤ V.work view.new)
        × (V.work view.new ≤ V.work view.old + length channels.old * turn_bound) }
    ensures same { V.same view.old view.new }
{
    clear_all(channels);
    if control.tick == 0 {
        start_all(view, channels, control, head);
        return;
    }
    if control.tick % u16::from(control.tempo) == 0 {
        return;
    }
    go_on_all(view, channels, control);
}
