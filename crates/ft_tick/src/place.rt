//! Where a tick is.

ghost use Rattle.std.specs.Prelude.{◌≡◌, ◌≤◌, ◌<◌, ◌+◌, ◌*◌, ℕ, Some, map, length};
ghost use Rattle.ft_types.specs.declared.module.Module.{Module};
ghost use Rattle.ft_types.specs.declared.voice.SampleHead.{SampleHead};
ghost use Rattle.ft_types.specs.Work as work_of;
ghost use Rattle.ft_types.specs.Valid.{IsValidSongHead};
ghost use Rattle.ft_types.specs.Views.{Shown, song_head_of};
ghost use Rattle.ft_replay.specs.Calls as calls;
ghost use Rattle.ft_replay.specs.Range.{AreInRange, IsControlInRange, IsInRange, IsPlaying, IsTimed};
ghost use Rattle.ft_replay.specs.Standing.{state_of};
ghost use Rattle.ft_replay.specs.Tick as tick;
ghost use Rattle.ft_tick.specs.Voices.{HaveSameVoices};

use crate::position::set_position;
use ft_replay::{Channel, Control};
use ft_types::{SongHead, SongView};

/// The first tick of all takes tempo and BPM from the song.
fn open_song(control: &mut Control, head: SongHead)
    requires { IsValidSongHead head }
    ensures control { (song : Module) → head ≡ song_head_of song
        → control.new ≡ tick.with_song_tempo song control.old }
    ensures timed { (n : ℕ) → IsControlInRange n control.old → control.old.tick ≡ 0
        → IsTimed n control.new }
    ensures place { (control.new.pos ≡ control.old.pos) × (control.new.row ≡ control.old.row) }
{
    if control.tempo == 0 {
        control.tempo = head.tempo;
        control.bpm = head.bpm;
    }
}

/// An order position past the song is the restart, at its first row.
fn bring_within_orders(channels: &mut [Channel], control: &mut Control, head: SongHead)
    requires { IsValidSongHead head }
    ensures state { (shown : Shown) → head ≡ song_head_of shown.song
        → state_of control.new channels.new shown
        ≡ tick.within_orders shown.song (state_of control.old channels.old shown) }
    ensures within { control.new.pos < head.length }
    ensures row { control.old.row ≤ 256 → control.new.row ≤ 256 }
    ensures playing { (n : ℕ) → IsTimed n control.old → IsTimed n control.new }
    ensures range { AreInRange channels.old → AreInRange channels.new }
    ensures many { length channels.new ≡ length channels.old }
    ensures voices { HaveSameVoices channels.old channels.new }
{
    if control.pos >= head.length {
        set_position(channels, control, head.restart, 0);
    }
}

/// The order position after one; past the song it is the restart.
fn next_order(position: u16, head: SongHead) -> u16
    requires head { IsValidSongHead head }
    requires position { position < head.length }
    ensures value { (song : Module) → head ≡ song_head_of song
        → result ≡ tick.next_order song position }
    ensures within { result < head.length }
{
    if position + 1 < head.length {
        return position + 1;
    }
    head.restart
}

/// A row past the pattern is the first of the next order position.
fn bring_within_rows<V: SongView>(
    view: &mut V,
    channels: &mut [Channel],
    control: &mut Control,
    head: SongHead,
)
    requires valid { IsValidSongHead head }
    requires head { (w : V.World) → V.shows view.old w
        → head ≡ song_head_of (V.shown view.old w).song }
    requires within { control.old.pos < head.length }
    ensures shows { calls.ShowsOn V.shows V.shown view.old view.new }
    ensures state { (w : V.World) → V.shows view.new w
        → state_of control.new channels.new (V.shown view.old w)
        ≡ tick.within_rows (V.shown view.old w).song
        (state_of control.old channels.old (V.shown view.old w)) }
    ensures within_orders { control.new.pos < head.length }
    ensures row { control.new.row ≤ 255 }
    ensures playing { (n : ℕ) → IsTimed n control.old → IsTimed n control.new }
    ensures range { AreInRange channels.old → AreInRange channels.new }
    ensures many { length channels.new ≡ length channels.old }
    ensures voices { HaveSameVoices channels.old channels.new }
    ensures holds { V.holds view.new ≡ V.holds view.old }
    ensures keeps { (c : ℕ) (h : SampleHead) → V.keeps view.old c h → V.keeps view.new c h }
    ensures work { (V.work view.old ≤ V.work view.new)
        × (V.work view.new ≤ V.work view.old + (work_of.order_bound + work_of.rows_bound)) }
    ensures same { V.same view.old view.new }
{
    let pattern = view.order(control.pos);
    let rows = view.rows(pattern);
    if control.row >= rows {
        let next = next_order(control.pos, head);
        set_position(channels, control, next, 0);
    }
}

/// Brings the state to the place of its tick: at the start of a row, into the song.
#[tactic(auto, unfolding(ft_replay::specs::Tick::at_place))]
pub fn find_place<V: SongView>(
    view: &mut V,
    channels: &mut [Channel],
    control: &mut Control,
    head: SongHead,
)
    requires valid { IsValidSongHead head }
    requires head { (w : V.World) → V.shows view.old w
        → head ≡ song_head_of (V.shown view.old w).song }
    requires range { IsInRange control.old channels.old }
    ensures shows { calls.ShowsOn V.shows V.shown view.old view.new }
    ensures state { (w : V.World) → V.shows view.new w
        → state_of control.new channels.new (V.shown view.old w)
        ≡ tick.at_place (V.shown view.old w).song
        (state_of control.old channels.old (V.shown view.old w)) }
    ensures within { control.new.tick ≡ 0 → control.new.pos < head.length }
    ensures playing { IsPlaying (length channels.new) control.new }
    ensures range { AreInRange channels.new }
    ensures many { length channels.new ≡ length channels.old }
    ensures voices { HaveSameVoices channels.old channels.new }
    ensures holds { V.holds view.new ≡ V.holds view.old }
    ensures keeps { (c : ℕ) (h : SampleHead) → V.keeps view.old c h → V.keeps view.new c h }
    ensures work { (V.work view.old ≤ V.work view.new)
        × (V.work view.new ≤ V.work view.old + (work_of.order_bound + work_of.rows_bound)) }
    ensures same { V.same view.old view.new }
{
    if control.tick != 0 {
        return;
    }
    open_song(control, head);
    bring_within_orders(channels, control, head);
    bring_within_rows(view, channels, control, head);
}
