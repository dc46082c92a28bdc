//! The places of a sample that are reached, and their values.

ghost use Rattle.std.specs.Prelude.{◌≡◌, ◌≤◌, ◌<◌, ◌+◌, ◌*◌, ℕ, None, IfSome, FitsSigned, length, get_or};
ghost use Rattle.ft_types.specs.Limits.{most_frames};
ghost use Rattle.ft_types.specs.Valid.{width_of, IsValidHead, IsValidLoop};
ghost use Rattle.ft_types.specs.Work as work_of;
ghost use Rattle.ft_replay.specs.Sound as sound;
ghost use Rattle.ft_mix.specs.Mixing as mixing;

use ft_types::{SampleHead, SongView};

/// The steps of a turn of a loop, at least 1, after which it is at its first frame again.
pub fn turn(head: &SampleHead) -> u32
    requires few { head.now.frames ≤ most_frames }
    requires looping { IsValidLoop head.now.loop_kind head.now.loop_start head.now.loop_len
        head.now.frames }
    requires looped { 1 ≤ head.now.loop_kind }
    ensures value { result ≡ sound.loop_turn head.now }
    ensures some { 1 ≤ result }
    ensures bound { result ≤ 2 * head.now.loop_len }
{
    if head.loop_kind == 2 {
        return (2 * head.loop_len - 2).max(1);
    }
    head.loop_len
}

/// The frame of a loop, from its first, that many steps into a turn.
fn reflected(head: &SampleHead, steps: u32) -> u32
    requires few { head.now.frames ≤ most_frames }
    requires looping { IsValidLoop head.now.loop_kind head.now.loop_start head.now.loop_len
        head.now.frames }
    requires looped { 1 ≤ head.now.loop_kind }
    requires steps { steps < sound.loop_turn head.now }
    ensures value { result ≡ sound.reflected head.now steps }
    ensures within { result < head.now.loop_len }
{
    if steps < head.loop_len {
        return steps;
    }
    turn(head) - steps
}

/// Past the last frame of a loop, or of a sample without one.
pub fn end(head: &SampleHead) -> u32
    requires { IsValidHead head.now }
    ensures value { result ≡ sound.end_of head.now }
    ensures within { result ≤ head.now.frames }
{
    if head.loop_kind == 0 {
        return head.frames;
    }
    head.loop_start + head.loop_len
}

/// The place of the frame that a voice reaches at `i`, counted from the sample's first frame; `i`
/// counts on through the turns of a loop. None exactly past the end of a sample without loop, so
/// always where the sample has no frames.
#[tactic(auto, unfolding(ft_replay::specs::Sound::place_of))]
pub fn place(head: &SampleHead, i: u32) -> Option<u32>
    requires few { head.now.frames ≤ most_frames }
    requires looping { IsValidLoop head.now.loop_kind head.now.loop_start head.now.loop_len
        head.now.frames }
    ensures value { result ≡ sound.place_of head.now i }
    ensures within { IfSome result (λ place. place < head.now.frames) }
{
    if head.loop_kind == 0 {
        return if i < head.frames { Some(i) } else { None };
    }
    if i < head.loop_start + head.loop_len {
        return Some(i);
    }
    let steps = (i - head.loop_start) % turn(head);
    Some(head.loop_start + reflected(head, steps))
}

/// The value of a raw frame: one of 8 bits counts 256 times.
fn loudness(raw: i16, wide: bool) -> i16
    requires { FitsSigned (width_of wide) raw }
    ensures { result ≡ sound.loudness wide raw }
{
    let scale = if wide { 1 } else { 256 };
    scale * raw
}

/// The value of the frame that a channel's voice reaches at `i`; past the end of a sample without
/// loop it is 0.
pub fn value_of<V: SongView>(view: &mut V, channel: u8, head: &SampleHead, i: u32) -> i16
    requires head { IsValidHead head.now }
    requires channel { channel < length (V.holds view.old) }
    requires kept { V.keeps view.old channel head.now }
    ensures value { mixing.OnlyAsks V.shows V.shown view.old view.new (λ shown. result
        ≡ sound.value_in head.now (get_or shown.kept channel None) (sound.place_of head.now i)) }
    ensures holds { V.holds view.new ≡ V.holds view.old }
    ensures keeps { (c : ℕ) (h : SampleHead) → V.keeps view.old c h → V.keeps view.new c h }
    ensures work { (V.work view.old ≤ V.work view.new)
        × (V.work view.new ≤ V.work view.old + work_of.frame_bound) }
    ensures same { V.same view.old view.new }
{
    let Some(place) = place(head, i) else {
        return 0;
    };
    loudness(view.frame(channel, place), head.wide)
}
