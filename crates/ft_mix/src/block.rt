//! The frames of a tick, block by block.

ghost use Rattle.std.specs.Prelude.{◌≡◌, ◌≤◌, ◌<◌, ◌+◌, ◌*◌, ◌/◌, ◌%◌, ℕ, pos, All, length, get_or};
ghost use Rattle.std.specs.List.{sum_by};
ghost use Rattle.ft_types.specs.Limits.{room_of_tick};
ghost use Rattle.ft_types.specs.Work as work_of;
ghost use Rattle.ft_replay.specs.Sound as sound;
ghost use Rattle.ft_mix.specs.Mixing as mixing;

use crate::voice::add_voice;
use ft_types::{SampleHead, SongView, Voice};

/// Makes all sums of a side silent.
fn silence(sums: &mut [i32])
    ensures silent { (k : ℕ) → k < length sums.old → get_or sums.new k (pos 0) ≡ pos 0 }
    ensures many { length sums.new ≡ length sums.old }
{
    for sum in sums.iter_mut() {
        *sum = 0;
    }
}

/// Adds all voices to silent sums of both sides, of the frames of their tick from `first` on.
fn add_voices<V: SongView>(
    view: &mut V,
    voices: &[Voice],
    first: u32,
    reached: &mut [i16],
    left: &mut [i32],
    right: &mut [i32],
)
    requires voices { All (mixing.IsMixed (V.keeps view.old) (length (V.holds view.old)))
        voices.now }
    requires number { length voices.now ≤ 32 }
    requires some { 1 ≤ length left.old }
    requires few { length left.old ≤ 512 }
    requires both { length right.old ≡ length left.old }
    requires frames { first + length left.old ≤ 3751 }
    requires room { length reached.old ≡ 1024 }
    requires left { (k : ℕ) → k < length left.old → get_or left.old k (pos 0) ≡ pos 0 }
    requires right { (k : ℕ) → k < length left.old → get_or right.old k (pos 0) ≡ pos 0 }
    ensures sums { mixing.OnlyAsks V.shows V.shown view.old view.new (λ shown. mixing.AreSums first
        shown.kept voices.now (length left.old) left.new right.new) }
    ensures many { length left.new ≡ length left.old }
    ensures both { length right.new ≡ length right.old }
    ensures room { length reached.new ≡ length reached.old }
    ensures holds { V.holds view.new ≡ V.holds view.old }
    ensures keeps { (c : ℕ) (h : SampleHead) → V.keeps view.old c h → V.keeps view.new c h }
    ensures work { (V.work view.old ≤ V.work view.new) × (V.work view.new
        ≤ V.work view.old + length voices.now * (2 * work_of.frame_bound * length left.old)) }
    ensures cost { V.work view.new
        ≤ V.work view.old + sum_by (mixing.block_cost (length left.old)) voices.now }
    ensures same { V.same view.old view.new }
{
    let mut room = [0; 512];
    let values = &mut room[..left.len()];
    for voice in voices {
        add_voice(view, *voice, first, reached, values, left, right);
    }
}

/// A sum brought into -32,768 to 32,767.
fn clip(sum: i32) -> i16
    ensures { result ≡ sound.clipped sum }
{
    sum.clamp(-32768, 32767) as i16
}

/// Writes a frame at a place: left, then right, each clipped once.
fn write_frame(out: &mut [i16], at: usize, left: i32, right: i32)
    requires { at + 1 < length out.old }
    ensures left { get_or out.new at (pos 0) ≡ sound.clipped left }
    ensures right { get_or out.new (at + 1) (pos 0) ≡ sound.clipped right }
    ensures before { (j : ℕ) → j < at → get_or out.new j (pos 0) ≡ get_or out.old j (pos 0) }
    ensures many { length out.new ≡ length out.old }
{
    let left = clip(left);
    let right = clip(right);
    out[at] = left;
    out[at + 1] = right;
}

/// Writes the sums of the frames from `first` on, left and right in turn.
fn write(left: &[i32], right: &[i32], first: usize, out: &mut [i16])
    requires both { length right.now ≡ length left.now }
    requires room { 2 * (first + length left.now) ≤ length out.old }
    ensures frames { (k : ℕ) → k < length left.now → mixing.IsFrame
        (get_or left.now k (pos 0)) (get_or right.now k (pos 0)) (first + k) out.new }
    ensures before { (j : ℕ) → j < 2 * first → get_or out.new j (pos 0) ≡ get_or out.old j (pos 0) }
    ensures many { length out.new ≡ length out.old }
{
    for k in 0..left.len() {
        write_frame(out, 2 * (first + k), left[k], right[k]);
    }
}

/// Writes the frames of a tick from `first` on, as many as there are sums of each side. What the
/// lent values and sums hold afterwards isn't said.
fn fill_block<V: SongView>(
    view: &mut V,
    voices: &[Voice],
    first: u32,
    reached: &mut [i16],
    left: &mut [i32],
    right: &mut [i32],
    out: &mut [i16],
)
    requires voices { All (mixing.IsMixed (V.keeps view.old) (length (V.holds view.old)))
        voices.now }
    requires number { length voices.now ≤ 32 }
    requires some { 1 ≤ length left.old }
    requires few { length left.old ≤ 512 }
    requires both { length right.old ≡ length left.old }
    requires frames { first + length left.old ≤ 3751 }
    requires reached { length reached.old ≡ 1024 }
    requires room { 2 * (first + length left.old) ≤ length out.old }
    ensures frames { mixing.OnlyAsks V.shows V.shown view.old view.new (λ shown.
        (k : ℕ) → k < length left.old → mixing.IsFrame
        (sound.voices_sum (sound.left_of (first + k)) shown.kept voices.now)
        (sound.voices_sum (sound.right_of (first + k)) shown.kept voices.now) (first + k) out.new) }
    ensures before { (j : ℕ) → j < 2 * first → get_or out.new j (pos 0) ≡ get_or out.old j (pos 0) }
    ensures many { length out.new ≡ length out.old }
    ensures reached { length reached.new ≡ length reached.old }
    ensures holds { V.holds view.new ≡ V.holds view.old }
    ensures keeps { (c : ℕ) (h : SampleHead) → V.keeps view.old c h → V.keeps view.new c h }
    ensures work { (V.work view.old ≤ V.work view.new) × (V.work view.new
        ≤ V.work view.old + length voices.now * (2 * work_of.frame_bound * length left.old)) }
    ensures cost { V.work view.new
        ≤ V.work view.old + sum_by (mixing.block_cost (length left.old)) voices.now }
    ensures same { V.same view.old view.new }
{
    silence(left);
    silence(right);
    add_voices(view, voices, first, reached, left, right);
    write(left, right, first as usize, out);
}

/// The frames of the block that begins at `first`, of a tick of that many.
fn block_len(first: usize, frames: usize) -> usize
    requires { first < frames }
    ensures some { 1 ≤ result }
    ensures few { result ≤ 512 }
    ensures within { first + result ≤ frames }
    ensures whole { result < 512 → first + result ≡ frames }
{
    (frames - first).min(512)
}

/// Writes the sound of voices over the whole of `out`, left and right in turn.
pub fn fill<V: SongView>(view: &mut V, voices: &[Voice], out: &mut [i16])
    requires voices { All (mixing.IsMixed (V.keeps view.old) (length (V.holds view.old)))
        voices.now }
    requires few { length voices.now ≤ 32 }
    requires even { length out.old % 2 ≡ 0 }
    requires room { length out.old ≤ room_of_tick }
    ensures sound { mixing.OnlyAsks V.shows V.shown view.old view.new (λ shown. out.new
        ≡ sound.sound_of_voices shown.kept voices.now (length out.old / 2)) }
    ensures many { length out.new ≡ length out.old }
    ensures holds { V.holds view.new ≡ V.holds view.old }
    ensures keeps { (c : ℕ) (h : SampleHead) → V.keeps view.old c h → V.keeps view.new c h }
    ensures work { (V.work view.old ≤ V.work view.new) × (V.work view.new
        ≤ V.work view.old + length voices.now * (2 * work_of.frame_bound * (length out.old / 2))) }
    ensures cost { V.work view.new ≤ V.work view.old
        + sum_by (mixing.tick_cost (length out.old / 2)) voices.now }
    ensures same { V.same view.old view.new }
{
    let frames = out.len() / 2;
    let mut reached = [0; 1024];
    let mut left = [0; 512];
    let mut right = [0; 512];
    for block in 0..frames.div_ceil(512) {
        let first = 512 * block;
        let many = block_len(first, frames);
        fill_block(
            view,
            voices,
            first as u32,
            &mut reached,
            &mut left[..many],
            &mut right[..many],
            out,
        );
    }
}
