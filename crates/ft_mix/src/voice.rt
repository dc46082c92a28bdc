//! The frames of a voice.

ghost use Rattle.std.specs.Prelude.{◌≡◌, ◌≤◌, ◌<◌, ◌+◌, ◌*◌, ◌/◌, ◌+ℤ◌, ℕ, pos, None, length, get_or};
ghost use Rattle.ft_types.specs.Work as work_of;
ghost use Rattle.ft_replay.specs.Sound as sound;
ghost use Rattle.ft_mix.specs.Mixing as mixing;

use crate::gain::add_values;
use crate::values::read_values;
use ft_types::{SampleHead, SongView, Voice};

/// Adds what a voice adds to both sides of the frames of its tick from `first` on. A voice without
/// gain adds nothing, and nothing is read for it. What the lent values hold afterwards isn't
/// said.
pub fn add_voice<V: SongView>(
    view: &mut V,
    voice: Voice,
    first: u32,
    reached: &mut [i16],
    values: &mut [i32],
    left: &mut [i32],
    right: &mut [i32],
)
    requires voice { mixing.IsMixed (V.keeps view.old) (length (V.holds view.old)) voice }
    requires some { 1 ≤ length left.old }
    requires few { length left.old ≤ 512 }
    requires both { length right.old ≡ length left.old }
    requires values { length values.old ≡ length left.old }
    requires frames { first + length left.old ≤ 3751 }
    requires room { length reached.old ≡ 1024 }
    requires left { mixing.AreLoud 31 (length left.old) left.old }
    requires right { mixing.AreLoud 31 (length left.old) right.old }
    ensures sums { mixing.OnlyAsks V.shows V.shown view.old view.new (λ shown.
        (k : ℕ) → k < length left.old
        → (get_or left.new k (pos 0) ≡ (get_or left.old k (pos 0)
        +ℤ sound.left_of (first + k) (get_or shown.kept voice.channel None) voice))
        × (get_or right.new k (pos 0) ≡ (get_or right.old k (pos 0)
        +ℤ sound.right_of (first + k) (get_or shown.kept voice.channel None) voice))) }
    ensures left { (n : ℕ) → mixing.AreLoud n (length left.old) left.old
        → mixing.AreLoud (n + 1) (length left.old) left.new }
    ensures right { (n : ℕ) → mixing.AreLoud n (length left.old) right.old
        → mixing.AreLoud (n + 1) (length left.old) right.new }
    ensures many { length left.new ≡ length left.old }
    ensures both { length right.new ≡ length right.old }
    ensures values { length values.new ≡ length values.old }
    ensures room { length reached.new ≡ length reached.old }
    ensures holds { V.holds view.new ≡ V.holds view.old }
    ensures keeps { (c : ℕ) (h : SampleHead) → V.keeps view.old c h → V.keeps view.new c h }
    ensures work { (V.work view.old ≤ V.work view.new) × (V.work view.new
        ≤ V.work view.old + 2 * work_of.frame_bound * length left.old) }
    ensures cost { V.work view.new ≤ V.work view.old + mixing.block_cost (length left.old) voice }
    ensures same { V.same view.old view.new }
{
    if voice.left == 0 && voice.right == 0 {
        return;
    }
    read_values(view, voice, first, reached, values);
    add_values(values, voice.left, voice.right, left, right);
}
