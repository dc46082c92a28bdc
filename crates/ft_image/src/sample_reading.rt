//! What a sample's segments say.

ghost use Rattle.std.specs.Prelude.{◌≡◌, ◌≤◌, ◌<◌, ◌+◌, ◌*◌, ◌/◌, ℕ, length, slice_index_or, pos};
ghost use Rattle.ft_types.specs.declared.module.Module.{Module};
ghost use Rattle.ft_types.specs.declared.sample.Sample.{Sample};
ghost use Rattle.ft_types.specs.Valid.{IsValidSample};
ghost use Rattle.ft_types.specs.Views.{head_of};
ghost use Rattle.ft_types.specs.Work as work_of;
ghost use Rattle.ft_segments.specs.Walk.{Placed};
ghost use Rattle.ft_image.specs.Values.{frames_word, lengths_word, loop_word, tuning_word};
ghost use Rattle.ft_image.specs.Shown.{Shows};
ghost use Rattle.ft_image.specs.Read.{MayShowSample, IsRootOf, body_at};

use crate::digits::{byte, quarter};
use crate::ids::id;
use crate::view::WordView;
use ft_types::SampleHead;

/// The head in the first words of a sample.
fn sample_head_from(lengths: u64, loops: u64, tuning: u64) -> SampleHead
    ensures { (x : Sample) → IsValidSample x → lengths ≡ lengths_word x → loops ≡ loop_word x
        → tuning ≡ tuning_word x → result ≡ head_of x }
{
    SampleHead {
        frames: (lengths % 4294967296) as u32,
        wide: loops / 1099511627776 % 256 == 1,
        loop_kind: (loops / 4294967296 % 256) as u8,
        loop_start: (lengths / 4294967296 % 4294967296) as u32,
        loop_len: (loops % 4294967296) as u32,
        volume: (loops / 281474976710656 % 256) as u8,
        panning: (loops / 72057594037927936 % 256) as u8,
        finetune: byte(tuning, 0).cast_signed(),
        relative: byte(tuning, 1).cast_signed(),
    }
}

/// The head of the sample of a root.
pub fn sample_head<V: WordView>(view: &mut V, sample: u16) -> SampleHead
    ensures narrows { (p : Placed) (s : ℕ) → V.may_show view.new p s → V.may_show view.old p s }
    ensures answer { (p : Placed) (m : Module) (x : Sample)
        → MayShowSample V.may_show view.new p sample → Shows p m → IsRootOf p m sample x
        → result ≡ head_of x }
    ensures work { (V.work view.old ≤ V.work view.new) × (V.work view.new ≤ V.work view.old + 3) }
    ensures same { V.same view.old view.new }
{
    let lengths = view.word(sample, 0);
    let loops = view.word(sample, 1);
    let tuning = view.word(sample, 2);
    sample_head_from(lengths, loops, tuning)
}

/// The segment of the body of the sample of a root in which the frame at a place is. Nothing is
/// said of a place that isn't below the frames.
pub fn body_of_frame<V: WordView>(view: &mut V, sample: u16, place: u32) -> u16
    ensures narrows { (p : Placed) (s : ℕ) → V.may_show view.new p s → V.may_show view.old p s }
    ensures answer { (p : Placed) (m : Module) (x : Sample)
        → MayShowSample V.may_show view.new p sample → Shows p m → IsRootOf p m sample x
        → place < length x.frames → result ≡ body_at p.pool sample (place / 1024) }
    ensures work { (V.work view.old ≤ V.work view.new) × (V.work view.new ≤ V.work view.old + 2) }
    ensures same { V.same view.old view.new }
{
    let body = place / 1024;
    if body >= 4096 {
        return 0;
    }
    let index = id(view, sample, 16, (body / 1024) as u16);
    id(view, index, 0, (body % 1024) as u16)
}

/// A word of frames by its number in its sample, four frames each, from the segment of its body.
pub fn frame_word<V: WordView>(view: &mut V, body: u16, word: u32) -> u64
    ensures narrows { (p : Placed) (s : ℕ) → V.may_show view.new p s → V.may_show view.old p s }
    ensures answer { (p : Placed) (m : Module) (sample : ℕ) (x : Sample)
        → MayShowSample V.may_show view.new p sample → Shows p m → IsRootOf p m sample x
        → 4 * word < length x.frames → body ≡ body_at p.pool sample (word / 256)
        → result ≡ frames_word x.frames word }
    ensures work { (V.work view.old ≤ V.work view.new) × (V.work view.new ≤ V.work view.old + 1) }
    ensures same { V.same view.old view.new }
{
    view.word(body, (word % 256) as u8)
}

/// The raw frame at a place of a sample, in its word.
pub fn frame_in(word: u64, place: u32) -> i16
    ensures { (x : Sample) → IsValidSample x → word ≡ frames_word x.frames (place / 4)
        → result ≡ slice_index_or x.frames place (pos 0) }
{
    quarter(word, (place % 4) as u8).cast_signed()
}

/// The raw frame at a place of the sample of a root. Nothing is said of a place that isn't below
/// the frames.
pub fn frame<V: WordView>(view: &mut V, sample: u16, place: u32) -> i16
    ensures narrows { (p : Placed) (s : ℕ) → V.may_show view.new p s → V.may_show view.old p s }
    ensures answer { (p : Placed) (m : Module) (x : Sample)
        → MayShowSample V.may_show view.new p sample → Shows p m → IsRootOf p m sample x
        → place < length x.frames → result ≡ slice_index_or x.frames place (pos 0) }
    ensures work { (V.work view.old ≤ V.work view.new)
        × (V.work view.new ≤ V.work view.old + work_of.frame_bound) }
    ensures same { V.same view.old view.new }
{
    let body = body_of_frame(view, sample, place);
    let word = frame_word(view, body, place / 4);
    frame_in(word, place)
}
