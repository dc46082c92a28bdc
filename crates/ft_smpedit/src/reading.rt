//! The bodies of frames that a sample has after an edit.

ghost use Rattle.std.specs.Prelude.{◌≡◌, ◌≤◌, ◌<◌, ◌+◌, ◌*◌, ℕ, length, slice_index_or, pos};
ghost use Rattle.ft_types.specs.declared.sample.Sample.{Sample};
ghost use Rattle.ft_edits.specs.Changes.{sample_changed};
ghost use Rattle.ft_segments.specs.Walk.{Placed};
ghost use Rattle.ft_smpedit.specs.Kept.{IsLastWord, ReadsSample};
ghost use Rattle.ft_smpedit.specs.Sources.{HasNamedFrames};

use crate::kept::{LastWord, kept_frame, nothing_kept};
use crate::source::{FrameSource, frames_after, source_of};
use crate::values::value_of;
use ft_image::{WordView, a_shown_sample_is_of_its_version};
use ft_types::Edit;

/// The frame at a place of a sample after an edit, by the word of the sample before it that is
/// kept. Nothing is said of a place that isn't below the frames that the sample has then.
fn frame_after<V: WordView>(
    view: &mut V,
    sample: u16,
    wide: bool,
    e: &Edit,
    i: u32,
    kept: &mut LastWord,
) -> i16
    ensures narrows { (p : Placed) (s : ℕ) → V.may_show view.new p s → V.may_show view.old p s }
    ensures answer { (p : Placed) (x : Sample) → ReadsSample V.may_show view.new p sample x
        → wide ≡ x.wide → HasNamedFrames (length x.frames) e.now
        → i < length (sample_changed e.now x).frames → IsLastWord p.pool sample x kept.old
        → result ≡ slice_index_or (sample_changed e.now x).frames i (pos 0) }
    ensures kept { (p : Placed) (x : Sample) → ReadsSample V.may_show view.new p sample x
        → wide ≡ x.wide → HasNamedFrames (length x.frames) e.now
        → i < length (sample_changed e.now x).frames → IsLastWord p.pool sample x kept.old
        → IsLastWord p.pool sample x kept.new }
    ensures same { V.same view.old view.new }
{
    a_shown_sample_is_of_its_version();
    match source_of(e, i) {
        FrameSource::Old { place } => kept_frame(view, sample, place, kept),
        FrameSource::Changed { place } => {
            let before = kept_frame(view, sample, place, kept);
            value_of(e, wide, before)
        }
        FrameSource::Given { frame } => frame,
    }
}

/// The frame at a place of a sample after an edit that gives it that many, and 0 past its end.
fn frame_or_zero<V: WordView>(
    view: &mut V,
    sample: u16,
    wide: bool,
    e: &Edit,
    count: u64,
    i: u64,
    kept: &mut LastWord,
) -> i16
    ensures narrows { (p : Placed) (s : ℕ) → V.may_show view.new p s → V.may_show view.old p s }
    ensures answer { (p : Placed) (x : Sample) → ReadsSample V.may_show view.new p sample x
        → wide ≡ x.wide → HasNamedFrames (length x.frames) e.now
        → count ≡ length (sample_changed e.now x).frames → count < 4294967296
        → IsLastWord p.pool sample x kept.old
        → result ≡ slice_index_or (sample_changed e.now x).frames i (pos 0) }
    ensures kept { (p : Placed) (x : Sample) → ReadsSample V.may_show view.new p sample x
        → wide ≡ x.wide → HasNamedFrames (length x.frames) e.now
        → count ≡ length (sample_changed e.now x).frames → IsLastWord p.pool sample x kept.old
        → IsLastWord p.pool sample x kept.new }
    ensures same { V.same view.old view.new }
{
    if i < count && i < 4294967296 {
        return frame_after(view, sample, wide, e, i as u32, kept);
    }
    0
}

/// The frames of a body, by its number at 1,024 frames a body, that the sample of a root has after
/// an edit, by its frames and its width before it; 0 past its end. Words that follow each other are
/// asked for once.
pub fn read_body<V: WordView>(
    view: &mut V,
    sample: u16,
    frames: u32,
    wide: bool,
    e: &Edit,
    n: u32,
    out: &mut [i16; 1024],
)
    ensures narrows { (p : Placed) (s : ℕ) → V.may_show view.new p s → V.may_show view.old p s }
    ensures answer { (p : Placed) (x : Sample) → ReadsSample V.may_show view.new p sample x
        → frames ≡ length x.frames → wide ≡ x.wide → HasNamedFrames frames e.now
        → (j : ℕ) → j < 1024 → slice_index_or out.new j (pos 0)
        ≡ slice_index_or (sample_changed e.now x).frames (n * 1024 + j) (pos 0) }
    ensures same { V.same view.old view.new }
{
    a_shown_sample_is_of_its_version();
    let count = frames_after(e, frames);
    let mut kept = nothing_kept();
    for j in 0..1024u32 {
        let i = u64::from(n) * 1024 + u64::from(j);
        out[j as usize] = frame_or_zero(view, sample, wide, e, count, i, &mut kept);
    }
}
