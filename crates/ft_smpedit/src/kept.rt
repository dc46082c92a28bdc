//! Frames of a sample, of which the last word read is kept.

ghost use Rattle.std.specs.Prelude.{◌≡◌, ◌≤◌, ◌<◌, ◌*◌, ◌/◌, ℕ, List, length, slice_index_or, pos};
ghost use Rattle.ft_types.specs.declared.sample.Sample.{Sample};
ghost use Rattle.ft_types.specs.Valid.{IsValidSample};
ghost use Rattle.ft_segments.specs.Walk.{Placed};
ghost use Rattle.ft_smpedit.specs.Kept.{IsLastWord, ReadsSample};

use ft_image::{WordView, a_shown_sample_is_of_its_version, body_of_frame, frame_in, frame_word};

/// The last word of frames that was read of a sample, and the segment of the last body.
#[derive(Clone, Copy)]
pub struct LastWord {
    /// The number of the word in the sample, at four frames a word.
    pub number: u32,
    /// The word.
    pub word: u64,
    /// The number of the body, at 1,024 frames a body.
    pub body: u32,
    /// Its segment.
    pub segment: u16,
}

/// Nothing is kept: no sample has words of these numbers.
pub(crate) fn nothing_kept() -> LastWord
    ensures { (pool : List ℕ) (root : ℕ) (x : Sample) → IsValidSample x → IsLastWord pool root x result }
{
    LastWord {
        number: 4294967295,
        word: 0,
        body: 4294967295,
        segment: 0,
    }
}

/// Keeps the segment of the body in which a frame is.
fn keep_body<V: WordView>(view: &mut V, sample: u16, place: u32, kept: LastWord) -> LastWord
    ensures narrows { (p : Placed) (s : ℕ) → V.may_show view.new p s → V.may_show view.old p s }
    ensures body { result.body ≡ place / 1024 }
    ensures kept { (p : Placed) (x : Sample) → ReadsSample V.may_show view.new p sample x
        → place < length x.frames → IsLastWord p.pool sample x kept → IsLastWord p.pool sample x result }
    ensures same { V.same view.old view.new }
{
    let body = place / 1024;
    if kept.body == body {
        return kept;
    }
    let segment = body_of_frame(view, sample, place);
    LastWord {
        body,
        segment,
        ..kept
    }
}

/// Keeps the word in which a frame is.
fn keep_word<V: WordView>(view: &mut V, sample: u16, place: u32, kept: LastWord) -> LastWord
    ensures narrows { (p : Placed) (s : ℕ) → V.may_show view.new p s → V.may_show view.old p s }
    ensures number { result.number ≡ place / 4 }
    ensures kept { (p : Placed) (x : Sample) → ReadsSample V.may_show view.new p sample x
        → place < length x.frames → IsLastWord p.pool sample x kept → IsLastWord p.pool sample x result }
    ensures same { V.same view.old view.new }
{
    let number = place / 4;
    if kept.number == number {
        return kept;
    }
    let found = keep_body(view, sample, place, kept);
    let word = frame_word(view, found.segment, number);
    LastWord {
        number,
        word,
        ..found
    }
}

/// The frame at a place of the sample of a root, by the word that is kept, which is read where
/// another one is. Nothing is said of a place that isn't below the frames.
pub(crate) fn kept_frame<V: WordView>(
    view: &mut V,
    sample: u16,
    place: u32,
    kept: &mut LastWord,
) -> i16
    ensures narrows { (p : Placed) (s : ℕ) → V.may_show view.new p s → V.may_show view.old p s }
    ensures answer { (p : Placed) (x : Sample) → ReadsSample V.may_show view.new p sample x
        → place < length x.frames → IsLastWord p.pool sample x kept.old
        → result ≡ slice_index_or x.frames place (pos 0) }
    ensures kept { (p : Placed) (x : Sample) → ReadsSample V.may_show view.new p sample x
        → place < length x.frames → IsLastWord p.pool sample x kept.old
        → IsLastWord p.pool sample x kept.new }
    ensures same { V.same view.old view.new }
{
    a_shown_sample_is_of_its_version();
    let found = keep_word(view, sample, place, *kept);
    *kept = found;
    frame_in(found.word, place)
}
