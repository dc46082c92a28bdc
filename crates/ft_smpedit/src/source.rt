//! Where the frames of a sample after an edit come from.

ghost use Rattle.std.specs.Prelude.{◌≡◌, ◌≤◌, ◌<◌, ◌+◌, ◌-◌, ◌++◌, ℕ, Bool, List, ℤ, pos, length, take, drop, map, reverse, slice_index_or};
ghost use Rattle.ft_types.specs.declared.edit.Edit.{Edit as AnEdit};
ghost use Rattle.ft_types.specs.declared.sample.Sample.{Sample};
ghost use Rattle.ft_edits.specs.Changes.{sample_changed};
ghost use Rattle.ft_edits.specs.Lists.{with_stretch};
ghost use Rattle.ft_smpedit.specs.Sources.{HasNamedFrames, IsSourceOf, frame_changed, frame_from};

use ft_types::Edit;

/// Where a frame of a sample after an edit comes from.
#[derive(Clone, Copy)]
pub enum FrameSource {
    /// The frame at a place of the sample before the edit, as it was.
    Old {
        /// Its place.
        place: u32,
    },
    /// The frame at a place of the sample before the edit, changed by it.
    Changed {
        /// Its place.
        place: u32,
    },
    /// A new frame, which the edit gives.
    Given {
        /// The frame.
        frame: i16,
    },
}

/// How many frames a sample has after an edit, by how many it had.
pub fn frames_after(e: &Edit, frames: u32) -> u64
    ensures answer { (x : Sample) → length x.frames ≡ frames → HasNamedFrames frames e.now
        → result ≡ length (sample_changed e.now x).frames }
    ensures few { HasNamedFrames frames e.now → result ≤ frames + 256 }
{
    let before = u64::from(frames);
    match e {
        Edit::Cut { from, to, .. } => before.saturating_sub(u64::from((*to).saturating_sub(*from))),
        Edit::Paste { frames: new, .. } => before.saturating_add(new.len() as u64),
        _ => before,
    }
}

/// The place before a stretch went of what is at a place after it.
fn place_before_cut(from: u32, to: u32, i: u32) -> u32
    ensures there { (n : ℕ) → from ≤ to → to ≤ n → n < 4294967296 → i < n - (to - from) → result < n }
    ensures frame { (frames : List ℤ) → from ≤ to → to ≤ length frames
        → length frames < 4294967296 → i < length frames - (to - from)
        → slice_index_or (take from frames ++ drop to frames) i (pos 0)
        ≡ slice_index_or frames result (pos 0) }
{
    if i < from {
        return i;
    }
    i.saturating_add(to.saturating_sub(from))
}

/// The source of a frame after new ones came before a place.
fn source_after_paste(at: u32, new: &[i16], i: u32) -> FrameSource
    ensures there { (n : ℕ) → at ≤ n → i < n + length new.now → IsSourceOf n result }
    ensures frame { (e : AnEdit) (wide : Bool) (frames : List ℤ) → at ≤ length frames
        → slice_index_or (take at frames ++ (new.now ++ drop at frames)) i (pos 0)
        ≡ frame_from e wide frames result }
{
    if i < at {
        return FrameSource::Old { place: i };
    }
    let after = (i - at) as usize;
    if after < new.len() {
        return FrameSource::Given { frame: new[after] };
    }
    FrameSource::Old {
        place: i - new.len() as u32,
    }
}

/// The place of a frame before a stretch was turned, by its place after it.
fn place_before_turn(from: u32, to: u32, i: u32) -> u32
    ensures there { (n : ℕ) → from ≤ to → to ≤ n → i < n → result < n }
    ensures frame { (frames : List ℤ) → from ≤ to → to ≤ length frames
        → slice_index_or (with_stretch from to reverse frames) i (pos 0)
        ≡ slice_index_or frames result (pos 0) }
{
    if i < from || i >= to {
        return i;
    }
    to - 1 - (i - from)
}

/// The source of a frame after those of a stretch were changed.
fn source_of_stretch(from: u32, to: u32, i: u32) -> FrameSource
    ensures there { (n : ℕ) → i < n → IsSourceOf n result }
    ensures frame { (e : AnEdit) (wide : Bool) (frames : List ℤ) → from ≤ to → to ≤ length frames
        → slice_index_or (with_stretch from to (map (frame_changed e wide)) frames) i (pos 0)
        ≡ frame_from e wide frames result }
{
    if from <= i && i < to {
        return FrameSource::Changed { place: i };
    }
    FrameSource::Old { place: i }
}

/// The source of a frame of a sample after an edit, by its place. Nothing is said of a place that
/// isn't below the frames that the sample has then.
pub fn source_of(e: &Edit, i: u32) -> FrameSource
    ensures there { (x : Sample) → length x.frames < 4294967296
        → HasNamedFrames (length x.frames) e.now
        → i < length (sample_changed e.now x).frames → IsSourceOf (length x.frames) result }
    ensures frame { (x : Sample) → length x.frames < 4294967296
        → HasNamedFrames (length x.frames) e.now
        → i < length (sample_changed e.now x).frames
        → slice_index_or (sample_changed e.now x).frames i (pos 0)
        ≡ frame_from e.now x.wide x.frames result }
{
    match e {
        Edit::Cut { from, to, .. } => FrameSource::Old {
            place: place_before_cut(*from, *to, i),
        },
        Edit::Paste { at, frames, .. } => source_after_paste(*at, frames.as_slice(), i),
        Edit::Reverse { from, to, .. } => FrameSource::Old {
            place: place_before_turn(*from, *to, i),
        },
        Edit::Scale { from, to, .. } => source_of_stretch(*from, *to, i),
        Edit::Bits { .. } => FrameSource::Changed { place: i },
        _ => FrameSource::Old { place: i },
    }
}
