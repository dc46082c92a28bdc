//! The segments that an edit drops of a song that lies in words.

ghost use Rattle.std.specs.Prelude.{◌≡◌, ◌≤◌, ◌+◌, ◌-◌, ℕ, length, slice_get};
ghost use Rattle.ft_types.specs.declared.module.Module.{Module};
ghost use Rattle.ft_segments.specs.Walk.{Placed, ids_of};
ghost use Rattle.ft_changes.specs.Dropped.{dropped};
ghost use Rattle.ft_changes.specs.Fits.{IsThere};
ghost use Rattle.ft_image.specs.Shown.{Shows};
ghost use Rattle.ft_image.specs.Read.{MayShowAll};

use crate::instrument_segments::{
    frames_segment, instrument_segment, instrument_size, last_sample_segment, last_sample_size,
    sample_root_segment, sample_root_size,
};
use crate::instruments::instrument_id;
use crate::segments::{cell_segment, pattern_segment, pattern_size, stretch_size};
use ft_changes::Reach;
use ft_image::{WordView, quarter};

/// The number of the last pattern of the song of a root; 0 where it has none.
fn last_pattern<V: WordView>(view: &mut V, root: u16) -> u16
    ensures narrows { (p : Placed) (s : ℕ) → V.may_show view.new p s → V.may_show view.old p s }
    ensures answer { (p : Placed) → MayShowAll V.may_show view.new p → p.root ≡ root
        → result ≡ length (ids_of p).patterns - 1 }
    ensures same { V.same view.old view.new }
{
    quarter(view.word(root, 1), 0).saturating_sub(1)
}

/// A segment that an edit drops of the song of a root, behind the song root.
fn dropped_behind<V: WordView>(view: &mut V, root: u16, reach: Reach, k: u32) -> Option<u16>
    ensures narrows { (p : Placed) (s : ℕ) → V.may_show view.new p s → V.may_show view.old p s }
    ensures answer { (p : Placed) (m : Module) → MayShowAll V.may_show view.new p → Shows p m
        → p.root ≡ root → IsThere reach (ids_of p)
        → result ≡ slice_get (dropped reach (ids_of p)) (1 + k) }
    ensures same { V.same view.old view.new }
{
    match reach {
        Reach::Song => None,
        Reach::LastPattern => {
            let last = last_pattern(view, root);
            pattern_segment(view, root, last, k)
        }
        Reach::Cell { pattern, body } => cell_segment(view, root, pattern, body, k),
        Reach::Pattern { pattern, .. } => pattern_segment(view, root, pattern, k),
        Reach::Instrument { at } => {
            if k == 0 {
                instrument_id(view, root, at)
            } else {
                None
            }
        }
        Reach::Bare { at } => instrument_segment(view, root, at, k),
        Reach::LastSample { at } => last_sample_segment(view, root, at, k),
        Reach::Sample { at, sample } => sample_root_segment(view, root, at, sample, k),
        Reach::Frames {
            at,
            sample,
            first,
            gone,
            ..
        } => frames_segment(view, root, at, sample, first, gone, k),
    }
}

/// The segments that an edit which reaches so far drops of the song of a root, one by one: the
/// segments of the song before it that aren't of the song after it. None exactly past the last.
/// It takes no memory.
pub fn dropped_at<V: WordView>(view: &mut V, root: u16, reach: Reach, k: u32) -> Option<u16>
    ensures narrows { (p : Placed) (s : ℕ) → V.may_show view.new p s → V.may_show view.old p s }
    ensures answer { (p : Placed) (m : Module) → MayShowAll V.may_show view.new p → Shows p m
        → p.root ≡ root → IsThere reach (ids_of p)
        → result ≡ slice_get (dropped reach (ids_of p)) k }
    ensures same { V.same view.old view.new }
{
    if k == 0 {
        return Some(root);
    }
    dropped_behind(view, root, reach, k - 1)
}

/// How many segments an edit drops behind the song root.
fn drops_behind<V: WordView>(view: &mut V, root: u16, reach: Reach) -> u32
    ensures narrows { (p : Placed) (s : ℕ) → V.may_show view.new p s → V.may_show view.old p s }
    ensures answer { (p : Placed) (m : Module) → MayShowAll V.may_show view.new p → Shows p m
        → p.root ≡ root → IsThere reach (ids_of p)
        → 1 + result ≡ length (dropped reach (ids_of p)) }
    ensures few { result ≤ 67174417 }
    ensures same { V.same view.old view.new }
{
    match reach {
        Reach::Song => 0,
        Reach::LastPattern => {
            let last = last_pattern(view, root);
            pattern_size(view, root, last)
        }
        Reach::Cell { .. } => 2,
        Reach::Pattern { pattern, .. } => pattern_size(view, root, pattern),
        Reach::Instrument { .. } => 1,
        Reach::Bare { at } => instrument_size(view, root, at),
        Reach::LastSample { at } => 1 + last_sample_size(view, root, at),
        Reach::Sample { at, sample } => sample_root_size(view, root, at, sample),
        Reach::Frames { first, gone, .. } => 1 + stretch_size(first, gone),
    }
}

/// How many segments an edit which reaches so far drops of the song of a root. It takes no memory.
pub fn drops<V: WordView>(view: &mut V, root: u16, reach: Reach) -> u32
    ensures narrows { (p : Placed) (s : ℕ) → V.may_show view.new p s → V.may_show view.old p s }
    ensures answer { (p : Placed) (m : Module) → MayShowAll V.may_show view.new p → Shows p m
        → p.root ≡ root → IsThere reach (ids_of p)
        → result ≡ length (dropped reach (ids_of p)) }
    ensures same { V.same view.old view.new }
{
    1 + drops_behind(view, root, reach)
}
