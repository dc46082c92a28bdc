//! The segments of a part of a song, one by one, in the order of the walk.

ghost use Rattle.std.specs.Prelude.{◌≡◌, ◌≤◌, ◌+◌, ◌-◌, ◌/◌, ℕ, length, slice_get};
ghost use Rattle.ft_types.specs.declared.module.Module.{Module};
ghost use Rattle.ft_segments.specs.Walk.{Placed, SampleIds, ids_of};
ghost use Rattle.ft_changes.specs.Dropped.{root_and_body, root_and_stretch};
ghost use Rattle.ft_changes.specs.Fits.{HasBody, IsStretch};
ghost use Rattle.ft_changes.specs.Parts.{pattern_segments, sample_segments, segments_if};
ghost use Rattle.ft_image.specs.Shown.{Shows};
ghost use Rattle.ft_image.specs.Read.{MayShowAll};
ghost use Rattle.ft_placed.specs.Roots.{IsSampleOf};

use crate::patterns::{body_count, body_id, pattern_id};
use crate::samples::{frame_bodies, frames_body_id, index_count, index_id};
use ft_image::WordView;

/// A segment of a pattern: its root, then its bodies.
pub(crate) fn pattern_segment<V: WordView>(
    view: &mut V,
    root: u16,
    pattern: u16,
    k: u32,
) -> Option<u16>
    ensures narrows { (p : Placed) (s : ℕ) → V.may_show view.new p s → V.may_show view.old p s }
    ensures answer { (p : Placed) (m : Module) → MayShowAll V.may_show view.new p → Shows p m
        → p.root ≡ root
        → result ≡ slice_get
        (segments_if pattern_segments (slice_get (ids_of p).patterns pattern)) k }
    ensures same { V.same view.old view.new }
{
    if k == 0 {
        return pattern_id(view, root, pattern);
    }
    body_id(view, root, pattern, k - 1)
}

/// How many segments a pattern has; 0 where it isn't stored.
pub(crate) fn pattern_size<V: WordView>(view: &mut V, root: u16, pattern: u16) -> u32
    ensures narrows { (p : Placed) (s : ℕ) → V.may_show view.new p s → V.may_show view.old p s }
    ensures answer { (p : Placed) (m : Module) → MayShowAll V.may_show view.new p → Shows p m
        → p.root ≡ root
        → result ≡ length (segments_if pattern_segments (slice_get (ids_of p).patterns pattern)) }
    ensures few { result ≤ 33 }
    ensures same { V.same view.old view.new }
{
    let Some(found) = pattern_id(view, root, pattern) else {
        return 0;
    };
    1 + u32::from(body_count(view, root, found))
}

/// The root of a pattern, then one of its bodies.
pub(crate) fn cell_segment<V: WordView>(
    view: &mut V,
    root: u16,
    pattern: u16,
    body: u32,
    k: u32,
) -> Option<u16>
    ensures narrows { (p : Placed) (s : ℕ) → V.may_show view.new p s → V.may_show view.old p s }
    ensures answer { (p : Placed) (m : Module) → MayShowAll V.may_show view.new p → Shows p m
        → p.root ≡ root → HasBody pattern body (ids_of p)
        → result ≡ slice_get
        (segments_if (root_and_body body) (slice_get (ids_of p).patterns pattern)) k }
    ensures same { V.same view.old view.new }
{
    match k {
        0 => pattern_id(view, root, pattern),
        1 => body_id(view, root, pattern, body),
        _ => None,
    }
}

/// A segment of the sample of a root: its root, then its indexes, then its bodies.
pub(crate) fn sample_segment<V: WordView>(view: &mut V, sample: u16, k: u32) -> Option<u16>
    ensures narrows { (p : Placed) (s : ℕ) → V.may_show view.new p s → V.may_show view.old p s }
    ensures answer { (p : Placed) (m : Module) (ids : SampleIds)
        → MayShowAll V.may_show view.new p → Shows p m → IsSampleOf (ids_of p) ids
        → ids.root ≡ sample → result ≡ slice_get (sample_segments ids) k }
    ensures same { V.same view.old view.new }
{
    if k == 0 {
        return Some(sample);
    }
    let indexes = index_count(view, sample);
    if k - 1 < indexes {
        return index_id(view, sample, k - 1);
    }
    frames_body_id(view, sample, k - 1 - indexes)
}

/// How many segments the sample of a root has.
pub(crate) fn sample_size<V: WordView>(view: &mut V, sample: u16) -> u32
    ensures narrows { (p : Placed) (s : ℕ) → V.may_show view.new p s → V.may_show view.old p s }
    ensures answer { (p : Placed) (m : Module) (ids : SampleIds)
        → MayShowAll V.may_show view.new p → Shows p m → IsSampleOf (ids_of p) ids
        → ids.root ≡ sample → result ≡ length (sample_segments ids) }
    ensures few { result ≤ 4198401 }
    ensures same { V.same view.old view.new }
{
    1 + index_count(view, sample) + frame_bodies(view, sample)
}

/// How many indexes name the bodies from one up to another.
fn stretch_indexes(first: u32, gone: u32) -> u32
    ensures { result ≡ (gone + 1023) / 1024 - first / 1024 }
{
    (gone / 1024 + u32::from(gone % 1024 != 0)).saturating_sub(first / 1024)
}

/// The root of a sample, then the indexes and the bodies of a stretch.
pub(crate) fn stretch_segment<V: WordView>(
    view: &mut V,
    sample: u16,
    first: u32,
    gone: u32,
    k: u32,
) -> Option<u16>
    ensures narrows { (p : Placed) (s : ℕ) → V.may_show view.new p s → V.may_show view.old p s }
    ensures answer { (p : Placed) (m : Module) (ids : SampleIds) (last : ℕ)
        → MayShowAll V.may_show view.new p → Shows p m → IsSampleOf (ids_of p) ids
        → ids.root ≡ sample → IsStretch first last gone ids
        → result ≡ slice_get (root_and_stretch first gone ids) k }
    ensures same { V.same view.old view.new }
{
    if k == 0 {
        return Some(sample);
    }
    let indexes = stretch_indexes(first, gone);
    if k - 1 < indexes {
        return index_id(view, sample, first / 1024 + (k - 1));
    }
    let rest = k - 1 - indexes;
    if rest >= gone.saturating_sub(first) {
        return None;
    }
    frames_body_id(view, sample, first + rest)
}

/// How many these are.
pub(crate) fn stretch_size(first: u32, gone: u32) -> u32
    ensures answer { (ids : SampleIds) (last : ℕ) → length ids.indexes ≤ 4
        → IsStretch first last gone ids → result ≡ length (root_and_stretch first gone ids) }
    ensures few { result ≤ 4198401 }
{
    1 + stretch_indexes(first, gone) + gone.saturating_sub(first).min(4096)
}
