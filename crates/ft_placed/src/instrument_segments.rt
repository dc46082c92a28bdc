//! The segments of an instrument, one by one, in the order of the walk.

ghost use Rattle.std.specs.Prelude.{◌≡◌, ◌≤◌, ◌+◌, ◌-◌, ℕ, length, slice_get};
ghost use Rattle.std.specs.List.{flat_map};
ghost use Rattle.ft_types.specs.declared.module.Module.{Module};
ghost use Rattle.ft_segments.specs.Walk.{Placed, ids_of};
ghost use Rattle.ft_changes.specs.Dropped.{instrument_root_of, sample_root_of, root_and_stretch, root_and_sample, root_and_last};
ghost use Rattle.ft_changes.specs.Fits.{HoldsInstrument, HasStretch};
ghost use Rattle.ft_changes.specs.Ids.{samples_of};
ghost use Rattle.ft_changes.specs.Parts.{sample_segments, instrument_segments, segments_if};
ghost use Rattle.ft_image.specs.Shown.{Shows};
ghost use Rattle.ft_image.specs.Read.{MayShowAll};

use crate::instruments::{instrument_id, sample_count, sample_id};
use crate::segments::{sample_segment, sample_size, stretch_segment};
use ft_image::WordView;

/// A segment of a sample of an instrument; None where there is no such sample.
fn segment_of_sample<V: WordView>(view: &mut V, root: u16, at: u16, s: u8, k: u32) -> Option<u16>
    ensures narrows { (p : Placed) (s : ℕ) → V.may_show view.new p s → V.may_show view.old p s }
    ensures answer { (p : Placed) (m : Module) → MayShowAll V.may_show view.new p → Shows p m
        → p.root ≡ root
        → result ≡ slice_get
        (segments_if sample_segments (slice_get (samples_of (ids_of p) at) s)) k }
    ensures same { V.same view.old view.new }
{
    let Some(sample) = sample_id(view, root, at, s) else {
        return None;
    };
    sample_segment(view, sample, k)
}

/// How many segments a sample of an instrument has; 0 where there is no such sample.
fn size_of_sample<V: WordView>(view: &mut V, root: u16, at: u16, s: u8) -> u32
    ensures narrows { (p : Placed) (s : ℕ) → V.may_show view.new p s → V.may_show view.old p s }
    ensures answer { (p : Placed) (m : Module) → MayShowAll V.may_show view.new p → Shows p m
        → p.root ≡ root
        → result ≡ length (segments_if sample_segments (slice_get (samples_of (ids_of p) at) s)) }
    ensures few { result ≤ 4198401 }
    ensures same { V.same view.old view.new }
{
    let Some(sample) = sample_id(view, root, at, s) else {
        return 0;
    };
    sample_size(view, sample)
}

/// The number of the last sample of an instrument; 0 where it has none.
fn last_sample<V: WordView>(view: &mut V, root: u16, at: u16) -> u8
    ensures narrows { (p : Placed) (s : ℕ) → V.may_show view.new p s → V.may_show view.old p s }
    ensures answer { (p : Placed) (m : Module) → MayShowAll V.may_show view.new p → Shows p m
        → p.root ≡ root → result ≡ length (samples_of (ids_of p) at) - 1 }
    ensures same { V.same view.old view.new }
{
    let Some(found) = instrument_id(view, root, at) else {
        return 0;
    };
    sample_count(view, found).saturating_sub(1)
}

/// A segment of all samples of an instrument, one sample after the other.
fn segment_of_samples<V: WordView>(view: &mut V, root: u16, at: u16, k: u32) -> Option<u16>
    ensures narrows { (p : Placed) (s : ℕ) → V.may_show view.new p s → V.may_show view.old p s }
    ensures answer { (p : Placed) (m : Module) → MayShowAll V.may_show view.new p → Shows p m
        → p.root ≡ root
        → result ≡ slice_get (flat_map sample_segments (samples_of (ids_of p) at)) k }
    ensures same { V.same view.old view.new }
{
    let mut rest = k;
    for s in 0..16u8 {
        let size = size_of_sample(view, root, at, s);
        if rest < size {
            return segment_of_sample(view, root, at, s, rest);
        }
        rest -= size;
    }
    None
}

/// How many segments all samples of an instrument have.
fn size_of_samples<V: WordView>(view: &mut V, root: u16, at: u16) -> u32
    ensures narrows { (p : Placed) (s : ℕ) → V.may_show view.new p s → V.may_show view.old p s }
    ensures answer { (p : Placed) (m : Module) → MayShowAll V.may_show view.new p → Shows p m
        → p.root ≡ root
        → result ≡ length (flat_map sample_segments (samples_of (ids_of p) at)) }
    ensures few { result ≤ 67174416 }
    ensures same { V.same view.old view.new }
{
    let mut size = 0;
    for s in 0..16u8 {
        size += size_of_sample(view, root, at, s);
    }
    size
}

/// A segment of an instrument: its root, then those of its samples. None where there is no such
/// instrument.
pub(crate) fn instrument_segment<V: WordView>(
    view: &mut V,
    root: u16,
    at: u16,
    k: u32,
) -> Option<u16>
    ensures narrows { (p : Placed) (s : ℕ) → V.may_show view.new p s → V.may_show view.old p s }
    ensures answer { (p : Placed) (m : Module) → MayShowAll V.may_show view.new p → Shows p m
        → p.root ≡ root
        → result ≡ slice_get
        (segments_if instrument_segments (slice_get (ids_of p).instruments at)) k }
    ensures same { V.same view.old view.new }
{
    if k == 0 {
        return instrument_id(view, root, at);
    }
    segment_of_samples(view, root, at, k - 1)
}

/// How many segments an instrument has; 0 where there is no such instrument.
pub(crate) fn instrument_size<V: WordView>(view: &mut V, root: u16, at: u16) -> u32
    ensures narrows { (p : Placed) (s : ℕ) → V.may_show view.new p s → V.may_show view.old p s }
    ensures answer { (p : Placed) (m : Module) → MayShowAll V.may_show view.new p → Shows p m
        → p.root ≡ root
        → result ≡ length (segments_if instrument_segments (slice_get (ids_of p).instruments at)) }
    ensures few { result ≤ 67174417 }
    ensures same { V.same view.old view.new }
{
    let Some(_) = instrument_id(view, root, at) else {
        return 0;
    };
    1 + size_of_samples(view, root, at)
}

/// The root of an instrument, then that of one of its samples, if it has it.
pub(crate) fn sample_root_segment<V: WordView>(
    view: &mut V,
    root: u16,
    at: u16,
    s: u8,
    k: u32,
) -> Option<u16>
    ensures narrows { (p : Placed) (s : ℕ) → V.may_show view.new p s → V.may_show view.old p s }
    ensures answer { (p : Placed) (m : Module) → MayShowAll V.may_show view.new p → Shows p m
        → p.root ≡ root
        → result ≡ slice_get
        (segments_if (root_and_sample sample_root_of s) (slice_get (ids_of p).instruments at)) k }
    ensures same { V.same view.old view.new }
{
    match k {
        0 => instrument_id(view, root, at),
        1 => sample_id(view, root, at, s),
        _ => None,
    }
}

/// How many these are, of an instrument that is there.
pub(crate) fn sample_root_size<V: WordView>(view: &mut V, root: u16, at: u16, s: u8) -> u32
    ensures narrows { (p : Placed) (s : ℕ) → V.may_show view.new p s → V.may_show view.old p s }
    ensures answer { (p : Placed) (m : Module) → MayShowAll V.may_show view.new p → Shows p m
        → p.root ≡ root
        → result ≡ 1 + length (segments_if sample_root_of (slice_get (samples_of (ids_of p) at) s)) }
    ensures few { result ≤ 2 }
    ensures same { V.same view.old view.new }
{
    let Some(_) = sample_id(view, root, at, s) else {
        return 1;
    };
    2
}

/// The root of an instrument, then the segments of its last sample.
pub(crate) fn last_sample_segment<V: WordView>(
    view: &mut V,
    root: u16,
    at: u16,
    k: u32,
) -> Option<u16>
    ensures narrows { (p : Placed) (s : ℕ) → V.may_show view.new p s → V.may_show view.old p s }
    ensures answer { (p : Placed) (m : Module) → MayShowAll V.may_show view.new p → Shows p m
        → p.root ≡ root
        → result ≡ slice_get
        (segments_if root_and_last (slice_get (ids_of p).instruments at)) k }
    ensures same { V.same view.old view.new }
{
    if k == 0 {
        return instrument_id(view, root, at);
    }
    let last = last_sample(view, root, at);
    segment_of_sample(view, root, at, last, k - 1)
}

/// How many segments the last sample of an instrument has; 0 where it has none.
pub(crate) fn last_sample_size<V: WordView>(view: &mut V, root: u16, at: u16) -> u32
    ensures narrows { (p : Placed) (s : ℕ) → V.may_show view.new p s → V.may_show view.old p s }
    ensures answer { (p : Placed) (m : Module) → MayShowAll V.may_show view.new p → Shows p m
        → p.root ≡ root
        → result ≡ length (segments_if sample_segments (slice_get (samples_of (ids_of p) at)
        (length (samples_of (ids_of p) at) - 1))) }
    ensures few { result ≤ 4198401 }
    ensures same { V.same view.old view.new }
{
    let last = last_sample(view, root, at);
    size_of_sample(view, root, at, last)
}

/// The root of an instrument, then that of one of its samples with the indexes and bodies of a
/// stretch.
pub(crate) fn frames_segment<V: WordView>(
    view: &mut V,
    root: u16,
    at: u16,
    s: u8,
    first: u32,
    gone: u32,
    k: u32,
) -> Option<u16>
    ensures narrows { (p : Placed) (s : ℕ) → V.may_show view.new p s → V.may_show view.old p s }
    ensures answer { (p : Placed) (m : Module) (last : ℕ) → MayShowAll V.may_show view.new p
        → Shows p m → p.root ≡ root
        → HoldsInstrument at (HasStretch s first last gone) (ids_of p)
        → result ≡ slice_get (segments_if (root_and_sample (root_and_stretch first gone) s)
        (slice_get (ids_of p).instruments at)) k }
    ensures same { V.same view.old view.new }
{
    if k == 0 {
        return instrument_id(view, root, at);
    }
    let Some(sample) = sample_id(view, root, at, s) else {
        return None;
    };
    stretch_segment(view, sample, first, gone, k - 1)
}
