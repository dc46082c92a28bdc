//! The ids of a sample.

ghost use Rattle.std.specs.Prelude.{◌≡◌, ◌≤◌, ◌*◌, ℕ, length, slice_get};
ghost use Rattle.ft_types.specs.declared.module.Module.{Module};
ghost use Rattle.ft_types.specs.Blocks.{pieces_of};
ghost use Rattle.ft_segments.specs.Walk.{Placed, SampleIds, ids_of, bodies_in};
ghost use Rattle.ft_changes.specs.Parts.{index_roots, body_ids};
ghost use Rattle.ft_image.specs.Shown.{Shows};
ghost use Rattle.ft_image.specs.Read.{MayShowAll};
ghost use Rattle.ft_placed.specs.Roots.{IsSampleOf};

use ft_image::{WordView, id};

/// How many bodies of frames a sample has, by its root.
pub(crate) fn frame_bodies<V: WordView>(view: &mut V, sample: u16) -> u32
    ensures narrows { (p : Placed) (s : ℕ) → V.may_show view.new p s → V.may_show view.old p s }
    ensures answer { (p : Placed) → V.may_show view.new p sample
        → result ≡ bodies_in p.pool sample }
    ensures few { result ≤ 4194304 }
    ensures same { V.same view.old view.new }
{
    let frames = view.word(sample, 0) % 4294967296;
    ((frames + 1023) / 1024) as u32
}

/// How many indexes a sample has, by its root.
pub(crate) fn index_count<V: WordView>(view: &mut V, sample: u16) -> u32
    ensures narrows { (p : Placed) (s : ℕ) → V.may_show view.new p s → V.may_show view.old p s }
    ensures answer { (p : Placed) → V.may_show view.new p sample
        → result ≡ pieces_of (bodies_in p.pool sample) 1024 }
    ensures few { result ≤ 4096 }
    ensures same { V.same view.old view.new }
{
    (frame_bodies(view, sample) + 1023) / 1024
}

/// The segment of an index, from 0, of the sample of a root. None exactly where it has no such
/// index.
pub fn index_id<V: WordView>(view: &mut V, sample: u16, index: u32) -> Option<u16>
    ensures narrows { (p : Placed) (s : ℕ) → V.may_show view.new p s → V.may_show view.old p s }
    ensures answer { (p : Placed) (m : Module) (ids : SampleIds)
        → MayShowAll V.may_show view.new p → Shows p m → IsSampleOf (ids_of p) ids
        → ids.root ≡ sample → result ≡ slice_get (index_roots ids) index }
    ensures same { V.same view.old view.new }
{
    if index >= index_count(view, sample).min(4) {
        return None;
    }
    Some(id(view, sample, 16, index as u16))
}

/// The segment of a body of frames, from 0 over all indexes, of the sample of a root. None exactly
/// where it has no such body.
pub fn frames_body_id<V: WordView>(view: &mut V, sample: u16, body: u32) -> Option<u16>
    ensures narrows { (p : Placed) (s : ℕ) → V.may_show view.new p s → V.may_show view.old p s }
    ensures answer { (p : Placed) (m : Module) (ids : SampleIds)
        → MayShowAll V.may_show view.new p → Shows p m → IsSampleOf (ids_of p) ids
        → ids.root ≡ sample → result ≡ slice_get (body_ids ids) body }
    ensures same { V.same view.old view.new }
{
    if body >= frame_bodies(view, sample) {
        return None;
    }
    let Some(index) = index_id(view, sample, body / 1024) else {
        return None;
    };
    Some(id(view, index, 0, (body % 1024) as u16))
}
