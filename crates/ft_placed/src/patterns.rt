//! The ids of a pattern.

ghost use Rattle.std.specs.Prelude.{◌≡◌, ◌≤◌, ℕ, length, slice_get};
ghost use Rattle.ft_types.specs.declared.module.Module.{Module};
ghost use Rattle.ft_segments.specs.Walk.{Placed, ids_of, pattern_walk};
ghost use Rattle.ft_changes.specs.Ids.{bodies_at};
ghost use Rattle.ft_image.specs.Shown.{Shows};
ghost use Rattle.ft_image.specs.Read.{MayShowAll, HasPattern};
ghost use Rattle.ft_placed.specs.Roots.{pattern_root_in};

use ft_image::{WordView, byte, id, pattern_root};

/// The root of a pattern, from 0, of the song of a root. None exactly where the song has no such
/// pattern.
pub fn pattern_id<V: WordView>(view: &mut V, root: u16, pattern: u16) -> Option<u16>
    ensures narrows { (p : Placed) (s : ℕ) → V.may_show view.new p s → V.may_show view.old p s }
    ensures answer { (p : Placed) (m : Module) → MayShowAll V.may_show view.new p → Shows p m
        → p.root ≡ root → result ≡ pattern_root_in (ids_of p) pattern }
    ensures same { V.same view.old view.new }
{
    if pattern >= 256 {
        return None;
    }
    pattern_root(view, root, pattern as u8)
}

/// How many bodies a pattern has, by its root and that of its song; 32 at most.
pub(crate) fn body_count<V: WordView>(view: &mut V, root: u16, pattern: u16) -> u16
    ensures narrows { (p : Placed) (s : ℕ) → V.may_show view.new p s → V.may_show view.old p s }
    ensures answer { (p : Placed) (m : Module) (k : ℕ) → MayShowAll V.may_show view.new p
        → Shows p m → p.root ≡ root → HasPattern p m k pattern
        → result ≡ length (pattern_walk p.pool m.channels pattern).bodies }
    ensures few { result ≤ 32 }
    ensures same { V.same view.old view.new }
{
    let rows = view.word(pattern, 0) % 65536;
    let channels = u64::from(byte(view.word(root, 0), 4));
    let bodies = (rows * channels + 255) / 256;
    bodies.min(32) as u16
}

/// The segment of a body of cells of a pattern, both from 0, of the song of a root. None exactly
/// where the song has no such pattern, or the pattern no such body.
pub fn body_id<V: WordView>(view: &mut V, root: u16, pattern: u16, body: u32) -> Option<u16>
    ensures narrows { (p : Placed) (s : ℕ) → V.may_show view.new p s → V.may_show view.old p s }
    ensures answer { (p : Placed) (m : Module) → MayShowAll V.may_show view.new p → Shows p m
        → p.root ≡ root → result ≡ slice_get (bodies_at (ids_of p) pattern) body }
    ensures same { V.same view.old view.new }
{
    let Some(found) = pattern_id(view, root, pattern) else {
        return None;
    };
    if body >= u32::from(body_count(view, root, found)) {
        return None;
    }
    Some(id(view, found, 1, body as u16))
}
