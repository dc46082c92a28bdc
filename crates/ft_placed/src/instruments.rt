//! The ids of an instrument and of its samples.

ghost use Rattle.std.specs.Prelude.{◌≡◌, ◌≤◌, ℕ};
ghost use Rattle.ft_types.specs.declared.module.Module.{Module};
ghost use Rattle.ft_segments.specs.Walk.{Placed, ids_of, samples_in};
ghost use Rattle.ft_image.specs.Shown.{Shows};
ghost use Rattle.ft_image.specs.Read.{MayShowAll};
ghost use Rattle.ft_placed.specs.Roots.{instrument_root_in, sample_root_in};

use ft_image::{WordView, byte, id, instrument_root};

/// The root of an instrument, from 0, of the song of a root. None exactly where the song has no
/// such instrument.
pub fn instrument_id<V: WordView>(view: &mut V, root: u16, at: u16) -> Option<u16>
    ensures narrows { (p : Placed) (s : ℕ) → V.may_show view.new p s → V.may_show view.old p s }
    ensures answer { (p : Placed) (m : Module) → MayShowAll V.may_show view.new p → Shows p m
        → p.root ≡ root → result ≡ instrument_root_in (ids_of p) at }
    ensures same { V.same view.old view.new }
{
    if at >= 255 {
        return None;
    }
    instrument_root(view, root, at as u8 + 1)
}

/// How many samples an instrument has, by its root.
pub(crate) fn sample_count<V: WordView>(view: &mut V, instrument: u16) -> u8
    ensures narrows { (p : Placed) (s : ℕ) → V.may_show view.new p s → V.may_show view.old p s }
    ensures answer { (p : Placed) → V.may_show view.new p instrument
        → result ≡ samples_in p.pool instrument }
    ensures same { V.same view.old view.new }
{
    byte(view.word(instrument, 0), 0)
}

/// The root of a sample of an instrument, both from 0, of the song of a root. None exactly where
/// the song has no such instrument, or the instrument no such sample.
pub fn sample_id<V: WordView>(view: &mut V, root: u16, at: u16, s: u8) -> Option<u16>
    ensures narrows { (p : Placed) (s : ℕ) → V.may_show view.new p s → V.may_show view.old p s }
    ensures answer { (p : Placed) (m : Module) → MayShowAll V.may_show view.new p → Shows p m
        → p.root ≡ root → result ≡ sample_root_in (ids_of p) at s }
    ensures same { V.same view.old view.new }
{
    let Some(found) = instrument_id(view, root, at) else {
        return None;
    };
    if s >= sample_count(view, found) {
        return None;
    }
    Some(id(view, found, 30, u16::from(s)))
}
