//! Ids read from rows of ids.

ghost use Rattle.std.specs.Prelude.{◌≡◌, ◌≤◌, ◌<◌, ◌+◌, ◌/◌, ℕ};
ghost use Rattle.ft_segments.specs.Packing.{id_at};
ghost use Rattle.ft_segments.specs.Walk.{Placed};

use crate::digits::quarter;
use crate::view::WordView;

/// An id of a row that begins at a word of a segment.
#[tactic(auto, unfolding(ft_segments::specs::Packing::id_at))]
pub fn id<V: WordView>(view: &mut V, segment: u16, first: u8, i: u16) -> u16
    requires { first + i / 4 < 256 }
    ensures narrows { (p : Placed) (s : ℕ) → V.may_show view.new p s → V.may_show view.old p s }
    ensures answer { (p : Placed) → V.may_show view.new p segment
        → result ≡ id_at p.pool segment first i }
    ensures work { (V.work view.old ≤ V.work view.new) × (V.work view.new ≤ V.work view.old + 1) }
    ensures same { V.same view.old view.new }
{
    quarter(view.word(segment, first + (i / 4) as u8), (i % 4) as u8)
}
