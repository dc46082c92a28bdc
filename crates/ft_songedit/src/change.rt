//! What an edit of a song in words will fill, and why it is refused.

ghost use Rattle.std.specs.Prelude.{◌≡◌, ◌≤◌, ℕ, Some, slice_get, MatchResult};
ghost use Rattle.ft_types.specs.declared.module.Module.{Module};
ghost use Rattle.ft_types.specs.declared.edit.Edit.{Edit};
ghost use Rattle.ft_types.specs.Edits.{IsGivable};
ghost use Rattle.ft_edits.specs.Faults.{fault_of};
ghost use Rattle.ft_segments.specs.Walk.{Placed, ids_of};
ghost use Rattle.ft_changes.specs.Reaches.{needed};
ghost use Rattle.ft_changes.specs.Dropped.{dropped};
ghost use Rattle.ft_image.specs.Shown.{Shows};
ghost use Rattle.ft_image.specs.Read.{MayShowAll};
ghost use Rattle.ft_songedit.specs.Changed.{IsChangeOf};

use ft_changes::{Reach, an_edit_changes_what_it_reaches, needed};
use ft_edits::{holds_fields, valid_stays_valid};
use ft_image::WordView;
use ft_placed::{dropped_at, drops, fault_in, reach_in};
use ft_sharing::what_was_reached_fits;
use ft_types::{Edit, EditFault};

/// What an edit changes of a song in words.
#[derive(Clone, Copy)]
pub struct Change {
    /// The root of the song before the edit.
    pub root: u16,
    /// The parts that the edit touches.
    pub reach: Reach,
    /// How many segments it fills.
    pub need: u32,
    /// How many segments of the song before it aren't of the song after it.
    pub drops: u32,
}

/// How many segments are filled, in 32 bits.
fn need_of(reach: Reach) -> u32
    ensures { needed reach ≤ 4294967295 → result ≡ needed reach }
{
    needed(reach).min(4_294_967_295) as u32
}

/// What an edit changes of the song of a root, or its first fault. It takes no memory.
pub fn change_in<V: WordView>(view: &mut V, root: u16, e: &Edit) -> Result<Change, EditFault>
    requires givable { IsGivable e.now }
    ensures narrows { (p : Placed) (s : ℕ) → V.may_show view.new p s → V.may_show view.old p s }
    ensures answer { (p : Placed) (m : Module) → MayShowAll V.may_show view.new p → Shows p m
        → p.root ≡ root
        → MatchResult result (λ change. IsChangeOf p m e.now change)
        (λ fault. fault_of m e.now ≡ Some fault) }
    ensures same { V.same view.old view.new }
{
    valid_stays_valid();
    an_edit_changes_what_it_reaches();
    what_was_reached_fits();
    holds_fields(e);
    if let Some(fault) = fault_in(view, root, e) {
        return Err(fault);
    }
    let reach = reach_in(view, root, e);
    let drops = drops(view, root, reach);
    Ok(Change {
        root,
        reach,
        need: need_of(reach),
        drops,
    })
}

impl Change {
    /// The segments that the edit drops, one by one, in the order of the walk. None exactly past
    /// the last. `old` shows the version of which the change was answered.
    pub fn dropped<V: WordView>(&self, old: &mut V, k: u32) -> Option<u16>
        ensures narrows { (p : Placed) (s : ℕ) → V.may_show old.new p s → V.may_show old.old p s }
        ensures answer { (p : Placed) (m : Module) (e : Edit) → MayShowAll V.may_show old.new p
            → Shows p m → IsChangeOf p m e self.now
            → result ≡ slice_get (dropped self.now.reach (ids_of p)) k }
        ensures same { V.same old.old old.new }
    {
        an_edit_changes_what_it_reaches();
        what_was_reached_fits();
        dropped_at(old, self.root, self.reach, k)
    }
}
