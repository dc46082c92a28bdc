//! The root of an instrument of the next version.

ghost use Rattle.std.specs.Prelude.{◌≡◌, ◌≢◌, ◌<◌, ◌≤◌, ℕ, List, All, None, length, slice_index};
ghost use Rattle.ft_types.specs.declared.module.Module.{Module};
ghost use Rattle.ft_edits.specs.Faults.{fault_of};
ghost use Rattle.ft_edits.specs.Edited.{edited};
ghost use Rattle.ft_segments.specs.Packing.{word_at};
ghost use Rattle.ft_segments.specs.Walk.{Placed, ids_of};
ghost use Rattle.ft_changes.specs.Reaches.{reach_of, needed};
ghost use Rattle.ft_changes.specs.Ids.{ids_after};
ghost use Rattle.ft_image.specs.Shown.{Shows};
ghost use Rattle.ft_image.specs.Read.{MayShowAll};
ghost use Rattle.ft_sharing.specs.Written.{AtPlace};
ghost use Rattle.ft_songedit.specs.Instruments.{instrument_place, InstrumentRootOf, HasStored};

use crate::instrument_words::change_reached;
use ft_changes::{Reach, an_edit_changes_what_it_reaches};
use ft_image::{Fill, ListedWords, WordView, fill_with, segment_words};
use ft_placed::instrument_id;
use ft_roots::an_instrument_has_the_words_of_its_root;
use ft_sharing::what_was_reached_fits;
use ft_types::Edit;

/// The instrument that an edit touches, from 0.
fn place_of(reach: Reach) -> Option<u16>
    ensures { result ≡ instrument_place reach }
{
    match reach {
        Reach::Instrument { at } => Some(at),
        Reach::Bare { at } => Some(at),
        Reach::LastSample { at } => Some(at),
        Reach::Sample { at, .. } => Some(at),
        Reach::Frames { at, .. } => Some(at),
        _ => None,
    }
}

/// The words of the root of an instrument, from 0, of the song of a root; all 0 where the song has
/// no such instrument.
fn stored_words<V: WordView>(view: &mut V, root: u16, at: u16) -> [u64; 256]
    ensures narrows { (p : Placed) (s : ℕ) → V.may_show view.new p s → V.may_show view.old p s }
    ensures answer { (p : Placed) (m : Module) → MayShowAll V.may_show view.new p → Shows p m
        → p.root ≡ root → AtPlace at (HasStored result) m.instruments (ids_of p).instruments }
    ensures same { V.same view.old view.new }
{
    an_instrument_has_the_words_of_its_root();
    match instrument_id(view, root, at) {
        Some(found) => segment_words(view, found),
        None => [0; 256],
    }
}

/// Fills the second of the fresh segments with the root of the instrument that the edit touched.
/// Where it touched none, nothing is filled. All other segments stay.
pub fn write_instrument_root<F: Fill>(
    words: &mut F,
    root: u16,
    e: &Edit,
    reach: Reach,
    fresh: &[u16],
)
    requires may { All (F.may_fill words.old) fresh.now }
    ensures narrows { (p : Placed) (s : ℕ)
        → F.may_show words.new p s → F.may_show words.old p s }
    ensures may { (s : ℕ) → F.may_fill words.old s → F.may_fill words.new s }
    ensures written { (p : Placed) (m : Module) → MayShowAll F.may_show words.new p → Shows p m
        → p.root ≡ root → fault_of m e.now ≡ None → reach ≡ reach_of m e.now
        → length fresh.now ≡ needed reach
        → InstrumentRootOf reach (F.written words.new) (edited m e.now)
        (ids_after reach fresh.now (ids_of p)) }
    ensures others { (s j : ℕ) → s ≢ slice_index fresh.now 1 → j < 256
        → word_at (F.written words.new) s j ≡ word_at (F.written words.old) s j }
    ensures long { length (F.written words.new) ≡ length (F.written words.old) }
    ensures rest { F.rest words.old words.new }
{
    an_instrument_has_the_words_of_its_root();
    what_was_reached_fits();
    an_edit_changes_what_it_reaches();
    words.fill_law();
    if let Some(at) = place_of(reach)
        && fresh.len() >= 2
    {
        let mut made = stored_words(words, root, at);
        change_reached(&mut made, e, reach, fresh);
        fill_with(words, fresh[1], &ListedWords { words: &made });
    }
}
