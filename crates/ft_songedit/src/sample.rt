//! The root of a sample of the next version.

ghost use Rattle.std.specs.Prelude.{◌≡◌, ◌≢◌, ◌<◌, ◌≤◌, ℕ, List, [], All, None, length, slice_index};
ghost use Rattle.ft_types.specs.declared.module.Module.{Module};
ghost use Rattle.ft_edits.specs.Faults.{fault_of};
ghost use Rattle.ft_edits.specs.Edited.{edited};
ghost use Rattle.ft_edits.specs.Samples.{new_sample};
ghost use Rattle.ft_segments.specs.Packing.{word_at};
ghost use Rattle.ft_segments.specs.Walk.{Placed, ids_of};
ghost use Rattle.ft_changes.specs.Reaches.{reach_of, needed};
ghost use Rattle.ft_changes.specs.Ids.{ids_after};
ghost use Rattle.ft_image.specs.Shown.{Shows};
ghost use Rattle.ft_image.specs.Read.{MayShowAll};
ghost use Rattle.ft_placed.specs.Roots.{sample_root_in};
ghost use Rattle.ft_roots.specs.RootWords.{HasSampleWords};
ghost use Rattle.ft_songedit.specs.Samples.{AtSample, KeptSampleRootOf, HasSampleOf};

use ft_changes::{Reach, an_edit_changes_what_it_reaches};
use ft_image::{Fill, ListedWords, WordView, fill_with, segment_words};
use ft_placed::sample_id;
use ft_roots::{a_sample_has_the_words_of_its_root, change_sample_words, new_sample_words};
use ft_sharing::what_was_reached_fits;
use ft_types::Edit;

/// The words of the root of a sample of an instrument, both from 0, of the song of a root; those of
/// a new sample where the song has no such sample.
fn stored_sample<V: WordView>(view: &mut V, root: u16, at: u16, s: u8) -> [u64; 256]
    ensures narrows { (p : Placed) (s : ℕ) → V.may_show view.new p s → V.may_show view.old p s }
    ensures answer { (p : Placed) (m : Module) → MayShowAll V.may_show view.new p → Shows p m
        → p.root ≡ root → AtSample at s (HasSampleOf result) m (ids_of p) }
    ensures new { (p : Placed) (m : Module) → MayShowAll V.may_show view.new p → Shows p m
        → p.root ≡ root → sample_root_in (ids_of p) at s ≡ None
        → HasSampleWords result new_sample [] }
    ensures same { V.same view.old view.new }
{
    a_sample_has_the_words_of_its_root();
    match sample_id(view, root, at, s) {
        Some(found) => segment_words(view, found),
        None => new_sample_words(),
    }
}

/// Fills the third of the fresh segments with the root of the sample that the edit touched, where
/// its frames stay or it is new. Where it touched no sample, or frames, nothing is filled. All other
/// segments stay.
pub fn write_kept_sample_root<F: Fill>(
    words: &mut F,
    root: u16,
    e: &Edit,
    reach: Reach,
    fresh: &[u16],
)
    requires may { All (F.may_fill words.old) fresh.now }
    ensures narrows { (p : Placed) (s : ℕ)
        → F.may_show words.new p s → F.may_show words.old p s }
    ensures may { (s : ℕ) → F.may_fill words.old s → F.may_fill words.new s }
    ensures written { (p : Placed) (m : Module) → MayShowAll F.may_show words.new p → Shows p m
        → p.root ≡ root → fault_of m e.now ≡ None → reach ≡ reach_of m e.now
        → length fresh.now ≡ needed reach
        → KeptSampleRootOf reach (F.written words.new) (edited m e.now)
        (ids_after reach fresh.now (ids_of p)) }
    ensures others { (s j : ℕ) → s ≢ slice_index fresh.now 2 → j < 256
        → word_at (F.written words.new) s j ≡ word_at (F.written words.old) s j }
    ensures long { length (F.written words.new) ≡ length (F.written words.old) }
    ensures rest { F.rest words.old words.new }
{
    a_sample_has_the_words_of_its_root();
    what_was_reached_fits();
    an_edit_changes_what_it_reaches();
    words.fill_law();
    if let Reach::Sample { at, sample } = reach
        && fresh.len() >= 3
    {
        let mut made = stored_sample(words, root, at, sample);
        change_sample_words(&mut made, e);
        fill_with(words, fresh[2], &ListedWords { words: &made });
    }
}
