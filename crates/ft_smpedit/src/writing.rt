//! The segments of frames that an edit fills for the next version.

ghost use Rattle.std.specs.Prelude.{◌≡◌, ◌≢◌, ◌≤◌, ◌<◌, ◌+◌, ◌*◌, ℕ, List, Some, None, All, length, slice_index};
ghost use Rattle.ft_types.specs.declared.module.Module.{Module};
ghost use Rattle.ft_types.specs.declared.edit.Edit.{Edit as AnEdit};
ghost use Rattle.ft_types.specs.Edits.{IsGivable};
ghost use Rattle.ft_edits.specs.Faults.{fault_of};
ghost use Rattle.ft_edits.specs.Edited.{edited};
ghost use Rattle.ft_changes.specs.Reaches.{reach_of, needed};
ghost use Rattle.ft_changes.specs.Ids.{ids_after};
ghost use Rattle.ft_image.specs.Shown.{Shows};
ghost use Rattle.ft_image.specs.Read.{MayShowAll};
ghost use Rattle.ft_placed.specs.Roots.{sample_root_in};
ghost use Rattle.ft_types.specs.declared.sample.Sample.{Sample};
ghost use Rattle.ft_edits.specs.Changes.{sample_changed};
ghost use Rattle.ft_segments.specs.Packing.{ids_word, word_at};
ghost use Rattle.ft_segments.specs.Walk.{SampleIds, Placed, ids_of};
ghost use Rattle.ft_changes.specs.Parts.{body_ids};
ghost use Rattle.ft_smpedit.specs.Filled.{Refills, AreFilled, AreFilledAt, IsNoSlot, slot_word, index_word};
ghost use Rattle.ft_changes.specs.Laws.{named_in};
ghost use Rattle.ft_smpedit.specs.declared.slots.BodyRange.{BodyRange as ABodyRange};
ghost use Rattle.ft_sharing.specs.Written.{HasWords};
ghost use Rattle.ft_image.specs.Values.{frames_word as word_of_frames};

use crate::reading::read_body;
use crate::slots::{BodyRange, indexes_filled, read_index_ids};
use ft_changes::{Reach, an_edit_changes_what_it_reaches};
use ft_edits::{allowed_edits_name_what_is_there, holds_fields, one_is_changed, valid_stays_valid};
use ft_image::{Content, Fill, FramesBody, WordView, fill_with, ids_word, sample_head};
use ft_sharing::{fresh_frames_are_in_order, what_was_reached_fits};
use ft_types::Edit;

/// Ids that a segment is to have as a row.
#[derive(Drop)]
struct ListedIds<'a> {
    /// The ids.
    ids: &'a [u16],
}

impl<'a> Content for ListedIds<'a> {
    ghost makes = { λ c p j w. w ≡ ids_word c.ids.now j };

    fn word<V: WordView>(&self, _view: &mut V, at: u8) -> u64 {
        ids_word(self.ids, at)
    }
}

/// Fills a segment with an index of the sample of a root after an edit, by its number.
fn write_index<F: Fill>(
    words: &mut F,
    sample: u16,
    range: BodyRange,
    fresh: &[u16],
    k: u32,
    segment: u16,
)
    requires { F.may_fill words.old segment }
    ensures narrows { (p : Placed) (s : ℕ)
        → F.may_show words.new p s → F.may_show words.old p s }
    ensures may { (s : ℕ) → F.may_fill words.old s → F.may_fill words.new s }
    ensures written { (p : Placed) (e : AnEdit) (x : Sample) (old new : SampleIds)
        → Refills F.may_show words.new p sample e range fresh.now x old new → k < 4096
        → HasWords (F.written words.new) segment (index_word (body_ids new) k) }
    ensures others { (s j : ℕ) → s ≢ segment → j < 256
        → word_at (F.written words.new) s j ≡ word_at (F.written words.old) s j }
    ensures long { length (F.written words.new) ≡ length (F.written words.old) }
    ensures rest { F.rest words.old words.new }
{
    words.fill_law();
    let mut ids = [0u16; 1024];
    read_index_ids(words, sample, range, fresh, k, &mut ids);
    fill_with(words, segment, &ListedIds { ids: &ids });
}

/// Fills a segment with a body of frames of the sample of a root after an edit, by its number.
fn write_body<F: Fill>(words: &mut F, sample: u16, e: &Edit, n: u32, segment: u16)
    requires { F.may_fill words.old segment }
    ensures narrows { (p : Placed) (s : ℕ)
        → F.may_show words.new p s → F.may_show words.old p s }
    ensures may { (s : ℕ) → F.may_fill words.old s → F.may_fill words.new s }
    ensures written { (p : Placed) (range : ABodyRange) (fresh : List ℕ) (x : Sample) (old new : SampleIds)
        → Refills F.may_show words.new p sample e.now range fresh x old new
        → HasWords (F.written words.new) segment
        (λ place. word_of_frames (sample_changed e.now x).frames (n * 256 + place)) }
    ensures others { (s j : ℕ) → s ≢ segment → j < 256
        → word_at (F.written words.new) s j ≡ word_at (F.written words.old) s j }
    ensures long { length (F.written words.new) ≡ length (F.written words.old) }
    ensures rest { F.rest words.old words.new }
{
    words.fill_law();
    let head = sample_head(words, sample);
    let mut frames = [0i16; 1024];
    read_body(words, sample, head.frames, head.wide, e, n, &mut frames);
    let content = FramesBody {
        frames: &frames,
        first: 0,
    };
    fill_with(words, segment, &content);
}

/// Fills a fresh segment with the index or the body that it is to be, by its place among the fresh:
/// from 3 on come the indexes, then the bodies.
fn write_slot<F: Fill>(
    words: &mut F,
    sample: u16,
    e: &Edit,
    range: BodyRange,
    fresh: &[u16],
    slot: usize,
)
    requires behind { 3 ≤ slot }
    requires there { slot < length fresh.now }
    requires may { F.may_fill words.old (slice_index fresh.now slot) }
    ensures narrows { (p : Placed) (s : ℕ)
        → F.may_show words.new p s → F.may_show words.old p s }
    ensures may { (s : ℕ) → F.may_fill words.old s → F.may_fill words.new s }
    ensures written { (p : Placed) (x : Sample) (old new : SampleIds)
        → Refills F.may_show words.new p sample e.now range fresh.now x old new
        → HasWords (F.written words.new) (slice_index fresh.now slot)
        (slot_word range (sample_changed e.now x).frames (body_ids new) slot) }
    ensures others { (s j : ℕ) → s ≢ slice_index fresh.now slot → j < 256
        → word_at (F.written words.new) s j ≡ word_at (F.written words.old) s j }
    ensures long { length (F.written words.new) ≡ length (F.written words.old) }
    ensures rest { F.rest words.old words.new }
{
    let segment = fresh[slot];
    let place = slot - 3;
    let indexes = indexes_filled(range) as usize;
    if place < indexes {
        let k = (range.first / 1024).saturating_add(place as u32);
        write_index(words, sample, range, fresh, k, segment);
    } else {
        let n = range
            .first
            .saturating_add((place - indexes).min(4294967295) as u32);
        write_body(words, sample, e, n, segment);
    }
}

/// Fills the fresh segments from 3 on with the indexes and the bodies that they are to be. All
/// other segments stay.
fn write_slots<F: Fill>(words: &mut F, sample: u16, e: &Edit, range: BodyRange, fresh: &[u16])
    requires may { All (F.may_fill words.old) fresh.now }
    ensures narrows { (p : Placed) (s : ℕ)
        → F.may_show words.new p s → F.may_show words.old p s }
    ensures may { (s : ℕ) → F.may_fill words.old s → F.may_fill words.new s }
    ensures written { (p : Placed) (x : Sample) (old new : SampleIds)
        → Refills F.may_show words.new p sample e.now range fresh.now x old new
        → ((s : ℕ) → named_in s fresh.now ≤ 1)
        → AreFilled (F.written words.new) range (sample_changed e.now x) new }
    ensures others { (s j : ℕ) → IsNoSlot fresh.now s → j < 256
        → word_at (F.written words.new) s j ≡ word_at (F.written words.old) s j }
    ensures long { length (F.written words.new) ≡ length (F.written words.old) }
    ensures rest { F.rest words.old words.new }
{
    words.fill_law();
    for slot in 3..fresh.len() {
        write_slot(words, sample, e, range, fresh, slot);
    }
}

/// Fills the indexes and the bodies of frames that an edit touches, for the next version: the fresh
/// segments from 3 on, by the root of the sample before it and the bodies that are filled. All other
/// segments stay.
pub fn write_frames<F: Fill>(words: &mut F, sample: u16, e: &Edit, range: BodyRange, fresh: &[u16])
    requires may { All (F.may_fill words.old) fresh.now }
    ensures narrows { (p : Placed) (s : ℕ)
        → F.may_show words.new p s → F.may_show words.old p s }
    ensures may { (s : ℕ) → F.may_fill words.old s → F.may_fill words.new s }
    ensures written { (p : Placed) (m : Module) (at s : ℕ)
        → MayShowAll F.may_show words.new p → Shows p m
        → sample_root_in (ids_of p) at s ≡ Some sample → IsGivable e.now → fault_of m e.now ≡ None
        → reach_of m e.now ≡ Reach.Frames at s range.first range.last range.gone
        → length fresh.now ≡ needed (reach_of m e.now) → ((s : ℕ) → named_in s fresh.now ≤ 1)
        → AreFilledAt at s (AreFilled (F.written words.new) range) (edited m e.now)
        (ids_after (reach_of m e.now) fresh.now (ids_of p)) }
    ensures others { (s j : ℕ) → IsNoSlot fresh.now s → j < 256
        → word_at (F.written words.new) s j ≡ word_at (F.written words.old) s j }
    ensures long { length (F.written words.new) ≡ length (F.written words.old) }
    ensures rest { F.rest words.old words.new }
{
    allowed_edits_name_what_is_there();
    valid_stays_valid();
    one_is_changed();
    an_edit_changes_what_it_reaches();
    what_was_reached_fits();
    fresh_frames_are_in_order();
    holds_fields(e);
    write_slots(words, sample, e, range, fresh);
}
