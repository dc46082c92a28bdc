//! What a view over a module keeps, channel by channel.

ghost use Rattle.std.specs.Prelude.{◌≡◌, ◌≤◌, ◌<◌, ◌+◌, ℕ, [], None, Some, true, map, get_or, set, is_some, FitsSigned, length};
ghost use Rattle.ft_types.specs.declared.voice.SampleHead.{SampleHead as Head};
ghost use Rattle.ft_types.specs.Valid.{width_of};
ghost use Rattle.ft_types.specs.Views.{head_of_owned, frame_of, AreFramesFrom, FitWidth};
ghost use Rattle.ft_types.specs.ModuleViews.{owned_in, words_kept};
ghost use Rattle.ft_types.specs.Work as work_of;

use crate::kept::Kept;
use arrayvec::ArrayVec;

/// A channel keeps this.
pub fn put<'a>(slots: &mut ArrayVec<Option<Kept<'a>>, 32>, channel: u8, kept: Option<Kept<'a>>)
    requires { channel < length slots.old.items }
    ensures { slots.new.items ≡ set slots.old.items channel kept.entry }
{
    slots.as_mut_slice()[usize::from(channel)] = kept;
}

/// The frame at a place of a kept sample, whose word is asked for.
fn ask_one(kept: &mut Option<Kept>, place: u32) -> i16
    requires kept { is_some kept.old ≡ true }
    ensures value { (version : ℕ) → result ≡ frame_of (owned_in version kept.old) place }
    ensures range { (h : Head) → head_of_owned (owned_in 0 kept.old) ≡ Some h
        → FitsSigned (width_of h.wide) result }
    ensures owned { (version : ℕ) → owned_in version kept.new ≡ owned_in version kept.old }
    ensures some { is_some kept.new ≡ true }
    ensures words { words_kept kept.new
        ≡ work_of.asked (work_of.word_of place) (words_kept kept.old) }
{
    let Some(found) = kept else {
        return 0;
    };
    found.words.ask(place / 4);
    match found.frames.get(place as usize) {
        Some(frame) => *frame,
        None => 0,
    }
}

/// The frame at a place of the sample that a channel keeps, whose word is asked for.
pub fn ask(slots: &mut ArrayVec<Option<Kept>, 32>, channel: u8, place: u32) -> i16
    requires channel { channel < length slots.old.items }
    requires kept { is_some (get_or slots.old.items channel None) ≡ true }
    ensures value { (version : ℕ) → result
        ≡ frame_of (get_or (map (owned_in version) slots.old.items) channel None) place }
    ensures range { (h : Head)
        → head_of_owned (owned_in 0 (get_or slots.old.items channel None)) ≡ Some h
        → FitsSigned (width_of h.wide) result }
    ensures owned { (version : ℕ) → map (owned_in version) slots.new.items
        ≡ map (owned_in version) slots.old.items }
    ensures some { map is_some slots.new.items ≡ map is_some slots.old.items }
    ensures words { map words_kept slots.new.items ≡ set (map words_kept slots.old.items) channel
        (work_of.asked (work_of.word_of place)
        (get_or (map words_kept slots.old.items) channel [])) }
    ensures many { length slots.new.items ≡ length slots.old.items }
{
    ask_one(&mut slots.as_mut_slice()[usize::from(channel)], place)
}

/// Writes the frames from a place on of a kept sample, whose words are asked for in turn.
fn ask_all_of(kept: &mut Option<Kept>, first: u32, out: &mut [i16])
    requires some { 1 ≤ length out.old }
    requires inside { (h : Head) × (head_of_owned (owned_in 0 kept.old) ≡ Some h)
        × (first + length out.old ≤ h.frames) }
    ensures values { (version : ℕ) → AreFramesFrom (owned_in version kept.old) first out.new }
    ensures range { (h : Head) → head_of_owned (owned_in 0 kept.old) ≡ Some h
        → FitWidth h.wide out.new }
    ensures many { length out.new ≡ length out.old }
    ensures owned { (version : ℕ) → owned_in version kept.new ≡ owned_in version kept.old }
    ensures some { is_some kept.new ≡ true }
    ensures words { words_kept kept.new ≡ work_of.asked_all (work_of.word_of first)
        (work_of.last_word first (length out.old)) (words_kept kept.old) }
{
    let Some(found) = kept else {
        return;
    };
    let past = first as usize + out.len();
    found.words.ask_all(first / 4, (past as u32 - 1) / 4);
    out.copy_from_slice(&found.frames[first as usize..past]);
}

/// Writes the frames from a place on of the sample that a channel keeps, whose words are asked for in
/// turn.
pub fn ask_all(slots: &mut ArrayVec<Option<Kept>, 32>, channel: u8, first: u32, out: &mut [i16])
    requires channel { channel < length slots.old.items }
    requires some { 1 ≤ length out.old }
    requires inside { (h : Head)
        × (head_of_owned (owned_in 0 (get_or slots.old.items channel None)) ≡ Some h)
        × (first + length out.old ≤ h.frames) }
    ensures values { (version : ℕ) → AreFramesFrom
        (get_or (map (owned_in version) slots.old.items) channel None) first out.new }
    ensures range { (h : Head)
        → head_of_owned (owned_in 0 (get_or slots.old.items channel None)) ≡ Some h
        → FitWidth h.wide out.new }
    ensures many { length out.new ≡ length out.old }
    ensures owned { (version : ℕ) → map (owned_in version) slots.new.items
        ≡ map (owned_in version) slots.old.items }
    ensures some { map is_some slots.new.items ≡ map is_some slots.old.items }
    ensures words { map words_kept slots.new.items ≡ set (map words_kept slots.old.items) channel
        (work_of.asked_all (work_of.word_of first) (work_of.last_word first (length out.old))
        (get_or (map words_kept slots.old.items) channel [])) }
    ensures slots { length slots.new.items ≡ length slots.old.items }
{
    ask_all_of(&mut slots.as_mut_slice()[usize::from(channel)], first, out);
}
