//! The song root of the next version.

ghost use Rattle.std.specs.Prelude.{◌≡◌, ◌≢◌, ◌≤◌, ◌<◌, ℕ, List, All, None, length, slice_index};
ghost use Rattle.ft_types.specs.declared.module.Module.{Module};
ghost use Rattle.ft_types.specs.Valid.{IsValid};
ghost use Rattle.ft_edits.specs.Faults.{fault_of};
ghost use Rattle.ft_edits.specs.Edited.{edited};
ghost use Rattle.ft_segments.specs.Packing.{word_at};
ghost use Rattle.ft_edits.specs.Lists.{without_last};
ghost use Rattle.ft_segments.specs.Walk.{SampleIds, SongIds, Placed, ids_of};
ghost use Rattle.ft_changes.specs.Reaches.{reach_of, needed};
ghost use Rattle.ft_changes.specs.Ids.{with_bodies_at, with_samples_at, ids_after};
ghost use Rattle.ft_changes.specs.Fits.{TakesFresh};
ghost use Rattle.ft_image.specs.Shown.{Shows};
ghost use Rattle.ft_image.specs.Read.{MayShowAll};
ghost use Rattle.ft_sharing.specs.Written.{RootIsWritten, pattern_roots, instrument_roots};
ghost use Rattle.ft_songedit.specs.Small.{IsSmallReach, HasRootsOf};
ghost use Rattle.ft_roots.specs.RootWords.{HasSongWords};

use ft_changes::{Reach, an_edit_changes_what_it_reaches};
use ft_edits::{holds_fields, valid_stays_valid};
use ft_image::{Fill, ListedWords, fill_with, segment_words};
use ft_roots::{
    a_shown_song_has_its_words, change_song_words, drop_pattern_id, put_instrument_id,
    put_pattern_id, song_words_are_those_of_the_root,
};
use ft_sharing::what_was_reached_fits;
use ft_types::Edit;

/// How many patterns the words of a song root name.
fn pattern_count(words: &[u64; 256]) -> u16
    ensures { (m : Module) (patterns instruments : List ℕ) → IsValid m
        → HasSongWords words.now m patterns instruments → result ≡ length m.patterns }
{
    (words[1] % 65536) as u16
}

/// Puts the fresh root of a pattern into the root of its song.
fn put_fresh_pattern(words: &mut [u64; 256], pattern: u16, fresh: &[u16])
    ensures { (m : Module) (ids : SongIds) (bodies : List ℕ) → pattern < 256
        → pattern ≤ length ids.patterns → 2 ≤ length fresh.now
        → All (λ x. x < 65536) (pattern_roots ids)
        → HasSongWords words.old m (pattern_roots ids) (instrument_roots ids)
        → HasRootsOf words.new m (with_bodies_at pattern bodies fresh.now ids) }
{
    if pattern < 256 && fresh.len() >= 2 {
        put_pattern_id(words, pattern, fresh[1]);
    }
}

/// Puts the fresh root of an instrument into the root of its song.
fn put_fresh_instrument(words: &mut [u64; 256], at: u16, fresh: &[u16])
    ensures { (m : Module) (ids : SongIds) (samples : List SampleIds) → at < 128
        → at ≤ length ids.instruments → 2 ≤ length fresh.now
        → All (λ x. x < 65536) (instrument_roots ids)
        → HasSongWords words.old m (pattern_roots ids) (instrument_roots ids)
        → HasRootsOf words.new m (with_samples_at at samples fresh.now ids) }
{
    if at < 128 && fresh.len() >= 2 {
        put_instrument_id(words, at, fresh[1]);
    }
}

/// Takes the last pattern out of the root of a song.
fn drop_last_pattern(words: &mut [u64; 256])
    ensures { (m : Module) (ids : SongIds) → IsValid m
        → length ids.patterns ≡ length m.patterns
        → All (λ x. x < 65536) (pattern_roots ids)
        → HasSongWords words.old m (pattern_roots ids) (instrument_roots ids)
        → HasSongWords words.new m (without_last (pattern_roots ids)) (instrument_roots ids) }
{
    let count = pattern_count(words);
    if count >= 1 && count <= 256 {
        drop_pattern_id(words, count);
    }
}

/// Puts the fresh root of the pattern or the instrument that an edit touched into the root of the
/// song, in place of the one before or behind the last, or takes the last pattern out.
fn put_roots(words: &mut [u64; 256], reach: Reach, fresh: &[u16])
    ensures { (m : Module) (ids : SongIds) → IsValid m → TakesFresh reach fresh.now ids
        → length ids.patterns ≡ length m.patterns → IsSmallReach reach
        → All (λ x. x < 65536) (pattern_roots ids) → All (λ x. x < 65536) (instrument_roots ids)
        → HasSongWords words.old m (pattern_roots ids) (instrument_roots ids)
        → HasRootsOf words.new m (ids_after reach fresh.now ids) }
{
    match reach {
        Reach::Song => {}
        Reach::LastPattern => drop_last_pattern(words),
        Reach::Cell { pattern, .. } => put_fresh_pattern(words, pattern, fresh),
        Reach::Pattern { pattern, .. } => put_fresh_pattern(words, pattern, fresh),
        Reach::Instrument { at } => put_fresh_instrument(words, at, fresh),
        Reach::Bare { at } => put_fresh_instrument(words, at, fresh),
        Reach::LastSample { at } => put_fresh_instrument(words, at, fresh),
        Reach::Sample { at, .. } => put_fresh_instrument(words, at, fresh),
        Reach::Frames { at, .. } => put_fresh_instrument(words, at, fresh),
    }
}

/// Fills the first of the fresh segments with the root of the song after an edit, which names the
/// root of the pattern or of the instrument that it touched. All other segments stay.
pub fn write_song_root<F: Fill>(words: &mut F, root: u16, e: &Edit, reach: Reach, fresh: &[u16])
    requires some { 1 ≤ length fresh.now }
    requires may { All (F.may_fill words.old) fresh.now }
    ensures narrows { (p : Placed) (s : ℕ)
        → F.may_show words.new p s → F.may_show words.old p s }
    ensures may { (s : ℕ) → F.may_fill words.old s → F.may_fill words.new s }
    ensures written { (p : Placed) (m : Module) → MayShowAll F.may_show words.new p → Shows p m
        → p.root ≡ root → fault_of m e.now ≡ None → reach ≡ reach_of m e.now
        → length fresh.now ≡ needed reach
        → RootIsWritten (F.written words.new) (edited m e.now)
        (ids_after reach fresh.now (ids_of p)) }
    ensures others { (s j : ℕ) → s ≢ slice_index fresh.now 0 → j < 256
        → word_at (F.written words.new) s j ≡ word_at (F.written words.old) s j }
    ensures long { length (F.written words.new) ≡ length (F.written words.old) }
    ensures rest { F.rest words.old words.new }
{
    a_shown_song_has_its_words();
    song_words_are_those_of_the_root();
    what_was_reached_fits();
    valid_stays_valid();
    an_edit_changes_what_it_reaches();
    words.fill_law();
    holds_fields(e);
    let mut made = segment_words(words, root);
    put_roots(&mut made, reach, fresh);
    change_song_words(&mut made, e);
    fill_with(words, fresh[0], &ListedWords { words: &made });
}
