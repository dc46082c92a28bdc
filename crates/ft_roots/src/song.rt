//! The ids in the root of a song.

ghost use Rattle.std.specs.Prelude.{◌≡◌, ◌≤◌, ◌<◌, ℕ, List, All, length, map, slice_index};
ghost use Rattle.ft_types.specs.declared.module.Module.{Module};
ghost use Rattle.ft_edits.specs.Lists.{without_last};
ghost use Rattle.ft_changes.specs.Parts.{put};
ghost use Rattle.ft_segments.specs.Packing.{word_at};
ghost use Rattle.ft_segments.specs.Walk.{Placed, ids_of};
ghost use Rattle.ft_image.specs.Laid.{song_root_word};
ghost use Rattle.ft_image.specs.Shown.{Shows};
ghost use Rattle.ft_roots.specs.RootWords.{HasSongWords};

use ft_image::{other_words_stay, with_id};

/// Puts the root of a pattern in place of another, or behind the last.
pub fn put_pattern_id(words: &mut [u64; 256], pattern: u16, id: u16)
    requires { pattern < 256 }
    ensures { (m : Module) (patterns instruments : List ℕ) → All (λ x. x < 65536) patterns
        → pattern ≤ length patterns → HasSongWords words.old m patterns instruments
        → HasSongWords words.new m (put pattern id patterns) instruments }
{
    other_words_stay();
    let at = 40 + usize::from(pattern / 4);
    words[at] = with_id(words[at], (pattern % 4) as u8, id);
}

/// Takes the last root of so many patterns out.
pub fn drop_pattern_id(words: &mut [u64; 256], count: u16)
    requires { (1 ≤ count) × (count ≤ 256) }
    ensures { (m : Module) (patterns instruments : List ℕ) → All (λ x. x < 65536) patterns
        → length patterns ≡ count → HasSongWords words.old m patterns instruments
        → HasSongWords words.new m (without_last patterns) instruments }
{
    other_words_stay();
    let last = count - 1;
    let at = 40 + usize::from(last / 4);
    words[at] = with_id(words[at], (last % 4) as u8, 0);
}

/// Puts the root of an instrument, from 0, in place of another, or behind the last.
pub fn put_instrument_id(words: &mut [u64; 256], instrument: u16, id: u16)
    requires { instrument < 128 }
    ensures { (m : Module) (patterns instruments : List ℕ) → All (λ x. x < 65536) instruments
        → instrument ≤ length instruments → HasSongWords words.old m patterns instruments
        → HasSongWords words.new m patterns (put instrument id instruments) }
{
    other_words_stay();
    let at = 104 + usize::from(instrument / 4);
    words[at] = with_id(words[at], (instrument % 4) as u8, id);
}

/// An array that holds the words of a song has at each place the word of its root.
pub fn song_words_are_those_of_the_root()
    ensures { (words : List ℕ) (m : Module) (patterns instruments : List ℕ)
        → HasSongWords words m patterns instruments → (place : ℕ) → place < 256
        → slice_index words place ≡ song_root_word m patterns instruments place }
{}

/// The words of the root of a shown song are those of the song, with the roots that its walk finds.
pub fn a_shown_song_has_its_words()
    ensures words { (words : List ℕ) (placed : Placed) (m : Module) → Shows placed m
        → ((place : ℕ) → place < 256
        → slice_index words place ≡ word_at placed.pool placed.root place)
        → HasSongWords words m (map (λ pattern. pattern.root) (ids_of placed).patterns)
        (map (λ instrument. instrument.root) (ids_of placed).instruments) }
    ensures small { (placed : Placed)
        → All (λ x. x < 65536) (map (λ pattern. pattern.root) (ids_of placed).patterns)
        × All (λ x. x < 65536) (map (λ instrument. instrument.root) (ids_of placed).instruments) }
{}
