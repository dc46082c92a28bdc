//! A whole song put into segments.

ghost use Rattle.std.specs.Prelude.{◌≡◌, ◌≤◌, ◌*◌, ℕ, List, length};
ghost use Rattle.ft_types.specs.Valid.{IsValid};
ghost use Rattle.ft_types.specs.Blocks.{blocks_of};
ghost use Rattle.ft_image.specs.Shown.{ShowsParts};
ghost use Rattle.ft_image.specs.Laid.{song_laid, song_root_word};

use crate::fill_view::Content;
use crate::filling::fill;
use crate::instrument_placing::place_instruments;
use crate::pattern_placing::place_patterns;
use crate::values::{bytes_word, counts_in, head_of, ids_word};
use crate::view::WordView;
use arrayvec::ArrayVec;
use ft_types::Module;

/// The root of a song.
#[derive(Drop)]
pub struct SongRoot<'a, 'b> {
    /// The song.
    pub song: &'a Module,
    /// The segments of the roots of its patterns, in their order.
    pub patterns: &'b [u16],
    /// The segments of the roots of its instruments, in their order.
    pub instruments: &'b [u16],
    ghost valid: { IsValid song.now },
}

impl<'a, 'b> Content for SongRoot<'a, 'b> {
    ghost makes = { λ c p j w. w ≡ song_root_word c.song.now c.patterns.now c.instruments.now j };

    fn word<V: WordView>(&self, _view: &mut V, at: u8) -> u64 {
        let song = self.song;
        if at == 0 {
            return head_of(song);
        }
        if at == 1 {
            return counts_in(song);
        }
        if at < 5 {
            return bytes_word(&song.name, at - 2);
        }
        if at < 8 {
            return bytes_word(&song.tracker, at - 5);
        }
        if at < 40 {
            return bytes_word(song.orders.as_slice(), at - 8);
        }
        if at < 104 {
            let patterns = self.patterns;
            return ids_word(patterns, at - 40);
        }
        if at < 136 {
            let instruments = self.instruments;
            return ids_word(instruments, at - 104);
        }
        0
    }
}

/// Fills all segments of a song, from 0 on.
pub fn place_song(words: &mut [u64], song: &Module)
    requires valid { IsValid song.now }
    requires within { blocks_of song.now ≤ 65535 }
    requires room { length words.old ≡ 256 * blocks_of song.now }
    ensures { ShowsParts words.new song.now (song_laid song.now) }
{
    let mut patterns = ArrayVec::new();
    let mut instruments = ArrayVec::new();
    let next = place_patterns(
        words,
        song.patterns.as_slice(),
        song.channels,
        1,
        &mut patterns,
    );
    place_instruments(words, song.instruments.as_slice(), next, &mut instruments);
    let root = SongRoot {
        song,
        patterns: patterns.as_slice(),
        instruments: instruments.as_slice(),
    };
    fill(words, 0, &root);
}
