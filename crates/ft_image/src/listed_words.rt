//! The words of a segment as an array.

ghost use Rattle.std.specs.Prelude.{◌≡◌, ◌<◌, ℕ, slice_index};
ghost use Rattle.ft_segments.specs.Packing.{word_at};
ghost use Rattle.ft_segments.specs.Walk.{Placed};

use crate::fill_view::Content;
use crate::view::WordView;

/// The words of a segment, by their places.
pub fn segment_words<V: WordView>(view: &mut V, segment: u16) -> [u64; 256]
    ensures narrows { (p : Placed) (s : ℕ) → V.may_show view.new p s → V.may_show view.old p s }
    ensures answer { (p : Placed) → V.may_show view.new p segment → (k : ℕ) → k < 256
        → slice_index result k ≡ word_at p.pool segment k }
    ensures same { V.same view.old view.new }
{
    let mut words = [0; 256];
    for at in 0..256u16 {
        words[usize::from(at)] = view.word(segment, at as u8);
    }
    words
}

/// Words that a segment is to have, by their places.
#[derive(Drop)]
pub struct ListedWords<'a> {
    /// The words.
    pub words: &'a [u64; 256],
}

impl<'a> Content for ListedWords<'a> {
    ghost makes = { λ c p j w. w ≡ slice_index c.words.now j };

    fn word<V: WordView>(&self, _view: &mut V, at: u8) -> u64 {
        self.words[usize::from(at)]
    }
}
