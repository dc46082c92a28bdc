//! Segments that are filled, word by word, with what their contents make of a view.

ghost use Rattle.std.specs.Prelude.{◌≡◌, ◌≢◌, ◌≤◌, ◌<◌, ◌+◌, ◌*◌, ℕ, List, length, set};
ghost use Rattle.ft_segments.specs.Packing.{word_at};
ghost use Rattle.ft_segments.specs.Walk.{Placed, SameWords};
ghost use Rattle.ft_image.specs.Read.{MayShowAll};

use crate::view::WordView;

/// A view some of whose segments may be filled. It shows versions that have none of these.
pub trait Fill: WordView {
    // The words as they were last written, 256 for each segment.
    ghost written: { Self → List ℕ };

    // Which segments may be filled.
    ghost may_fill: { Self → ℕ → Type 0 };

    // What fills leave.
    ghost rest: { Self → Self → Type 0 };

    /// Fills the word at a place of a segment, 0 to 255. It changes this word and no other, and
    /// leaves which segments may be filled.
    fn fill(&mut self, seg: u16, at: u8, w: u64)
        requires { may_fill self.old seg }
        ensures words { written self.new ≡ set (written self.old) (seg * 256 + at) w }
        ensures may { (s : ℕ) → may_fill self.old s → may_fill self.new s }
        ensures narrows { (p : Placed) (s : ℕ)
            → Self.may_show self.new p s → Self.may_show self.old p s }
        ensures rest { rest self.old self.new };

    /// What holds of each view that may be filled: what fills leave, nothing, a read and one more
    /// fill leave too; a read leaves the words and which segments may be filled; the words of those
    /// are there. A segment that it shows of a version has the words last written, and may not be
    /// filled. It does nothing.
    fn fill_law(&self)
        ensures here { (a : Self) → rest a a }
        ensures through { (a b c : Self) → rest a b → rest b c → rest a c }
        ensures read { (a b : Self) → Self.same a b → rest a b }
        ensures words { (a b : Self) → Self.same a b → written b ≡ written a }
        ensures may { (a b : Self) (s : ℕ) → Self.same a b → may_fill a s → may_fill b s }
        ensures room { (a : Self) (s : ℕ) → may_fill a s
            → s * 256 + 256 ≤ length (written a) }
        ensures agrees { (a : Self) (p : Placed) (s : ℕ) → s < Self.segments a
            → Self.may_show a p s → SameWords p.pool (written a) s }
        ensures apart { (a : Self) (p : Placed) (s : ℕ) → s < Self.segments a
            → Self.may_show a p s → may_fill a s → ⊥ };
}

/// What the words of one segment are to be.
pub trait Content {
    // Which word may be at a place, by a version that the view may show.
    ghost makes: { Self → Placed → ℕ → ℕ → Type 0 };

    /// The word at a place, 0 to 255.
    fn word<V: WordView>(&self, view: &mut V, at: u8) -> u64
        ensures narrows { (p : Placed) (s : ℕ)
            → V.may_show view.new p s → V.may_show view.old p s }
        ensures made { (p : Placed) → MayShowAll V.may_show view.new p
            → makes self.now p at result }
        ensures same { V.same view.old view.new };
}

/// Fills a segment with a content. The words of all other segments stay.
pub fn fill_with<F: Fill, C: Content>(words: &mut F, segment: u16, content: &C)
    requires { F.may_fill words.old segment }
    ensures narrows { (p : Placed) (s : ℕ)
        → F.may_show words.new p s → F.may_show words.old p s }
    ensures may { (s : ℕ) → F.may_fill words.old s → F.may_fill words.new s }
    ensures filled { (p : Placed) → MayShowAll F.may_show words.new p → (j : ℕ) → j < 256
        → C.makes content.now p j (word_at (F.written words.new) segment j) }
    ensures others { (s j : ℕ) → s ≢ segment → j < 256
        → word_at (F.written words.new) s j ≡ word_at (F.written words.old) s j }
    ensures long { length (F.written words.new) ≡ length (F.written words.old) }
    ensures rest { F.rest words.old words.new }
{
    words.fill_law();
    for j in 0..256u16 {
        let at = j as u8;
        let word = content.word(words, at);
        words.fill(segment, at, word);
    }
}
