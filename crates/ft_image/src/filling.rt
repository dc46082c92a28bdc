//! Segments of a slice filled with words.

ghost use Rattle.std.specs.Prelude.{◌≡◌, ◌≢◌, ◌≤◌, ◌<◌, ◌+◌, ◌*◌, ◌/◌, ℕ, [], length, refl};
ghost use Rattle.std.proofs.Common.{◌∙◌};
ghost use Rattle.ft_segments.specs.Packing.{word_at};
ghost use Rattle.ft_image.specs.Shown.{no_version};

use crate::fill_view::{Content, Fill, fill_with};
use crate::view::WordView;

/// Words of no version, which are to be filled. It shows a version without words alone, and answers
/// 0 for each of its words.
#[derive(Drop)]
pub struct BlankWords<'a> {
    /// The words, 256 for each segment, from segment 0 on.
    pub words: &'a mut [u64],
}

impl<'a> WordView for BlankWords<'a> {
    ghost may_show = { λ v p s. p ≡ no_version };

    ghost segments = { λ v. 0 };

    ghost work = { λ v. 0 };

    ghost same = { λ v w. (v.words.ghost_name ≡ w.words.ghost_name)
        × (w.words.now ≡ v.words.now) };

    ghost same_here = { λ v. (refl, refl) };

    ghost same_through = { λ u v w e f. (e.0 ∙ f.0, f.1 ∙ e.1) };

    fn word(&mut self, _seg: u16, _at: u8) -> u64 {
        0
    }
}

impl<'a> Fill for BlankWords<'a> {
    ghost written = { λ v. v.words.now };

    ghost may_fill = { λ v s. s * 256 + 256 ≤ length v.words.now };

    ghost rest = { λ v w. v.words.ghost_name ≡ w.words.ghost_name };

    fn fill(&mut self, seg: u16, at: u8, w: u64) {
        self.words[usize::from(seg) * 256 + usize::from(at)] = w;
    }

    fn fill_law(&self) {}
}

/// Fills a segment of a pool with a content that asks for no words of a version.
pub fn fill<C: Content>(words: &mut [u64], segment: u16, content: &C)
    requires { segment * 256 + 256 ≤ length words.old }
    ensures filled { (j : ℕ) → j < 256
        → C.makes content.now no_version j (word_at words.new segment j) }
    ensures others { (s j : ℕ) → s ≢ segment → j < 256
        → word_at words.new s j ≡ word_at words.old s j }
{
    let mut blank = BlankWords { words };
    fill_with(&mut blank, segment, content);
}
