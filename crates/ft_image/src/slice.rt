//! A slice of words as a view.

ghost use Rattle.std.specs.Prelude.{◌≡◌, ◌+◌, ◌/◌, length, refl};
ghost use Rattle.std.proofs.Common.{◌∙◌};

use crate::view::WordView;

/// The words of a pool, 256 for each segment, from segment 0 on. It shows each version in them.
/// Words past its end are 0.
#[derive(Drop)]
pub struct SliceWords<'a> {
    /// The words of the pool.
    pub words: &'a [u64],
}

impl<'a> WordView for SliceWords<'a> {
    ghost may_show = { λ v p s. p.pool ≡ v.words.now };

    ghost segments = { λ v. (length v.words.now + 255) / 256 };

    ghost work = { λ v. 0 };

    ghost same = { λ v w. v.words.now ≡ w.words.now };

    ghost same_here = { λ v. refl };

    ghost same_through = { λ u v x e f. e ∙ f };

    fn word(&mut self, seg: u16, at: u8) -> u64 {
        let place = usize::from(seg) * 256 + usize::from(at);
        if place < self.words.len() {
            return self.words[place];
        }
        0
    }
}
