//! The writer reads and fills the words of the pool.
ghost use Rattle.std.specs.Prelude.{◌≡◌, ◌<◌};
ghost use Rattle.ft_segments.specs.Packing.{word_at};
ghost use Rattle.ft_shared.specs.Account.{MayFill, after_read, after_fill};

use crate::plays::{Fill, ReadPool};
use crate::shared::Shared;
use crate::writer::WriterPass;
use ft_segments::held_by_a_pin_is_named;

impl Shared {
    /// The word `at` of the segment `seg` as it was last written. One load.
    pub fn read(&self, pass: &mut WriterPass, seg: u16, at: u8) -> u64
        requires same { pass.old.register ≡ self.now }
        requires segment { seg < self.now.sizes.segments }
        ensures noted { pass.new
            ≡ record pass.old { account = after_read pass.old.account seg at } }
        ensures word { result ≡ word_at pass.old.account.pool seg at }
    {
        let word = self.word_of(seg, at);
        self.words.scan_load::<ReadPool>(&mut pass.place, word)
    }

    /// Fills the word `at` of the segment `seg` with `w`, for the next version. The scan must
    /// be whole, and not have found the segment. One store.
    pub fn fill(&self, pass: &mut WriterPass, seg: u16, at: u8, w: u64)
        requires same { pass.old.register ≡ self.now }
        requires segment { seg < self.now.sizes.segments }
        requires free { MayFill self.now.sizes pass.old.account seg }
        ensures { pass.new
            ≡ record pass.old { account = after_fill pass.old.account seg at w } }
    {
        held_by_a_pin_is_named();
        let word = self.word_of(seg, at);
        self.words.store::<Fill>(&mut pass.place, word, w);
    }
}
