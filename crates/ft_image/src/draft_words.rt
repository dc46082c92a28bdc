//! The writer's pass as a view whose segments may be filled for the next version.

ghost use Rattle.std.specs.Prelude.{◌≡◌, ◌≤◌, ◌<◌, ℕ};
ghost use Rattle.std.proofs.Common.{◌∙◌, refl};
ghost use Rattle.ft_segments.specs.Packing.{word_at};
ghost use Rattle.ft_segments.specs.Walk.{Placed};
ghost use Rattle.ft_shared.specs.Account.{after_fill};
ghost use Rattle.ft_image.specs.Drafts.{IsFillable, MayShowDrafted, HasFilled};
ghost use Rattle.ft_image.specs.Passes.{HasMadeSteps};
ghost use Rattle.ft_image.specs.PassLaws.{steps_nothing, steps_through};

use crate::fill_view::Fill;
use crate::view::WordView;
use crate::writer_words::written_word;
use ft_segments::sample_stays;
use ft_shared::{Shared, WriterPass};

/// The words of a register as the writer last wrote them, to be filled for the next version. It
/// shows each version that is in them and has no segment that may be filled: the current one after
/// a whole scan, and what was made of it so far. A segment may be filled that a whole scan did not
/// find. A word of a segment that the pool hasn't is 0. What it reads isn't counted.
#[derive(Drop)]
pub struct DraftWords<'a, 'b> {
    /// The register that the pass came from.
    pub shared: &'a Shared,
    /// The writer's pass.
    pub pass: &'b mut WriterPass,
    ghost here: { pass.now.register ≡ shared.now },
}

impl<'a, 'b> WordView for DraftWords<'a, 'b> {
    ghost may_show = { λ v p s. MayShowDrafted v.pass.now p s };

    ghost segments = { λ v. v.shared.now.sizes.segments };

    ghost work = { λ v. 0 };

    ghost same = { λ v w. (v.shared.now ≡ w.shared.now)
        × (v.pass.ghost_name ≡ w.pass.ghost_name) × HasMadeSteps v.pass.now w.pass.now };

    ghost same_here = { λ v. (refl, refl, steps_nothing v.pass.now) };

    ghost same_through = { λ u v w e f. (
      e.0 ∙ f.0,
      e.1 ∙ f.1,
      steps_through u.pass.now v.pass.now w.pass.now e.2 f.2,
    ) };

    fn word(&mut self, seg: u16, at: u8) -> u64 {
        drafted_word(self.shared, self.pass, seg, at)
    }
}

impl<'a, 'b> Fill for DraftWords<'a, 'b> {
    ghost written = { λ v. v.pass.now.account.pool };

    ghost may_fill = { λ v s. IsFillable v.pass.now s };

    ghost rest = { λ v w. (v.shared.now ≡ w.shared.now)
        × (v.pass.ghost_name ≡ w.pass.ghost_name) × HasFilled v.pass.now w.pass.now };

    fn fill(&mut self, seg: u16, at: u8, w: u64) {
        draft_word(self.shared, self.pass, seg, at, w);
    }

    fn fill_law(&self) {}
}

/// The word of a segment, and 0 without a step where the pool hasn't the segment.
fn drafted_word(shared: &Shared, pass: &mut WriterPass, seg: u16, at: u8) -> u64
    requires here { pass.old.register ≡ shared.now }
    ensures beyond { shared.now.sizes.segments ≤ seg → (result ≡ 0) × (pass.new ≡ pass.old) }
    ensures narrows { (p : Placed) (s : ℕ)
        → MayShowDrafted pass.new p s → MayShowDrafted pass.old p s }
    ensures answer { (p : Placed) → MayShowDrafted pass.new p seg
        → result ≡ word_at p.pool seg at }
    ensures on { HasMadeSteps pass.old pass.new }
{
    written_word(shared, pass, seg, at)
}

/// Fills a word of a segment for the next version.
fn draft_word(shared: &Shared, pass: &mut WriterPass, seg: u16, at: u8, w: u64)
    requires here { pass.old.register ≡ shared.now }
    requires may { IsFillable pass.old seg }
    ensures filled { pass.new
        ≡ record pass.old { account = after_fill pass.old.account seg at w } }
    ensures may { (s : ℕ) → IsFillable pass.old s → IsFillable pass.new s }
    ensures narrows { (p : Placed) (s : ℕ)
        → MayShowDrafted pass.new p s → MayShowDrafted pass.old p s }
    ensures rest { HasFilled pass.old pass.new }
{
    sample_stays();
    shared.fill(pass, seg, at, w);
}
