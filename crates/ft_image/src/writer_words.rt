//! The writer's pass as a view of the words last written.

ghost use Rattle.std.specs.Prelude.{◌≡◌, ◌≤◌};
ghost use Rattle.std.proofs.Common.{◌∙◌, refl};
ghost use Rattle.ft_segments.specs.Packing.{word_at};
ghost use Rattle.ft_segments.specs.Walk.{Placed};
ghost use Rattle.ft_image.specs.Passes.{MayShowWritten, HasMadeSteps};
ghost use Rattle.ft_image.specs.PassLaws.{steps_nothing, steps_through};

use crate::view::WordView;
use ft_shared::{Shared, WriterPass};

/// The words of a register as the writer last wrote them. It shows each version that is in them, as
/// the current one is until one of its segments is filled. A word of a segment that the pool hasn't
/// is 0. What it reads isn't counted.
#[derive(Drop)]
pub struct WriterWords<'a, 'b> {
    /// The register that the pass came from.
    pub shared: &'a Shared,
    /// The writer's pass.
    pub pass: &'b mut WriterPass,
    ghost here: { pass.now.register ≡ shared.now },
}

impl<'a, 'b> WordView for WriterWords<'a, 'b> {
    ghost may_show = { λ v p s. MayShowWritten v.pass.now p s };

    ghost segments = { λ v. v.shared.now.sizes.segments };

    ghost work = { λ v. 0 };

    ghost same = { λ v w. (v.shared.now ≡ w.shared.now)
        × (v.pass.ghost_name ≡ w.pass.ghost_name) × HasMadeSteps v.pass.now w.pass.now };

    ghost same_here = { λ v. (refl, refl, steps_nothing v.pass.now) };

    ghost same_through = { λ u v w e f. (
      e.0 ∙ f.0,
      e.1 ∙ f.1,
      steps_through u.pass.now v.pass.now w.pass.now e.2 f.2,
    ) };

    fn word(&mut self, seg: u16, at: u8) -> u64 {
        written_word(self.shared, self.pass, seg, at)
    }
}

/// The word of a segment, and 0 without a step where the pool hasn't the segment.
pub(crate) fn written_word(shared: &Shared, pass: &mut WriterPass, seg: u16, at: u8) -> u64
    requires here { pass.old.register ≡ shared.now }
    ensures beyond { shared.now.sizes.segments ≤ seg → (result ≡ 0) × (pass.new ≡ pass.old) }
    ensures answer { (p : Placed) → MayShowWritten pass.new p seg
        → result ≡ word_at p.pool seg at }
    ensures on { HasMadeSteps pass.old pass.new }
{
    if seg >= shared.segments() {
        return 0;
    }
    shared.read(pass, seg, at)
}
