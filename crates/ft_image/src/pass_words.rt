//! A reader's pass as a view of the version that it holds.

ghost use Rattle.std.specs.Prelude.{◌≡◌, ◌≤◌, ◌+◌, ℕ, IsSome};
ghost use Rattle.std.proofs.Common.{◌∙◌, refl};
ghost use Rattle.ft_segments.specs.Packing.{word_at};
ghost use Rattle.ft_segments.specs.Walk.{Placed};
ghost use Rattle.ft_image.specs.Passes.{MayShowHeld, HasReadOn, AreCounted};
ghost use Rattle.ft_image.specs.PassLaws.{reads_nothing, reads_through, counted_through};

use crate::view::WordView;
use ft_shared::{
    ReaderPass, Shared, a_history_agrees_with_fewer_reads, a_read_word_is_that_of_its_version,
};
use ft_types::Steps;
use std::sync::ledger::Ledger;

/// The words of a register by a reader's pass that holds a version. It shows that version, by any
/// history that agrees with what the pass noted. A word of a segment that the pool hasn't is 0.
#[derive(Drop)]
pub struct PassWords<'a, 'b, 'c, L: Ledger> {
    /// The register that the pass came from.
    pub shared: &'a Shared,
    /// The pass.
    pub pass: &'b mut ReaderPass,
    /// Counts one step a word.
    pub steps: &'c mut Steps<L>,
    ghost here: { pass.now.register ≡ shared.now },
    ghost held: { IsSome pass.now.notes.held },
}

impl<'a, 'b, 'c, L: Ledger> WordView for PassWords<'a, 'b, 'c, L> {
    ghost may_show = { λ v p s. MayShowHeld v.pass.now p s };

    ghost segments = { λ v. v.shared.now.sizes.segments };

    ghost work = { λ v. v.steps.now };

    ghost same = { λ v w. (v.shared.now ≡ w.shared.now)
        × (v.pass.ghost_name ≡ w.pass.ghost_name) × (v.steps.ghost_name ≡ w.steps.ghost_name)
        × HasReadOn v.pass.now w.pass.now
        × AreCounted v.pass.now w.pass.now v.steps.now w.steps.now };

    ghost same_here = { λ v. (refl, refl, refl, reads_nothing v.pass.now, refl) };

    ghost same_through = { λ u v w e f. (
      e.0 ∙ f.0,
      e.1 ∙ f.1,
      e.2 ∙ f.2,
      reads_through u.pass.now v.pass.now w.pass.now e.3 f.3,
      counted_through u.pass.now v.pass.now w.pass.now
          u.steps.now v.steps.now w.steps.now e.4 f.4,
    ) };

    fn word(&mut self, seg: u16, at: u8) -> u64 {
        held_word(self.shared, self.pass, seg, at, self.steps)
    }
}

/// The word of a segment, and 0 without a step where the pool hasn't the segment.
fn held_word<L: Ledger>(
    shared: &Shared,
    pass: &mut ReaderPass,
    seg: u16,
    at: u8,
    steps: &mut Steps<L>,
) -> u64
    requires here { pass.old.register ≡ shared.now }
    requires held { IsSome pass.old.notes.held }
    ensures beyond { shared.now.sizes.segments ≤ seg
        → (result ≡ 0) × (pass.new ≡ pass.old) × (steps.new ≡ steps.old) }
    ensures narrows { (p : Placed) (s : ℕ) → MayShowHeld pass.new p s → MayShowHeld pass.old p s }
    ensures answer { (p : Placed) → MayShowHeld pass.new p seg → result ≡ word_at p.pool seg at }
    ensures on { HasReadOn pass.old pass.new }
    ensures counted { AreCounted pass.old pass.new steps.old steps.new }
    ensures work { (steps.old ≤ steps.new) × (steps.new ≤ steps.old + 1) }
{
    a_history_agrees_with_fewer_reads();
    a_read_word_is_that_of_its_version();
    if seg >= shared.segments() {
        return 0;
    }
    shared.word(pass, seg, at, steps)
}
