//! The readers' passes that were not handed out yet.
ghost use Rattle.std.specs.Prelude.{◌≡◌, ℕ, ◌+◌, [], ◌∷◌, ◌++◌, MatchOption, IsSomeAnd};
ghost use Rattle.ft_shared.specs.Pass.{RegisterId, fresh_passes, fresh_pass};

use crate::reader::ReaderPass;
use std::marker::Model;

/// The readers' passes that were not handed out yet, which contracts see as a list.
#[derive(Drop)]
pub struct ReaderPasses {
    row: Vec<ReaderPass>,
}

impl Model for ReaderPasses {
    ghost use Rattle.std.specs.Prelude.{List};
    ghost use Rattle.ft_shared.specs.Pass.{ReaderState};

    ghost Value = { List ReaderState };

    ghost view = { λ passes. passes.row.items };
}

impl ReaderPasses {
    pub(crate) fn of_row(row: Vec<ReaderPass>) -> ReaderPasses
        ensures { result ≡ row.items }
    {
        ReaderPasses { row }
    }

    /// The next reader's pass. `None` comes exactly after all of them were given. No
    /// memory is taken.
    pub fn next(&mut self) -> Option<ReaderPass>
        ensures given { MatchOption result
            ((self.old ≡ []) × (self.new ≡ []))
            (λ pass. self.old ≡ self.new ++ pass ∷ []) }
        ensures fresh { (register : RegisterId) (n : ℕ) → self.old ≡ fresh_passes register (n + 1)
            → IsSomeAnd result (λ pass. pass ≡ fresh_pass register n)
            × (self.new ≡ fresh_passes register n) }
    {
        self.row.pop()
    }
}
