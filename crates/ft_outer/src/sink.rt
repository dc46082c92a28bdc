//! Where bytes go.

ghost use Rattle.std.specs.Prelude.{ℕ, ◌<◌, ◌≤◌, List, Option, length, IfOk};
ghost use Rattle.std.specs.Io.KnownBytes.{WriteAppends};
ghost use Rattle.ft_outer.specs.Counts.{HasCause};

use crate::source::Failed;

/// Where bytes go.
pub trait Sink {
    /// The bytes that it took, where they are known.
    ghost held: { Self → Option (List ℕ) };

    /// How often it failed. The count never falls.
    ghost faults: { Self → ℕ };

    /// Takes a front of `piece`, and answers how many bytes: at least one of a `piece` that
    /// isn't empty.
    ///
    /// After `Failed` nothing was taken.
    fn write(&mut self, piece: &[u8]) -> Result<usize, Failed>
        ensures bound { IfOk result (λ n. n ≤ length piece.now) }
        ensures some { IfOk result (λ n. 0 < length piece.now → 0 < n) }

        // At `Ok(n)` the first n bytes of `piece` are appended. `Failed` leaves what it holds.
        ensures bytes { WriteAppends (held self.old) (held self.new) result piece.now }

        ensures cause { HasCause (faults self.old) (faults self.new) result };
}
