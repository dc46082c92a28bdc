//! Where bytes come from.

ghost use Rattle.std.specs.Prelude.{◌≡◌, ℕ, List, Option, IfOk, OnErr};
ghost use Rattle.std.specs.Io.{ReadsAtMost};
ghost use Rattle.std.specs.Io.KnownBytes.{ReadConsumes};
ghost use Rattle.ft_outer.specs.Counts.{HasCause, count_after};

/// The outside failed, and counted it.
#[derive(Clone, Copy, Debug, PartialEq, Eq)]
pub struct Failed;

/// Where bytes come from.
pub trait Source {
    /// The bytes that are left, where they are known.
    ghost left: { Self → Option (List ℕ) };

    /// How many bytes it gave, known or not. The count stays at the greatest u64.
    ghost given: { Self → ℕ };

    /// How often it failed. The count never falls.
    ghost faults: { Self → ℕ };

    /// Gives the next bytes into the front of `buf`, and answers how many.
    ///
    /// 0 for a `buf` that isn't empty is the end: where what is left is known, nothing is. After
    /// `Failed` nothing was given.
    fn read(&mut self, buf: &mut [u8]) -> Result<usize, Failed>
        ensures bound { ReadsAtMost result buf.new }

        // At `Ok(n)` the first n bytes of `buf` are the front of what was left, and 0 is the
        // end. `Failed` leaves what is left.
        ensures bytes { ReadConsumes (left self.old) (left self.new) result buf.new }

        ensures counted { IfOk result (λ n. given self.new ≡ count_after (given self.old) n) }
        ensures uncounted { OnErr result (given self.new ≡ given self.old) }

        ensures cause { HasCause (faults self.old) (faults self.new) result };
}
