//! Objects that answer the words of placed versions.

ghost use Rattle.std.specs.Prelude.{◌≡◌, ◌≤◌, ◌+◌, ℕ};
ghost use Rattle.ft_segments.specs.Packing.{word_at};
ghost use Rattle.ft_segments.specs.Walk.{Placed};

/// Answers the words of segments, of all versions that it may show.
pub trait WordView {
    // Which segments of which versions it may show.
    ghost may_show: { Self → Placed → ℕ → Type 0 };

    // How many segments it has words of: a word of any other is 0.
    ghost segments: { Self → ℕ };

    // How many words it was asked for, at most.
    ghost work: { Self → ℕ };

    // What a call leaves.
    ghost same: { Self → Self → Type 0 };

    /// The word at a place of a segment, 0 to 255, and 0 of a segment that it hasn't.
    fn word(&mut self, seg: u16, at: u8) -> u64
        ensures narrows { (p : Placed) (s : ℕ) → may_show self.new p s → may_show self.old p s }
        ensures answer { (p : Placed) → may_show self.new p seg → result ≡ word_at p.pool seg at }
        ensures beyond { segments self.old ≤ seg
            → (result ≡ 0) × (work self.new ≡ work self.old) }
        ensures work { (work self.old ≤ work self.new) × (work self.new ≤ work self.old + 1) }
        ensures same { same self.old self.new };

    ghost same_here: { (v : Self) → same v v };

    ghost same_through: { (u v x : Self) → same u v → same v x → same u x };
}
