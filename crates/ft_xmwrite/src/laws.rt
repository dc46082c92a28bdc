//! Laws of the definitions. These functions do nothing; their contracts say what holds.

ghost use Rattle.std.specs.Prelude.{◌≡◌, ℕ};
ghost use Rattle.ft_types.specs.Blocks.{blocks_of};
ghost use Rattle.ft_xmwrite.specs.Generate.{generated};

/// Each generated song has 425 blocks.
pub fn generated_blocks_law()
    ensures { (number : ℕ) → blocks_of (generated number) ≡ 425 }
{}
