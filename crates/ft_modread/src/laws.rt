//! Laws of the definitions. These functions do nothing; their contracts say what holds.

ghost use Rattle.std.specs.Prelude.{ℕ};
ghost use Rattle.ft_modread.specs.Notes.{IsNearest, nearest_of};
ghost use Rattle.ft_modread.specs.Answers.{HasOneModAnswer};

/// Each period is given the first of the 36 notes whose period is nearest.
pub fn notes_are_nearest()
    ensures { (period : ℕ) → IsNearest period (nearest_of period 35) }
{}

/// Each file spells one module, or has one fault, and never both.
pub fn one_mod_answer()
    ensures { HasOneModAnswer }
{}
