//! Laws of the definitions. These functions do nothing; their contracts say what holds.

ghost use Rattle.ft_words.specs.Laws.{AskForOne};

/// Words ask for one thing, or for none.
pub fn one_asked_law()
    ensures { AskForOne }
{}
