//! Laws of the definitions. These functions do nothing; their contracts say what holds.

ghost use Rattle.ft_xmread.specs.Laws.{HasOneAnswer, MemoryIsNoFault};

/// Each file spells one song, or has one fault, and never both.
pub fn one_answer_law()
    ensures { HasOneAnswer }
{}

/// No file has the fault of running out of memory.
pub fn no_file_has_the_fault_of_memory()
    ensures { MemoryIsNoFault }
{}
