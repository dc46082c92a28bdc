//! Laws of the texts of edits. These functions have no code; their clauses are what a caller gets.

ghost use Rattle.ft_lines.specs.ReadBack.{EditsAreReadBack, EditsAreReadInSpaces, TextsDiffer, BatchesAreReadBack};
ghost use Rattle.ft_lines.specs.Numerals.{NumbersAreReadBack, SignedAreReadBack, NumbersAreWithin, SignedAreWithin, NumbersArePlain, SignedArePlain, EditsArePlain};
ghost use Rattle.ft_lines.specs.ReadRanges.{LinesAreInRange, ReadEditsAreReadBack, ReadBatchesAreReadBack};

/// The text of an edit says that edit and no time, for every edit whose values are in the ranges of
/// their types, a paste with 1 to 256 frames.
pub fn printed_edits_are_read()
    ensures { EditsAreReadBack }
{}

/// The same text with a space before it, behind it, or both, says that edit too.
pub fn edits_are_read_in_spaces()
    ensures { EditsAreReadInSpaces }
{}

/// A number and an i64 are read from their own digits, and what is read as one is one.
pub fn printed_numbers_are_read()
    ensures back { NumbersAreReadBack }
    ensures signed_back { SignedAreReadBack }
    ensures within { NumbersAreWithin }
    ensures signed_within { SignedAreWithin }
{}

/// No space, no LF and no `;` stands in the digits of a number and in a word of an edit.
pub fn words_are_plain()
    ensures numbers { NumbersArePlain }
    ensures signed { SignedArePlain }
    ensures edits { EditsArePlain }
{}

/// Two such edits that differ have texts that differ.
pub fn different_edits_have_different_texts()
    ensures { TextsDiffer }
{}

/// The text of a batch of such edits says that batch and no time, where it has at most 4,096 bytes.
pub fn printed_batches_are_read()
    ensures { BatchesAreReadBack }
{}

/// What a line says is in the ranges of its types, so it is what its own text says: an edit, and a
/// batch whose text has at most 4,096 bytes.
pub fn read_edits_are_in_range()
    ensures ranges { LinesAreInRange }
    ensures edits { ReadEditsAreReadBack }
    ensures batches { ReadBatchesAreReadBack }
{}
