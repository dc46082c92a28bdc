//! Laws of the definitions. These functions do nothing; their contracts say what holds.

ghost use Rattle.ft_format.specs.Laws.{SpelledIsValid, CanonicalIsSpelled, CanonicalParts, CanonicalSizes};

/// What bytes spell is a valid song.
pub fn spelled_is_valid()
    ensures { SpelledIsValid }
{}

/// The canonical bytes of a valid song spell it.
pub fn canonical_is_spelled()
    ensures { CanonicalIsSpelled }
{}

/// The canonical bytes are those of the parts, one after the other.
pub fn canonical_parts()
    ensures { CanonicalParts }
{}

/// The parts of the canonical bytes have these sizes.
pub fn canonical_sizes()
    ensures { CanonicalSizes }
{}
