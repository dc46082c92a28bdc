//! Laws of the definitions. These functions do nothing; their contracts say what holds.

ghost use Rattle.ft_retire.specs.Laws.{NoMarkIsLeft, CountTells, LivingAreMarked, OneIsLess, GivenLive, UndoneIsBack};

/// What marks say. After they are forgotten none is left. The count is 0 exactly where each segment
/// is marked. Where a version is kept, a segment is marked exactly if it was marked or lives at it.
/// A mark that is set where none was makes the count less by one.
pub fn marks_law()
    ensures forgotten { NoMarkIsLeft }
    ensures count { CountTells }
    ensures kept { LivingAreMarked }
    ensures less { OneIsLess }
{}

/// What versions say. A segment that is born at a version lives at it and from then on, and not
/// before. Where a version is undone, one that was born at it was never born, one that died at it
/// lives on, and a life with neither is as it was.
pub fn lives_law()
    ensures born { GivenLive }
    ensures back { UndoneIsBack }
{}
