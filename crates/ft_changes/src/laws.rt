//! Laws of the definitions. These functions do nothing; their contracts say what holds.

ghost use Rattle.ft_changes.specs.Laws.{EditReaches, SegmentsBalance, DroppedWereUsed};

/// An edit that isn't refused changes nothing of a valid song but what it reaches.
pub fn an_edit_changes_what_it_reaches()
    ensures { EditReaches }
{}

/// The segments after an edit and those that it drops are, together, those before it and the fresh
/// ones that it filled; those that it drops are of those before it.
pub fn segments_balance()
    ensures balance { SegmentsBalance }
    ensures dropped { DroppedWereUsed }
{}
