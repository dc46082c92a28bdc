//! Laws of the definitions. These functions do nothing; their contracts say what holds.

ghost use Rattle.ft_desk.specs.Laws.{SegmentsAreParts, PartsDiffer, EntriesDiffer, DesksFit, MarkedIsFound, UnmarkedIsNotFound};

use ft_retire::marks_law;

/// The segments of a version are its parts.
pub fn segments_are_parts()
    ensures { SegmentsAreParts }
{}

/// Different segments of a version are different parts of it, and different segments of a pool have
/// different entries in the list of parts.
pub fn different_segments_are_different_parts()
    ensures parts { PartsDiffer }
    ensures entries { EntriesDiffer }
{}

/// What the marks after a scan say. Births fit each version of a desk that was not written since.
/// Where they fit, and all is kept that a scan answered, versions and pinned roots, just the
/// segments are marked that the scan found. So what `give` answers then was not found.
pub fn marked_is_found()
    ensures fit { DesksFit }
    ensures marked { MarkedIsFound }
    ensures given { UnmarkedIsNotFound }
{
    marks_law();
}
