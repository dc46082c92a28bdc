//! Laws of edits in parts. These functions have no code; their clauses are what a caller gets.

ghost use Rattle.ft_types.specs.EditParts.{EditsAreWhole, PartsAreKept, NamesAreOfOne, FramesAreGiven};

/// An edit whose values are in the ranges of their types is the edit of its parts, and parts that
/// follow the table are those of their edit.
#[tactic(auto, using(crate::proofs::WholeEdits::is_whole, crate::proofs::WholeEdits::are_kept))]
pub fn edits_are_their_parts()
    ensures edits { EditsAreWhole }
    ensures parts { PartsAreKept }
{}

/// Each name in the table is that of one kind, and an edit can be given exactly where its frames can.
#[tactic(auto, using(crate::proofs::WholeEdits::names_differ, crate::proofs::WholeEdits::frames_given, crate::proofs::WholeEdits::given_frames))]
pub fn each_name_is_of_one_kind()
    ensures names { NamesAreOfOne }
    ensures frames { FramesAreGiven }
{}
