//! Laws of the definitions. These functions do nothing; their contracts say what holds.

ghost use Rattle.ft_edits.specs.Laws.{EditedIsValid, AllowedIsThere, AppliedIsValid, BatchIsValid, VersionsAreValid, ChangesPattern, ChangesInstrument, ChangesSamples, ChangesFrames};

/// What an edit, a batch or a journal makes of a valid song is a valid song.
pub fn valid_stays_valid()
    ensures edited { EditedIsValid }
    ensures applied { AppliedIsValid }
    ensures batch { BatchIsValid }
    ensures versions { VersionsAreValid }
{}

/// An edit that isn't refused names rows, channels, orders and frames that are there.
pub fn allowed_edits_name_what_is_there()
    ensures { AllowedIsThere }
{}

/// An edit of a pattern, an instrument or a sample changes the one that it names, and leaves all
/// else of the song.
pub fn one_is_changed()
    ensures patterns { ChangesPattern }
    ensures instruments { ChangesInstrument }
    ensures samples { ChangesSamples }
    ensures frames { ChangesFrames }
{}
