//! A law of the definitions. The function does nothing; its contract says what holds.

ghost use Rattle.ft_play.specs.Laws.{SoundsAgree};

/// The sound of a song's voices is the sound of its lanes.
pub fn sounds_agree_law()
    ensures { SoundsAgree }
{}
