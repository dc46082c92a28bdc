//! Laws of the definitions. These functions do nothing; their contracts say what holds.

ghost use Rattle.ft_replay.specs.Laws.{OneVersionSounds, TicksGoOn, StateGoesOn};

/// A replay goes on with more versions from where those before leave it.
pub fn replay_law()
    ensures ticks { TicksGoOn }
    ensures state { StateGoesOn }
{}

/// The replay of a song that nobody edits sounds as the song does.
pub fn one_version_law()
    ensures { OneVersionSounds }
{}
