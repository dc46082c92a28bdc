//! The first word of a command line.

ghost use Rattle.std.specs.Prelude.{◌≡◌};
ghost use Rattle.ft_words.specs.Refused.{verb_named};

/// A command, as the first word names it.
#[derive(Clone, Copy, Debug, PartialEq, Eq)]
pub enum Verb {
    /// Plays a song into a WAV file and a ledger.
    Step,
    /// Reads a song and writes it again.
    Copy,
    /// Makes the song of a number.
    Gen,
    /// Reads a ProTracker module and writes its song.
    Import,
}

/// The command that a word names.
pub fn verb_of(word: &str) -> Option<Verb>
    ensures { result ≡ verb_named word.now }
{
    if word == "step" {
        Some(Verb::Step)
    } else if word == "copy" {
        Some(Verb::Copy)
    } else if word == "gen" {
        Some(Verb::Gen)
    } else if word == "import" {
        Some(Verb::Import)
    } else {
        None
    }
}
