//! Laws of the definitions. These functions do nothing; their contracts say what holds.

ghost use Rattle.ft_out.specs.Laws.{SoundInTurn};

/// The bytes of sound that comes piece by piece.
pub fn sound_bytes_law()
    ensures { SoundInTurn }
{}
