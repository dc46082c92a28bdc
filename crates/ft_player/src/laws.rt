//! Laws of what may be behind a player. These functions do nothing; their contracts say what holds.

ghost use Rattle.std.specs.Prelude.{◌↔◌, ℕ};
ghost use Rattle.ft_shared.specs.Pass.{ReaderState, note_heard};
ghost use Rattle.ft_player.specs.declared.songs.Songs.{Songs};
ghost use Rattle.ft_player.specs.Behind.{AreSongsBehind, HasPlayedOn};
ghost use Rattle.ft_player.specs.Player.{HasClosed, IsAsBefore};

use ft_shared::a_history_agrees_with_fewer_reads;

/// Songs that may be behind a pass might be behind it before it read on, and set and took away
/// pins.
pub fn songs_agree_with_earlier_notes()
    ensures { (songs : Songs) (old new : ReaderState) → HasPlayedOn old new
        → AreSongsBehind songs new → AreSongsBehind songs old }
{
    a_history_agrees_with_fewer_reads();
}

/// The same songs may be behind the pass of a player before and after `hear` and `close`; and,
/// where a player was parted from its pass, behind the pass that was handed out and the one with
/// which it is made whole again.
pub fn the_same_songs_after_hear_close_and_rejoin()
    ensures heard { (songs : Songs) (pass : ReaderState) (version : ℕ)
        → AreSongsBehind songs (record pass { notes = note_heard pass.notes version })
        ↔ AreSongsBehind songs pass }
    ensures closed { (songs : Songs) (old new : ReaderState) → HasClosed old new
        → AreSongsBehind songs new ↔ AreSongsBehind songs old }
    ensures rejoined { (songs : Songs) (old new : ReaderState) → IsAsBefore old new
        → AreSongsBehind songs new ↔ AreSongsBehind songs old }
{}
