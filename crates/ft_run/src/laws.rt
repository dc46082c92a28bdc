//! Laws of a desk and the passes of its register. These functions do nothing; their contracts say
//! what holds.

ghost use Rattle.std.specs.Prelude.{◌≡◌, ℕ};
ghost use Rattle.ft_edits.specs.Versions.{IsCommitted, module_at};
ghost use Rattle.ft_shared.specs.History.{Agrees};
ghost use Rattle.ft_shared.specs.Pass.{ReaderState};
ghost use Rattle.ft_desk.specs.Desk.{DeskState, IsDesk};
ghost use Rattle.ft_player.specs.declared.songs.Songs.{Songs};
ghost use Rattle.ft_player.specs.Songs.{song_at};
ghost use Rattle.ft_player.specs.Behind.{AreSongsBehind};

/// Where a desk's history agrees with what a pass of its register has noted, songs may be behind
/// that pass which are the desk's: at each version of the journal the module that the journal
/// makes.
pub fn the_songs_of_a_desk_stand_behind_its_passes()
    ensures { (desk : DeskState) (pass : ReaderState) → IsDesk desk
        → pass.register ≡ desk.writer.register
        → Agrees desk.writer.account.history pass.notes
        → (songs : Songs) × AreSongsBehind songs pass × ((version : ℕ)
        → IsCommitted desk.first desk.journal.entries version
        → song_at songs version ≡ module_at desk.opening desk.journal.entries version) }
{}
