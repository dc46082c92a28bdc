//! What may be behind a player. No running code makes a value of these.

use ft_shared::PlacedVersion;
use ft_types::Module;

/// A version of a song: where it is placed, and the song that it shows.
pub struct SongVersion {
    /// Its number, its root and the words of the pool.
    pub placed: PlacedVersion,
    /// The song that these words show.
    pub song: Module,
}

/// The versions of a song.
pub struct Songs {
    /// A clause reads it as a list of any length.
    pub versions: [SongVersion; 0],
}
