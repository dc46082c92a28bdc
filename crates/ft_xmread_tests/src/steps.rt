//! Songs that differ from the song of one note, step by step.

use ft_songs::{Splice, changed, one_note_song};
use std::alloc::{AllocError, Global};

/// A change of a song's bytes. Places are those that the steps before left.
#[derive(Clone, Copy)]
pub enum Step<'a> {
    /// The bytes from the first place to before the second become these.
    Put(usize, usize, &'a [u8]),
    /// The bytes from the first place to before the second are put in again at the third.
    Again(usize, usize, usize),
    /// The first n bytes stay.
    Cut(usize),
}

/// Bytes after a step.
fn stepped(alloc: Global, song: &[u8], step: Step) -> Result<Vec<u8>, AllocError> {
    match step {
        Step::Put(from, to, bytes) => changed(alloc, song, &[Splice { from, to, bytes }]),
        Step::Again(from, to, at) => {
            let bytes = song.get(from..to).unwrap_or(&[]);
            let (from, to) = (at, at);
            changed(alloc, song, &[Splice { from, to, bytes }])
        }
        Step::Cut(len) => song.get(..len).unwrap_or(song).to_vec(alloc),
    }
}

/// The song of one note after these steps.
pub fn song_behind(alloc: Global, steps: &[Step]) -> Result<Vec<u8>, AllocError> {
    let mut song = one_note_song(alloc)?;
    for step in steps {
        song = stepped(alloc, &song, *step)?;
    }
    Ok(song)
}
