//! Other bytes at some places.

use crate::file::one_note_song;
use std::alloc::{AllocError, Global};

/// The bytes from `from` to before `to` become `bytes`. A place past the end stands for the end.
#[derive(Clone, Copy)]
pub struct Splice<'a> {
    /// The first place that changes.
    pub from: usize,
    /// The first place behind it that doesn't; where it is `from`, bytes are put in.
    pub to: usize,
    /// What is there instead, of any length.
    pub bytes: &'a [u8],
}

/// Bytes with one change.
fn changed_once(alloc: Global, song: &[u8], change: Splice) -> Result<Vec<u8>, AllocError> {
    let front = song.get(..change.from).unwrap_or(song);
    let back = song.get(change.to..).unwrap_or(&[]);
    let mut changed = front.to_vec(alloc)?;
    changed.extend_from_slice(change.bytes)?;
    changed.extend_from_slice(back)?;
    Ok(changed)
}

/// Bytes with these changes, one after the other; the places of each are those that the ones before
/// it left.
pub fn changed(alloc: Global, song: &[u8], changes: &[Splice]) -> Result<Vec<u8>, AllocError> {
    let mut changed = song.to_vec(alloc)?;
    for change in changes {
        changed = changed_once(alloc, &changed, *change)?;
    }
    Ok(changed)
}

/// The song of one note with these changes.
pub fn one_note_with(alloc: Global, changes: &[Splice]) -> Result<Vec<u8>, AllocError> {
    let song = one_note_song(alloc)?;
    changed(alloc, &song, changes)
}
