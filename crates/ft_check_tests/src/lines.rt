//! Edits as lines of a script.

use ft_check::{ApplyFault, apply_edit};
use ft_lines::read_edit;
use ft_types::{EditFault, Module, valid};
use std::alloc::Global;

/// What became of a line.
#[derive(Clone, Copy, PartialEq, Eq)]
pub enum Answer {
    /// It is no edit, or the song isn't valid, or memory ran out.
    None,
    /// The edit is refused.
    Refused(EditFault),
    /// The edit was done.
    Done,
}

/// Reads an edit and applies it to a song.
pub fn answered(alloc: Global, song: &mut Module, line: &[u8]) -> Answer {
    let Ok(Some(timed)) = read_edit(alloc, line) else {
        return Answer::None;
    };
    if !valid(song) {
        return Answer::None;
    }
    match apply_edit(alloc, song, &timed.edit) {
        Ok(()) => Answer::Done,
        Err(ApplyFault::Edit(fault)) => Answer::Refused(fault),
        Err(ApplyFault::NoMemory) => Answer::None,
    }
}
