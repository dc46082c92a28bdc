//! Why a batch isn't committed.

use crate::edit_fault::EditFault;
use thiserror::Error;

/// Why a batch isn't committed. The song and its version stay as they were.
#[derive(Clone, Copy, Debug, PartialEq, Eq, Error)]
pub enum CommitFault {
    /// An edit of the batch is refused on the song that the edits before it leave.
    #[error("edit {at}: {fault}")]
    Edit {
        /// Its place in the batch, 0 to 15.
        at: u8,
        /// Why it is refused.
        fault: EditFault,
    },
    /// There is no version after this one.
    #[error("version {version} is the last")]
    Worn {
        /// The current version, which is the greatest u32.
        version: u32,
    },
    /// Out of memory. No clause says when.
    #[error("out of memory")]
    NoMemory,
    /// The batch needs more segments than are free.
    #[error("{need} segments are needed, and {free} are free")]
    Full {
        /// Segments that the edits need up to the one that can't be had.
        need: u32,
        /// Segments that are free.
        free: u32,
    },
}
