//! What a line of a script says.

use ft_types::{Batch, Edit};

/// An edit, and when it is to be done.
#[derive(Debug, Drop)]
pub struct Timed {
    /// The tick before which it is to be done at the earliest, from 0; none where the line has no
    /// time.
    pub at: Option<u32>,
    /// The edit.
    pub edit: Edit,
}

/// A batch, and when it is to be done.
#[derive(Debug, Drop)]
pub struct TimedBatch {
    /// The tick before which it is to be done at the earliest, from 0; none where the line has no
    /// time.
    pub at: Option<u32>,
    /// The batch.
    pub batch: Batch,
}
