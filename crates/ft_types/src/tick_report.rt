//! What a player says of a tick that it played.

use crate::items::Items;

/// The ticks of a run, in order.
pub type Ticks = Items<TickReport>;

/// A tick: where in the song it is, on which version, and how long.
#[derive(Clone, Copy, Debug, PartialEq, Eq)]
pub struct TickReport {
    /// The version of the song that it was played on.
    pub version: u32,
    /// Order position, from 0.
    pub order: u16,
    /// Row, from 0.
    pub row: u16,
    /// Tick of the row, from 0; those of a pattern delay count on.
    pub tick: u16,
    /// Frames of sound.
    pub frames: u32,
}
