//! A song as a whole.

use crate::instrument::Instruments;
use crate::items::Items;
use crate::pattern::Patterns;

/// The pattern order table: the number of a pattern at each order position.
pub type Orders = Items<u8>;

/// A module of the Extended Module format, version 1.04.
///
/// The ranges given here are those of a valid module.
#[derive(Debug, Drop)]
pub struct Module {
    /// Module name: raw bytes, filled with 0 or blanks.
    pub name: [u8; 20],
    /// Tracker name: raw bytes.
    pub tracker: [u8; 20],
    /// Restart position: an order position below the song length.
    pub restart: u16,
    /// Number of channels, 1 to 32.
    pub channels: u8,
    /// Whether periods are linear; otherwise they are Amiga periods.
    pub linear: bool,
    /// Default tempo: ticks per row, 1 to 31.
    pub tempo: u8,
    /// Default BPM, 32 to 255.
    pub bpm: u8,
    /// Order table, 1 to 256 entries. An order may name a pattern that isn't stored.
    pub orders: Orders,
    /// Patterns, at most 256.
    pub patterns: Patterns,
    /// Instruments, at most 128. Cells count them from 1.
    pub instruments: Instruments,
}

/// What a song says of itself as a whole while it plays.
#[derive(Clone, Copy, Debug, PartialEq, Eq)]
pub struct SongHead {
    /// Number of orders, 1 to 256.
    pub length: u16,
    /// Restart position: an order position below the length.
    pub restart: u16,
    /// Default tempo: ticks per row, 1 to 31.
    pub tempo: u8,
    /// Default BPM, 32 to 255.
    pub bpm: u8,
    /// Whether periods are linear; otherwise they are Amiga periods.
    pub linear: bool,
}
