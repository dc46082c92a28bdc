//! The most of each thing that a song may have.

/// The most bytes of a file that is read as a song.
pub const MOST_BYTES: usize = 67_108_864;

/// The most orders of a song.
pub const MOST_ORDERS: u16 = 256;

/// The most channels.
pub const MOST_CHANNELS: u16 = 32;

/// The most patterns.
pub const MOST_PATTERNS: u16 = 256;

/// The most rows of a pattern.
pub const MOST_ROWS: u16 = 256;

/// The rows of a pattern that says 0.
pub const ROWS_FOR_NONE: u16 = 64;

/// The most instruments.
pub const MOST_INSTRUMENTS: u16 = 128;

/// The most samples of an instrument.
pub const MOST_SAMPLES: u16 = 16;

/// The most frames of a sample.
pub const MOST_FRAMES: u32 = 3_932_160;

/// The highest note that a cell has: a key off.
pub const KEY_OFF: u8 = 97;
