//! Samples.

use crate::items::Items;

/// The samples of an instrument, counted from 0.
pub type Samples = Items<Sample>;

/// The frames of a sample: -128 to 127 each, or any `i16` where the sample is wide.
pub type Frames = Items<i16>;

/// A sample. Loop start and length count frames, not bytes.
#[derive(Debug, Drop)]
pub struct Sample {
    /// Sample name: raw bytes.
    pub name: [u8; 22],
    /// Default volume, 0 to 64.
    pub volume: u8,
    /// Finetune in 1/128 semitone, -128 to 127.
    pub finetune: i8,
    /// Relative note: semitones added to the note of a cell.
    pub relative: i8,
    /// Default panning, 0 left to 255 right.
    pub panning: u8,
    /// Whether the file holds 16-bit frames; else they have 8 bits.
    pub wide: bool,
    /// 0 no loop, 1 forward, 2 ping-pong.
    pub loop_kind: u8,
    /// First frame of the loop; 0 without a loop.
    pub loop_start: u32,
    /// Length of the loop in frames, at least 1; 0 without a loop.
    pub loop_len: u32,
    /// At most 3,932,160 frames.
    pub frames: Frames,
}
