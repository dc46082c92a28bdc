//! A sounding voice, and what it needs of its sample.

/// A sample without its name and frames.
#[derive(Clone, Copy, Debug, Default, PartialEq, Eq)]
pub struct SampleHead {
    /// Number of frames, at most 3,932,160.
    pub frames: u32,
    /// Whether frames have 16 bits.
    pub wide: bool,
    /// 0 no loop, 1 forward, 2 ping-pong.
    pub loop_kind: u8,
    /// First frame of the loop.
    pub loop_start: u32,
    /// Length of the loop in frames.
    pub loop_len: u32,
    /// Default volume, 0 to 64.
    pub volume: u8,
    /// Default panning, 0 left to 255 right.
    pub panning: u8,
    /// Finetune in 1/128 semitone.
    pub finetune: i8,
    /// Semitones added to the note of a cell.
    pub relative: i8,
}

/// A voice that sounds on a channel.
#[derive(Clone, Copy, Debug, Default, PartialEq, Eq)]
pub struct Voice {
    /// The channel, from 0.
    pub channel: u8,
    /// Its sample, as it was in the version in which the voice began.
    pub head: SampleHead,
    /// Position in the sample: frames with 32 bits of fraction.
    pub pos: u64,
    /// What the position moves by for each frame of output.
    pub step: u64,
    /// Gain of the left side, of 65,536.
    pub left: u32,
    /// Gain of the right side, of 65,536.
    pub right: u32,
    /// Whether the voice ends after this tick.
    pub last: bool,
}
