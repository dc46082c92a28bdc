//! The fields of a sample.

/// A sample header, 40 bytes. Length and loop numbers are in bytes.
#[derive(Clone, Copy)]
pub struct SampleHeader {
    /// The bytes of the data; an odd last byte of 16-bit frames is no frame.
    pub length: u32,
    /// The first byte of the loop.
    pub loop_start: u32,
    /// The bytes of the loop.
    pub loop_len: u32,
    /// Default volume; one over 64 is read as 64.
    pub volume: u8,
    /// Finetune in 1/128 semitone: a signed byte, in two's complement.
    pub finetune: u8,
    /// Bits 0 and 1 are the kind of loop. Bit 4: 16-bit frames. Bit 5: two channels.
    pub kind: u8,
    /// Default panning, 0 left to 255 right.
    pub panning: u8,
    /// Semitones added to the note of a cell: a signed byte, in two's complement.
    pub relative: u8,
    /// Any value is read.
    pub skipped: u8,
    /// Sample name: raw bytes.
    pub name: [u8; 22],
}
