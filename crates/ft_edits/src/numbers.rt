//! The numbers that faults name.

/// Fields of a range.
pub mod field {
    /// Note of a cell.
    pub const NOTE: u8 = 1;
    /// Rows of a pattern.
    pub const ROWS: u8 = 2;
    /// Size of a block.
    pub const SIZE: u8 = 3;
    /// Default tempo.
    pub const TEMPO: u8 = 4;
    /// Default BPM.
    pub const BPM: u8 = 5;
    /// Points of an envelope in use.
    pub const COUNT: u8 = 6;
    /// A note of a map, or a point of an envelope.
    pub const INDEX: u8 = 7;
    /// Flags of an envelope.
    pub const FLAGS: u8 = 8;
    /// A volume, or the value of a point.
    pub const LEVEL: u8 = 9;
    /// Kind of a loop or a vibrato.
    pub const KIND: u8 = 10;
    /// Depth of a vibrato.
    pub const DEPTH: u8 = 11;
    /// Rate of a vibrato.
    pub const RATE: u8 = 12;
    /// A sample number of a map.
    pub const MAP: u8 = 13;
    /// Divisor of frames.
    pub const DIVISOR: u8 = 14;
    /// Bits of a frame.
    pub const BITS: u8 = 15;
    /// A frame.
    pub const FRAME: u8 = 16;
    /// The number of orders.
    pub const LENGTH: u8 = 17;
    /// Which envelope.
    pub const WHICH: u8 = 18;
}

/// What there would be too many of.
pub mod kind {
    /// Orders.
    pub const ORDERS: u8 = 1;
    /// Patterns.
    pub const PATTERNS: u8 = 2;
    /// Instruments.
    pub const INSTRUMENTS: u8 = 3;
    /// Samples of an instrument.
    pub const SAMPLES: u8 = 4;
    /// Frames of a sample.
    pub const FRAMES: u8 = 5;
}

/// How many there are at most.
pub mod most {
    /// Orders.
    pub const ORDERS: u32 = 256;
    /// Patterns.
    pub const PATTERNS: u32 = 256;
    /// Rows of a pattern.
    pub const ROWS: u16 = 256;
    /// Instruments.
    pub const INSTRUMENTS: u32 = 128;
    /// Samples of an instrument.
    pub const SAMPLES: u32 = 16;
    /// Frames of a sample.
    pub const FRAMES: u32 = 3_932_160;
}
