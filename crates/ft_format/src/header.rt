//! The header's fields.

/// The names, bytes 17 to 57.
#[derive(Clone, Copy)]
pub struct Titles {
    /// Module name: raw bytes.
    pub name: [u8; 20],
    /// 0x1A as written; any value is read.
    pub mark: u8,
    /// Tracker name: raw bytes.
    pub tracker: [u8; 20],
}

/// Bytes 60 to 69, behind the version.
#[derive(Clone, Copy)]
pub struct Sizes {
    /// The bytes of the header from this field on, at least 21.
    pub size: u32,
    /// Song length in orders, at most 256; 0 is read as 1.
    pub length: u16,
    /// Restart position; one past the song is read as 0.
    pub restart: u16,
    /// 1 to 32.
    pub channels: u16,
}

/// Bytes 70 to 79.
#[derive(Clone, Copy)]
pub struct Settings {
    /// At most 256.
    pub patterns: u16,
    /// At most 128.
    pub instruments: u16,
    /// Bit 0: linear periods. Others are dropped.
    pub flags: u16,
    /// Default tempo, which is brought into 1 to 31.
    pub tempo: u16,
    /// Default BPM, which is brought into 32 to 255.
    pub bpm: u16,
}
