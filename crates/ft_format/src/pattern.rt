//! The fields of a pattern.

/// The head of a pattern, 9 bytes; its packing is the one known.
#[derive(Clone, Copy)]
pub struct PatternHead {
    /// The bytes of the head, at least 9.
    pub size: u32,
    /// At most 256; 0 is read as 64.
    pub rows: u16,
    /// The bytes of data; 0 is a pattern of empty cells.
    pub packed: u16,
}
