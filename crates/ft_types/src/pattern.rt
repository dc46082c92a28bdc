//! Patterns and their cells.

use crate::items::Items;

/// The patterns of a song, by number.
pub type Patterns = Items<Pattern>;

/// The cells of a pattern, row by row, in each row by channel.
pub type Cells = Items<Cell>;

/// A pattern: `rows` rows of a cell for each channel.
#[derive(Debug, Drop)]
pub struct Pattern {
    /// Number of rows, 1 to 256.
    pub rows: u16,
    /// `rows * channels` cells.
    pub cells: Cells,
}

/// What one row says to one channel. A cell of five 0 bytes is empty.
#[derive(Clone, Copy, Debug, PartialEq, Eq)]
pub struct Cell {
    /// 0 for none, 1 to 96 for C-0 to B-7, 97 for a key off.
    pub note: u8,
    /// 0 for none, else the number of an instrument from 1.
    pub instrument: u8,
    /// Volume column byte.
    pub volume: u8,
    /// Effect type, 0 to 35 as a digit of base 36; others do nothing.
    pub effect: u8,
    /// Effect parameter.
    pub parameter: u8,
}

impl Cell {
    /// The cell that says nothing.
    pub const EMPTY: Cell = Cell {
        note: 0,
        instrument: 0,
        volume: 0,
        effect: 0,
        parameter: 0,
    };
}
