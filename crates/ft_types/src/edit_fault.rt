//! Why an edit is refused.

use thiserror::Error;

/// Why an edit is refused: the first cause that holds, in the order that each edit gives.
#[derive(Clone, Copy, Debug, PartialEq, Eq, Error)]
pub enum EditFault {
    /// The pattern isn't stored.
    #[error("pattern {p} isn't stored")]
    NoPattern {
        /// Pattern, from 0.
        p: u8,
    },
    /// The pattern has no such row.
    #[error("no row {row} in a pattern of {rows} rows")]
    NoRow {
        /// Row, from 0; the last row of a block.
        row: u32,
        /// Rows of the pattern, 1 to 256.
        rows: u16,
    },
    /// The song has no such channel.
    #[error("no channel {ch}")]
    NoChannel {
        /// Channel, from 0; the last channel of a block.
        ch: u16,
    },
    /// The song has no such order position.
    #[error("no order position {pos}")]
    NoOrder {
        /// Order position, from 0.
        pos: u16,
    },
    /// The song has no such instrument.
    #[error("no instrument {i}")]
    NoInstrument {
        /// Instrument; they count from 1.
        i: u8,
    },
    /// A number is out of its range.
    #[error("field {field} can't be {found}")]
    Range {
        /// What the number is: 1 note, 2 rows, 3 size, 4 tempo, 5 BPM, 6 count, 7 index, 8 flags,
        /// 9 level, 10 kind, 11 depth, 12 rate, 13 map, 14 divisor, 15 bits, 16 frame, 17 length,
        /// 18 which.
        field: u8,
        /// The number.
        found: i64,
    },
    /// There would be too many of something.
    #[error("{count} would be too many of kind {what}")]
    TooMany {
        /// What there would be too many of: 1 orders, 2 patterns, 3 instruments, 4 samples,
        /// 5 frames.
        what: u8,
        /// The number that would be reached.
        count: u32,
    },
    /// The instrument has no such sample.
    #[error("no sample {s} in instrument {i}")]
    NoSample {
        /// Instrument, from 1.
        i: u8,
        /// Sample, from 0.
        s: u8,
    },
    /// The sample has no such range of frames.
    #[error("no frames {from} to {to} in {frames} frames")]
    Cut {
        /// First frame.
        from: u32,
        /// The frame after the last.
        to: u64,
        /// Frames of the sample.
        frames: u32,
    },
}
