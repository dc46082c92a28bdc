//! How far an edit reaches into a song.

/// The parts of a song that an edit touches. All of them are written anew; the song root is among
/// them always.
///
/// Patterns, instruments, samples, bodies and indexes count from 0 here. A body has 256 cells, or
/// 1,024 frames.
#[derive(Clone, Copy)]
pub enum Reach {
    /// The song root alone.
    Song,
    /// The song root; the last pattern goes.
    LastPattern,
    /// The root of a pattern, and the body in which a cell of it is.
    Cell {
        /// Pattern.
        pattern: u16,
        /// Body.
        body: u32,
    },
    /// A pattern as a whole: the one of that number, or a new one behind the last.
    Pattern {
        /// Pattern.
        pattern: u16,
        /// Bodies that it has then.
        bodies: u32,
    },
    /// The root of an instrument, which keeps its samples.
    Instrument {
        /// Instrument.
        at: u16,
    },
    /// An instrument without samples: the one of that number, or a new one behind the last.
    Bare {
        /// Instrument.
        at: u16,
    },
    /// The root of an instrument, whose last sample goes.
    LastSample {
        /// Instrument.
        at: u16,
    },
    /// The roots of an instrument and of a sample, which keeps its frames: the one of that number,
    /// or a new one behind the last.
    Sample {
        /// Instrument.
        at: u16,
        /// Sample.
        sample: u8,
    },
    /// These, and bodies of frames with the indexes that name them.
    Frames {
        /// Instrument.
        at: u16,
        /// Sample.
        sample: u8,
        /// The first body that is written.
        first: u32,
        /// The first body behind those that are written.
        last: u32,
        /// The first body behind those that were there before.
        gone: u32,
    },
}
