//! What a command line asks for, beside its files.

/// What `step` is asked for, beside its files.
#[derive(Clone, Copy, Debug, PartialEq, Eq)]
pub struct Step {
    /// Frames a second, 8,000 to 48,000.
    pub rate: u32,
    /// Length of the sound, 1 to 1,200 seconds.
    pub seconds: u32,
    /// Segments of the pool, 64 to 65,535.
    pub segments: u16,
}

/// What a command line asks for, beside its files.
#[derive(Clone, Copy, Debug, PartialEq, Eq)]
pub enum Asked {
    /// A song played into a WAV file and a ledger.
    Step(Step),
    /// A song read and written again.
    Copy,
    /// A ProTracker module read, and written as a song.
    Import,
    /// The song of a number.
    Gen {
        /// 0 to 4,294,967,295.
        number: u32,
    },
}
