//! Why bytes could not be read.

ghost use Rattle.std.specs.Prelude.{◌≡◌};
ghost use Rattle.ft_xmread.specs.declared.fault.XmFault.TheVariants.{NoMemory as no_memory};

use std::alloc::{AllocError, AllocFailed};

/// What is wrong with the bytes: the first fault from left to right.
///
/// Places are offsets in the file. Patterns and samples count from 0, instruments from 1.
#[derive(Clone, Copy, Debug, PartialEq, Eq)]
pub enum XmFault {
    /// This byte of the identification differs.
    NotXm {
        /// Its place, 0 to 16.
        at: u64,
    },
    /// The version isn't 0x0104.
    Version {
        /// What is there.
        found: u16,
    },
    /// A field of `need` bytes would begin here, and the file ends before its end.
    Short {
        /// Where the field would begin.
        at: u64,
        /// Its bytes.
        need: u32,
    },
    /// The number at this place is out of its range.
    Count {
        /// Where the number begins.
        at: u64,
        /// The number.
        found: u32,
    },
    /// This pattern isn't packed in the one known way.
    Packing {
        /// The pattern, from 0.
        pattern: u16,
        /// Its packing.
        found: u8,
    },
    /// The cell that begins here goes past the data of its pattern.
    CellOverrun {
        /// The pattern, from 0.
        pattern: u16,
        /// Where the cell begins.
        at: u64,
    },
    /// This sample has two channels.
    Stereo {
        /// The instrument, from 1.
        instrument: u16,
        /// Its sample, from 0.
        sample: u16,
    },
    /// This sample has more frames than `MOST_FRAMES` of ft_format.
    TooLong {
        /// The instrument, from 1.
        instrument: u16,
        /// Its sample, from 0.
        sample: u16,
        /// Its frames.
        frames: u32,
    },
    /// Out of memory. No clause says when this comes.
    NoMemory,
}

impl From<AllocError> for XmFault {
    ghost from_gives = { λ _ fault. fault ≡ no_memory };

    fn from(_error: AllocError) -> XmFault {
        XmFault::NoMemory
    }
}

impl<T: Drop> From<AllocFailed<T>> for XmFault {
    ghost from_gives = { λ _ fault. fault ≡ no_memory };

    fn from(_failed: AllocFailed<T>) -> XmFault {
        XmFault::NoMemory
    }
}

impl From<ft_types::NoMemory> for XmFault {
    ghost from_gives = { λ _ fault. fault ≡ no_memory };

    fn from(_wanting: ft_types::NoMemory) -> XmFault {
        XmFault::NoMemory
    }
}
