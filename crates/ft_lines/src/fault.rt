//! Why a line isn't read.

ghost use Rattle.std.specs.Prelude.{◌≡◌};
ghost use Rattle.ft_lines.specs.declared.fault.LineFault.TheVariants.{NoMemory as no_memory};

use std::alloc::{AllocError, AllocFailed};
use thiserror::Error;

/// Why a line of a script says nothing.
#[derive(Clone, Copy, Debug, PartialEq, Eq, Error)]
pub enum LineFault {
    /// The line isn't one of a script.
    #[error("wrong at byte {at}")]
    Bad {
        /// Where the first word begins that is wrong there or too many, in bytes from the front of
        /// the line. The length of the line where words are missing, and 4,096 in a longer line.
        at: u16,
    },
    /// Out of memory. No clause says when.
    #[error("out of memory")]
    NoMemory,
}

impl From<AllocError> for LineFault {
    ghost from_gives = { λ _ fault. fault ≡ no_memory };

    fn from(_error: AllocError) -> LineFault {
        LineFault::NoMemory
    }
}

impl<T: Drop> From<AllocFailed<T>> for LineFault {
    ghost from_gives = { λ _ fault. fault ≡ no_memory };

    fn from(_failed: AllocFailed<T>) -> LineFault {
        LineFault::NoMemory
    }
}

impl From<ft_types::NoMemory> for LineFault {
    ghost from_gives = { λ _ fault. fault ≡ no_memory };

    fn from(_wanting: ft_types::NoMemory) -> LineFault {
        LineFault::NoMemory
    }
}
