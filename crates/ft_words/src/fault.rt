//! Why words give nothing.

use ft_types::NoMemory;
use std::alloc::AllocError;
use thiserror::Error;

/// Why no files are named.
#[derive(Clone, Copy, Debug, PartialEq, Eq, Error)]
pub enum NamesFault {
    /// The words are no command.
    #[error("usage")]
    Usage,
    /// Out of memory.
    #[error("out of memory")]
    NoMemory,
}

impl From<AllocError> for NamesFault {
    ghost use Rattle.ft_words.specs.declared.fault.NamesFault.TheVariants.{NoMemory as no_memory};
    ghost use Rattle.std.specs.Prelude.{◌≡◌};

    ghost from_gives = { λ _ fault. fault ≡ no_memory };

    fn from(_error: AllocError) -> NamesFault {
        NamesFault::NoMemory
    }
}

impl From<NoMemory> for NamesFault {
    ghost use Rattle.ft_words.specs.declared.fault.NamesFault.TheVariants.{NoMemory as no_memory};
    ghost use Rattle.std.specs.Prelude.{◌≡◌};

    ghost from_gives = { λ _ fault. fault ≡ no_memory };

    fn from(_error: NoMemory) -> NamesFault {
        NamesFault::NoMemory
    }
}
