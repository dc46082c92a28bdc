//! A module of one note, and modules that differ from it.

use ft_songs::{Splice, changed};
use std::alloc::{AllocError, Global};

/// What isn't 0 in the module of one note: sample 1 has two pairs of bytes and volume 64, one order is
/// played, and the first cell has the period 428 and instrument 1.
const ONE_NOTE: [Splice; 6] = [
    Splice {
        from: 43,
        to: 44,
        bytes: &[2],
    },
    Splice {
        from: 45,
        to: 46,
        bytes: &[64],
    },
    Splice {
        from: 950,
        to: 951,
        bytes: &[1],
    },
    Splice {
        from: 1080,
        to: 1084,
        bytes: b"M.K.",
    },
    Splice {
        from: 1084,
        to: 1087,
        bytes: &[0x01, 0xAC, 0x10],
    },
    Splice {
        from: 2108,
        to: 2112,
        bytes: &[64, 64, 64, 64],
    },
];

/// A ProTracker module of 2,112 bytes: one pattern, whose first cell plays four frames of 64.
pub fn one_note_mod(alloc: Global) -> Result<Vec<u8>, AllocError> {
    let nothing = vec![in alloc; 0u8; 2112]?;
    changed(alloc, &nothing, &ONE_NOTE)
}

/// The module of one note with these changes.
pub fn one_note_mod_with(alloc: Global, changes: &[Splice]) -> Result<Vec<u8>, AllocError> {
    let module = one_note_mod(alloc)?;
    changed(alloc, &module, changes)
}
