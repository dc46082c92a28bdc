//! The fields of a cell.

ghost use Rattle.std.specs.Prelude.{◌≡◌, ◌<◌};
ghost use Rattle.ft_format.specs.Pattern.{has};

use crate::layout::MASK;
use ft_types::Cell;

/// A cell as a file spells it, in one to six bytes.
#[derive(Clone, Copy)]
pub struct RawCell {
    /// Below 128 the note itself, and the four other bytes follow. Else a mask: its five low bits
    /// say which of the five bytes follow.
    pub first: u8,
    /// The cell, with 0 for each byte that is left out.
    pub cell: Cell,
}

/// Whether the first byte of a cell says that the byte of this bit follows. Where the first byte is
/// the note, the four others follow.
pub fn has(first: u8, bit: u8) -> bool
    requires { 0 < bit }
    ensures { result ≡ has first bit }
{
    first < MASK || first / bit % 2 == 1
}
