//! A whole file.

ghost use Rattle.std.specs.Prelude.{◌≡◌, length, IfOk};
ghost use Rattle.ft_types.specs.Valid.{IsValid};
ghost use Rattle.ft_format.specs.Canon.{canon};
ghost use Rattle.ft_format.specs.Spelling.{Spells};

use crate::header::put_header;
use crate::instrument::{instruments_len, put_instruments};
use crate::pattern::{patterns_len, put_patterns};
use ft_format::{HEADER, canonical_is_spelled, canonical_parts, canonical_sizes};
use ft_types::{Module, NoMemory};
use std::alloc::Global;

/// The number of bytes of a whole file.
fn file_len(song: &Module) -> usize
    requires { IsValid song.now }
    ensures { result ≡ length (canon song.now) }
{
    canonical_sizes();
    HEADER + patterns_len(song) + instruments_len(song.instruments.as_slice())
}

/// The canonical bytes of a valid song, as a file of the Extended Module format, version 1.04.
///
/// `valid` of ft_types says whether a song is valid. An `Err` says that memory ran out.
pub fn write_xm(alloc: Global, song: &Module) -> Result<Vec<u8>, NoMemory>
    requires { IsValid song.now }
    // The canonical bytes of the song,
    ensures canonical { IfOk result (λ bytes. bytes.items ≡ canon song.now) }
    // which spell it.
    ensures spelled { IfOk result (λ bytes. Spells bytes.items song.now) }
{
    canonical_is_spelled();
    canonical_parts();
    let mut bytes = Vec::with_capacity(alloc, file_len(song))?;
    put_header(&mut bytes, song)?;
    put_patterns(&mut bytes, song)?;
    put_instruments(&mut bytes, song.instruments.as_slice())?;
    Ok(bytes)
}
