//! Reading all that a source has left.

ghost use Rattle.std.specs.Prelude.{◌≡◌, ◌≢◌, ℕ, List, ◌+◌, ◌^◌, ◌<◌, ◌≤◌, length, IfOk, IsErrOf};
ghost use Rattle.ft_outer.specs.Counts.{Rose};
ghost use Rattle.ft_outer.specs.Pieces.{Gives, GivesAll, HasMore};

use crate::source::{Failed, Source};
use std::alloc::{AllocError, Global};

/// The bytes of one call at the source.
const CHUNK: usize = 65_536;

/// Why the bytes of a source weren't read to its end.
#[derive(Clone, Copy, Debug, PartialEq, Eq)]
pub enum ReadFault {
    /// The source failed, and counted it.
    Failed,
    /// The source gave more bytes than were wanted at most.
    TooBig,
    /// Out of memory.
    NoMemory,
}

impl From<Failed> for ReadFault {
    ghost use Rattle.ft_outer.specs.declared.reading.ReadFault.{ReadFault};

    ghost from_gives = { λ _ fault. fault ≡ ReadFault.Failed };

    fn from(_failed: Failed) -> ReadFault {
        ReadFault::Failed
    }
}

impl From<AllocError> for ReadFault {
    ghost use Rattle.ft_outer.specs.declared.reading.ReadFault.{ReadFault};

    ghost from_gives = { λ _ fault. fault ≡ ReadFault.NoMemory };

    fn from(_error: AllocError) -> ReadFault {
        ReadFault::NoMemory
    }
}

/// Reads the source until it answers 0 or has given more than `most` bytes.
///
/// What the source gave in this call is said whatever the answer is, but after an `Err` those
/// bytes are gone. It keeps at most `most` bytes, and a buffer of 64 KiB.
pub fn read_all<S: Source>(alloc: Global, source: &mut S, most: usize) -> Result<Vec<u8>, ReadFault>
    requires counted { S.given source.old < 2 ^ 63 }
    requires countable { most < 2 ^ 62 }

    // The bytes are all that was left, and nothing is left.
    ensures whole { IfOk result
        (λ bytes. GivesAll (S.left source.old) (S.left source.new) bytes.items) }
    ensures gave { IfOk result (λ bytes. S.given source.new
        ≡ S.given source.old + length bytes.items) }

    // Whatever the answer is, the source gave some bytes, and they are counted.
    ensures given { (bytes : List ℕ) × Gives (S.left source.old) (S.left source.new)
        (S.given source.old) (S.given source.new) bytes }

    // It is too big exactly where the source gave more than `most` bytes, and so had more.
    ensures too_big { IsErrOf result ReadFault.TooBig
        → S.given source.old + most < S.given source.new }
    ensures had_more { IsErrOf result ReadFault.TooBig → HasMore (S.left source.old) most }
    ensures within { (result ≢ Err ReadFault.TooBig)
        → S.given source.new ≤ S.given source.old + most }

    ensures failed { IsErrOf result ReadFault.Failed
        → Rose (S.faults source.old) (S.faults source.new) }
    ensures kept { (result ≢ Err ReadFault.Failed) → S.faults source.new ≡ S.faults source.old }
    ensures later { S.faults source.old ≤ S.faults source.new }
{
    let mut buffer = chunk(alloc)?;
    let mut bytes = Vec::new(alloc);
    loop {
        let count = source.read(&mut buffer)?;
        if count == 0 {
            return Ok(bytes);
        }
        if count > most - bytes.len() {
            return Err(ReadFault::TooBig);
        }
        bytes.extend_from_slice(&buffer[..count])?;
    }
}

/// A buffer for the bytes of one call at the source.
fn chunk(alloc: Global) -> Result<Vec<u8>, AllocError>
    ensures some { IfOk result (λ buffer. 0 < length buffer.items) }
    ensures few { IfOk result (λ buffer. length buffer.items ≤ 65536) }
{
    vec![in alloc; 0; CHUNK]
}
