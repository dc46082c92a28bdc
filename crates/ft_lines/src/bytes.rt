//! Names and frames of words.

ghost use Rattle.std.specs.Prelude.{◌≡◌, ◌≤◌, ◌<◌, length, IfOk, IfSome, option_map};
ghost use Rattle.ft_lines.specs.Values.{bytes_of, name_of, doubles, frames_of};

use ft_types::{Frames, NoMemory};
use hex::FromHexError;
use std::alloc::Global;

/// The bytes that a word has in two lower-case hexadecimal digits each.
fn decoded(alloc: Global, word: &[u8]) -> Result<Option<Vec<u8>>, NoMemory>
    ensures { IfOk result (λ o. option_map (λ bytes. bytes.items) o ≡ bytes_of word.now) }
{
    let bytes = match hex::decode(alloc, word) {
        Ok(bytes) => bytes,
        Err(FromHexError::OutOfMemory) => return Err(NoMemory),
        Err(_) => return Ok(None),
    };
    let lower = hex::encode(alloc, bytes.as_slice())?;
    if lower.as_bytes() == word {
        Ok(Some(bytes))
    } else {
        Ok(None)
    }
}

/// A name of 1 to `N` bytes; those that aren't given are 0.
pub fn name<const N: usize>(alloc: Global, word: &[u8]) -> Result<Option<[u8; N]>, NoMemory>
    ensures { IfOk result (λ o. o ≡ name_of N word.now) }
{
    let Some(bytes) = decoded(alloc, word)? else {
        return Ok(None);
    };
    if bytes.is_empty() || bytes.len() > N {
        return Ok(None);
    }
    let mut name = [0; N];
    name[..bytes.len()].copy_from_slice(bytes.as_slice());
    Ok(Some(name))
}

/// The numbers of two bytes each, the high one first; none where a byte is left over.
fn frames_in(alloc: Global, bytes: &[u8]) -> Result<Option<Vec<i16>>, NoMemory>
    ensures { IfOk result (λ o. option_map (λ frames. frames.items) o ≡ doubles bytes.now) }
{
    let mut frames = Vec::with_capacity(alloc, bytes.len() / 2)?;
    let mut rest = bytes;
    while let [high, low, others @ ..] = rest {
        frames.push(i16::from_be_bytes([*high, *low]))?;
        rest = others;
    }
    if rest.is_empty() {
        Ok(Some(frames))
    } else {
        Ok(None)
    }
}

/// 1 to 256 frames, in four hexadecimal digits each, the high one first.
pub fn frames(alloc: Global, word: &[u8]) -> Result<Option<Frames>, NoMemory>
    ensures value { IfOk result (λ o. o ≡ frames_of word.now) }
    ensures few { IfOk result (λ o. IfSome o (λ f. (1 ≤ length f) × (length f ≤ 256))) }
{
    let Some(bytes) = decoded(alloc, word)? else {
        return Ok(None);
    };
    let Some(frames) = frames_in(alloc, bytes.as_slice())? else {
        return Ok(None);
    };
    if frames.is_empty() || frames.len() > 256 {
        return Ok(None);
    }
    Ok(Some(Frames::from_vec(frames)))
}
