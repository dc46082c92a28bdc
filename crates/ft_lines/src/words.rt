//! Words put one after the other.

ghost use Rattle.std.specs.Prelude.{◌≡◌, ◌∷◌, ◌++◌, [], map, IfOk, OnOk};
ghost use Rattle.std.specs.Int.{w16, cast_unsigned};
ghost use Rattle.std.specs.Fmt.{signed_decimal};
ghost use Rattle.hex.specs.Hex.{encode_lower};
ghost use Rattle.ft_lines.specs.Words.{frame_bytes};
ghost use Rattle.ft_lines.specs.Texts.{spaced, text_of_words};

use ft_types::NoMemory;
use itoa::Buffer;
use std::alloc::Global;

/// Puts numbers behind a text, each after a space.
fn push_numbers(text: &mut Vec<u8>, numbers: &[i64]) -> Result<(), NoMemory>
    ensures { OnOk result (text.new.items ≡
        text.old.items ++ spaced (map signed_decimal numbers.now)) }
{
    let mut buffer = Buffer::new();
    for number in numbers {
        text.push(b' ')?;
        text.extend_from_slice(buffer.format(*number).as_bytes())?;
    }
    Ok(())
}

/// A name and numbers.
pub fn numbered(alloc: Global, name: &str, numbers: &[i64]) -> Result<Vec<u8>, NoMemory>
    ensures { IfOk result (λ text.
        text.items ≡ text_of_words (name.now ∷ map signed_decimal numbers.now)) }
{
    let mut text = Vec::from_slice(alloc, name.as_bytes())?;
    push_numbers(&mut text, numbers)?;
    Ok(text)
}

/// A name, numbers, and bytes in two hexadecimal digits each.
pub fn with_bytes(
    alloc: Global,
    name: &str,
    numbers: &[i64],
    bytes: &[u8],
) -> Result<Vec<u8>, NoMemory>
    ensures { IfOk result (λ text. text.items ≡
        text_of_words (name.now ∷ map signed_decimal numbers.now ++ encode_lower bytes.now ∷ [])) }
{
    let mut text = numbered(alloc, name, numbers)?;
    let digits = hex::encode(alloc, bytes)?;
    text.push(b' ')?;
    text.extend_from_slice(digits.as_bytes())?;
    Ok(text)
}

/// The bytes of frames, the high one of each first.
pub fn bytes_of(alloc: Global, frames: &[i16]) -> Result<Vec<u8>, NoMemory>
    ensures { IfOk result (λ bytes. bytes.items ≡ frame_bytes frames.now) }
{
    let mut bytes = Vec::new(alloc);
    for frame in frames {
        bytes.extend_from_slice(&frame.to_be_bytes())?;
    }
    Ok(bytes)
}
