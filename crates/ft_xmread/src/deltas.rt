//! The frames of a sample, which a file holds as steps.

ghost use Rattle.std.specs.Prelude.{◌≡◌, IfOk, IfErr};
ghost use Rattle.std.specs.Int.{w8, cast_signed};
ghost use Rattle.ft_format.specs.Sample.{narrow_frames, wide_frames};

use crate::fault::XmFault;
use byteorder::{ByteOrder, LittleEndian};
use std::alloc::Global;

/// The frames of a narrow sample. Each byte is the step from the frame before it and wraps at
/// 8 bits; the first is from 0.
pub fn narrow_frames(alloc: Global, steps: &[u8]) -> Result<Vec<i16>, XmFault>
    ensures value { IfOk result (λ frames. frames.items ≡ narrow_frames steps.now) }
    ensures wanting { IfErr result (λ fault. fault ≡ XmFault.NoMemory) }
{
    let mut frames = Vec::with_capacity(alloc, steps.len())?;
    let mut value = 0u8;
    for step in steps {
        value = value.wrapping_add(*step);
        frames.push_reserved(frame_of(value));
    }
    Ok(frames)
}

/// A narrow frame, from two's complement.
fn frame_of(value: u8) -> i16
    ensures { result ≡ cast_signed w8 value }
{
    i16::from(value.cast_signed())
}

/// The frames of a wide sample. Each two bytes, the low one first, are the step from the frame before
/// it and wrap at 16 bits; the first is from 0. An odd last byte is skipped.
pub fn wide_frames(alloc: Global, steps: &[u8]) -> Result<Vec<i16>, XmFault>
    ensures value { IfOk result (λ frames. frames.items ≡ wide_frames steps.now) }
    ensures wanting { IfErr result (λ fault. fault ≡ XmFault.NoMemory) }
{
    let count = steps.len() / 2;
    let mut frames = Vec::with_capacity(alloc, count)?;
    let mut value = 0u16;
    for i in 0..count {
        value = value.wrapping_add(LittleEndian::read_u16(&steps[2 * i..]));
        frames.push_reserved(value.cast_signed());
    }
    Ok(frames)
}
