//! The data of a sample: each frame as the step from the one before it.

ghost use Rattle.std.specs.Prelude.{◌≡◌, ◌++◌, ◌^◌, All, FitsSigned, map, flat_map, OnOk};
ghost use Rattle.std.specs.Int.{w8, w16, cast_unsigned};
ghost use Rattle.ft_format.specs.Fields.{two_bytes as bytes_of_u16};
ghost use Rattle.ft_format.specs.Canon.{steps_from};

use ft_types::NoMemory;

/// Frames of 8 bits. Each is written as one byte, the step from the frame before it, which wraps;
/// the first is a step from 0.
pub fn put_narrow(bytes: &mut Vec<u8>, frames: &[i16]) -> Result<(), NoMemory>
    requires { All (FitsSigned w8) frames.now }
    ensures { OnOk result (bytes.new.items ≡ bytes.old.items
        ++ steps_from (2 ^ 8) 0 (map (cast_unsigned w8) frames.now)) }
{
    bytes.reserve(frames.len())?;
    let mut before = 0u8;
    for frame in frames {
        let value = (*frame as i8).cast_unsigned();
        bytes.push_reserved(value.wrapping_sub(before));
        before = value;
    }
    Ok(())
}

/// Frames of 16 bits. Each is written as two bytes, the low one first: the step from the frame
/// before it, which wraps; the first is a step from 0.
pub fn put_wide(bytes: &mut Vec<u8>, frames: &[i16]) -> Result<(), NoMemory>
    ensures { OnOk result (bytes.new.items ≡ bytes.old.items
        ++ flat_map bytes_of_u16 (steps_from (2 ^ 16) 0 (map (cast_unsigned w16) frames.now))) }
{
    bytes.reserve(2 * frames.len())?;
    let mut before = 0u16;
    for frame in frames {
        let value = frame.cast_unsigned();
        let [low, high] = value.wrapping_sub(before).to_le_bytes();
        bytes.push_reserved(low);
        bytes.push_reserved(high);
        before = value;
    }
    Ok(())
}
