//! What every part is made of: bytes, and numbers of two and four bytes, the low byte first.

ghost use Rattle.std.specs.Prelude.{◌≡◌, ◌≤◌, ◌++◌, replicate, OnOk};
ghost use Rattle.ft_format.specs.Fields.{byte, two_bytes as bytes_of_u16, four_bytes as bytes_of_u32};

use byteorder::{ByteOrder, LittleEndian};
use ft_types::NoMemory;

/// Appends bytes as they are.
pub fn put(bytes: &mut Vec<u8>, more: &[u8]) -> Result<(), NoMemory>
    ensures { OnOk result (bytes.new.items ≡ bytes.old.items ++ more.now) }
{
    bytes.extend_from_slice(more)?;
    Ok(())
}

/// Appends one byte.
pub fn put_byte(bytes: &mut Vec<u8>, value: u8) -> Result<(), NoMemory>
    ensures { OnOk result (bytes.new.items ≡ bytes.old.items ++ byte value) }
{
    bytes.push(value)?;
    Ok(())
}

/// Appends a number of two bytes.
pub fn put_u16(bytes: &mut Vec<u8>, value: u16) -> Result<(), NoMemory>
    ensures { OnOk result (bytes.new.items ≡ bytes.old.items ++ bytes_of_u16 value) }
{
    let mut field = [0; 2];
    LittleEndian::write_u16(&mut field, value);
    put(bytes, &field)
}

/// Appends a number of four bytes.
pub fn put_u32(bytes: &mut Vec<u8>, value: u32) -> Result<(), NoMemory>
    ensures { OnOk result (bytes.new.items ≡ bytes.old.items ++ bytes_of_u32 value) }
{
    let mut field = [0; 4];
    LittleEndian::write_u32(&mut field, value);
    put(bytes, &field)
}

/// Appends as many bytes of 0.
pub fn put_zeros(bytes: &mut Vec<u8>, count: usize) -> Result<(), NoMemory>
    requires { count ≤ 256 }
    ensures { OnOk result (bytes.new.items ≡ bytes.old.items ++ replicate count 0) }
{
    put(bytes, &[0; 256][..count])
}
