//! Numbers in words.

ghost use Rattle.std.specs.Prelude.{◌≡◌, ◌<◌};
ghost use Rattle.ft_segments.specs.Packing.{digit};

/// One of the four numbers of 16 bits in a word, the first in the lowest bits.
#[inline]
pub fn quarter(word: u64, place: u8) -> u16
    requires { place < 4 }
    ensures { result ≡ digit 65536 word place }
{
    ((word >> (16 * u32::from(place))) % 65536) as u16
}

/// One of the lower four bytes of a word.
fn low_byte(word: u64, place: u8) -> u8
    requires { place < 4 }
    ensures { result ≡ digit 256 word place }
{
    match place {
        0 => (word % 256) as u8,
        1 => (word / 256 % 256) as u8,
        2 => (word / 256 / 256 % 256) as u8,
        _ => (word / 256 / 256 / 256 % 256) as u8,
    }
}

/// One of the eight bytes of a word, the first in the lowest bits.
pub fn byte(word: u64, place: u8) -> u8
    requires { place < 8 }
    ensures { result ≡ digit 256 word place }
{
    if place < 4 {
        return low_byte(word, place);
    }
    low_byte(word / 256 / 256 / 256 / 256, place - 4)
}
