//! The head of a WAV file.

ghost use Rattle.std.specs.Prelude.{◌≡◌, ◌+◌, ◌*◌, ◌^◌, ◌<◌};
ghost use Rattle.ft_out.specs.Wav.{wav_head_bytes};

use byteorder::{ByteOrder, LittleEndian};

/// The first 44 bytes of a WAV file of stereo sound in 16 bits: `rate` frames a second, and
/// `frames` frames in all.
#[tactic(auto, unfolding(crate::specs::Wav::wav_head_bytes))]
pub fn wav_head(rate: u32, frames: u32) -> [u8; 44]
    requires size { 4 * frames + 36 < 2 ^ 32 }
    requires pace { 4 * rate < 2 ^ 32 }
    ensures { result ≡ wav_head_bytes rate frames }
{
    let mut head = [0; 44];
    head[..4].copy_from_slice(b"RIFF");
    LittleEndian::write_u32(&mut head[4..8], 36 + 4 * frames);
    head[8..16].copy_from_slice(b"WAVEfmt ");
    LittleEndian::write_u32(&mut head[16..20], 16);
    LittleEndian::write_u16(&mut head[20..22], 1);
    LittleEndian::write_u16(&mut head[22..24], 2);
    LittleEndian::write_u32(&mut head[24..28], rate);
    LittleEndian::write_u32(&mut head[28..32], 4 * rate);
    LittleEndian::write_u16(&mut head[32..34], 4);
    LittleEndian::write_u16(&mut head[34..36], 16);
    head[36..40].copy_from_slice(b"data");
    LittleEndian::write_u32(&mut head[40..44], 4 * frames);
    head
}
