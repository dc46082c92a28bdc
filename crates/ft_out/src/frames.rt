//! The frames of a WAV file.

ghost use Rattle.std.specs.Prelude.{◌*◌, ◌≤◌, length, OnOk, OnErr};
ghost use Rattle.std.specs.Io.KnownBytes.{Appends};
ghost use Rattle.ft_outer.specs.Counts.{HasCause};
ghost use Rattle.ft_outer.specs.Pieces.{TakesFront};
ghost use Rattle.ft_out.specs.Wav.{sound_bytes};

use byteorder::{ByteOrder, LittleEndian};
use ft_outer::{Sink, WriteFault, put_all, taking_law};

/// The bytes of the longest tick: 3,750 frames of four bytes.
pub const TICK_BYTES: usize = 15_000;

/// Writes the numbers of `out`, each in two bytes, the low byte first. The sound of a tick goes
/// to the sink at once. Takes no memory.
pub fn put_frames<W: Sink>(sink: &mut W, out: &[i16]) -> Result<(), WriteFault>
    ensures whole { OnOk result
        (Appends (W.held sink.old) (W.held sink.new) (sound_bytes out.now)) }
    ensures front { OnErr result
        (TakesFront (W.held sink.old) (W.held sink.new) (sound_bytes out.now)) }
    ensures cause { HasCause (W.faults sink.old) (W.faults sink.new) result }
{
    put_frames_through(sink, &mut [0; TICK_BYTES], out)
}

/// Does what `put_frames` does by way of a lent buffer, which a caller with many ticks clears but
/// once. As many bytes as the buffer holds go to the sink at once, so one of `TICK_BYTES` serves
/// any tick. What it holds afterwards isn't said.
pub fn put_frames_through<W: Sink>(
    sink: &mut W,
    buffer: &mut [u8],
    out: &[i16],
) -> Result<(), WriteFault>
    requires { 2 ≤ length buffer.old }
    ensures whole { OnOk result
        (Appends (W.held sink.old) (W.held sink.new) (sound_bytes out.now)) }
    ensures front { OnErr result
        (TakesFront (W.held sink.old) (W.held sink.new) (sound_bytes out.now)) }
    ensures cause { HasCause (W.faults sink.old) (W.faults sink.new) result }
{
    taking_law();
    let most = buffer.len() / 2;
    let mut rest = out;
    while !rest.is_empty() {
        let count = rest.len().min(most);
        put_piece(sink, buffer, &rest[..count])?;
        rest = &rest[count..];
    }
    Ok(())
}

/// Writes the numbers of a piece in one go, by way of the front of `buffer`.
fn put_piece<W: Sink>(sink: &mut W, buffer: &mut [u8], piece: &[i16]) -> Result<(), WriteFault>
    requires { 2 * length piece.now ≤ length buffer.old }
    ensures whole { OnOk result
        (Appends (W.held sink.old) (W.held sink.new) (sound_bytes piece.now)) }
    ensures front { OnErr result
        (TakesFront (W.held sink.old) (W.held sink.new) (sound_bytes piece.now)) }
    ensures cause { HasCause (W.faults sink.old) (W.faults sink.new) result }
{
    let bytes = &mut buffer[..2 * piece.len()];
    LittleEndian::write_i16_into(piece, bytes);
    put_all(sink, bytes)
}
