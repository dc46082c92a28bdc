//! Writing all of some bytes.

ghost use Rattle.std.specs.Prelude.{OnOk, OnErr};
ghost use Rattle.std.specs.Io.KnownBytes.{Appends};
ghost use Rattle.ft_outer.specs.Counts.{HasCause};
ghost use Rattle.ft_outer.specs.Pieces.{TakesFront};

use crate::sink::Sink;

/// The sink failed, and counted it. What it took is a front of what it was given.
#[derive(Clone, Copy, Debug, PartialEq, Eq)]
pub struct WriteFault;

/// Writes all of `bytes`, however the sink takes them. Takes no memory.
pub fn put_all<S: Sink>(sink: &mut S, bytes: &[u8]) -> Result<(), WriteFault>
    ensures whole { OnOk result (Appends (S.held sink.old) (S.held sink.new) bytes.now) }
    ensures front { OnErr result (TakesFront (S.held sink.old) (S.held sink.new) bytes.now) }
    ensures cause { HasCause (S.faults sink.old) (S.faults sink.new) result }
{
    let mut rest = bytes;
    while !rest.is_empty() {
        let Ok(count) = sink.write(rest) else {
            return Err(WriteFault);
        };
        rest = &rest[count..];
    }
    Ok(())
}
