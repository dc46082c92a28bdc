//! Writers that take less than they are given, or fail.

ghost use Rattle.std.specs.Prelude.{None};

use ft_out::put_frames;
use ft_outer::{Failed, OutSink, Sink, put_all};
use std::alloc::Global;
use std::io;
use std::io::{ErrorKind, Write};

/// Keeps three bytes of each piece, as long as they find room. It fails where none does, and at an
/// empty piece.
#[derive(Drop)]
struct Narrow<'a> {
    room: usize,
    kept: &'a mut Vec<u8>,
}

impl Write for Narrow<'_> {
    fn write(&mut self, buf: &[u8]) -> io::Result<usize> {
        let count = buf.len().min(3).min(self.room);
        if count == 0 {
            return Err(io::Error::from(ErrorKind::WriteZero));
        }
        self.kept.extend_from_slice(&buf[..count])?;
        self.room -= count;
        Ok(count)
    }

    fn flush(&mut self) -> io::Result<()> {
        Ok(())
    }
}

/// What such a writer of that much room keeps of `abcdefgh`, and whether that was answered as all.
static KEPT: [(usize, bool, &[u8]); 4] = [
    (8, true, b"abcdefgh"),
    (9, true, b"abcdefgh"),
    (7, false, b"abcdefg"),
    (0, false, b""),
];

/// Whether a writer of this room keeps just these bytes.
fn keeps(alloc: Global, room: usize, whole: bool, bytes: &[u8]) -> bool {
    let mut kept = Vec::new(alloc);
    let answer = put_all(
        &mut OutSink::new(Narrow {
            room,
            kept: &mut kept,
        }),
        b"abcdefgh",
    );
    answer.is_ok() == whole && kept.as_slice() == bytes
}

#[test]
fn a_short_write_is_told_as_short(rt: HostRuntime) {
    for (room, whole, bytes) in KEPT.iter() {
        assert!(rt; keeps(rt.alloc(), *room, *whole, bytes), "{room}");
    }
}

#[test]
fn an_empty_write_that_fails_is_a_fault(rt: HostRuntime) {
    let mut kept = Vec::new(rt.alloc());
    let mut sink = OutSink::new(Narrow {
        room: 8,
        kept: &mut kept,
    });
    assert!(rt; sink.write(b"") == Err(Failed));
    assert!(rt; sink.write(b"abcd") == Ok(3));
}

/// Takes a byte at each call but one, and counts the calls that follow that.
#[derive(Drop)]
struct Stumbling {
    calls_before: u32,
    calls_after: u32,
    faults: u64,
}

impl Sink for Stumbling {
    ghost held = { λ _. None };

    ghost faults = { λ sink. sink.faults };

    fn write(&mut self, piece: &[u8]) -> Result<usize, Failed> {
        if self.calls_before > 0 {
            self.calls_before -= 1;
            return Ok(piece.len().min(1));
        }
        if self.faults == 0 {
            self.faults = 1;
            return Err(Failed);
        }
        self.calls_after = self.calls_after.saturating_add(1);
        Ok(piece.len().min(1))
    }
}

/// How often a sink is called after a fault, which comes after that many calls: by bytes, and by
/// frames.
fn calls_after(calls_before: u32) -> (u32, u32) {
    let mut bytes = Stumbling {
        calls_before,
        calls_after: 0,
        faults: 0,
    };
    let mut frames = Stumbling {
        calls_before,
        calls_after: 0,
        faults: 0,
    };
    let _ = put_all(&mut bytes, b"abcdefgh");
    let _ = put_frames(&mut frames, &[1, 2, 3, 4]);
    (bytes.calls_after, frames.calls_after)
}

#[test]
fn a_sink_is_not_called_again_after_a_fault(rt: HostRuntime) {
    for calls in 0..8 {
        assert!(rt; calls_after(calls) == (0, 0), "{calls}");
    }
}
