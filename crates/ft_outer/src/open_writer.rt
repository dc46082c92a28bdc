//! A writer of the system, once it is open.

ghost use Rattle.std.specs.Prelude.{◌≡◌, ◌<◌, ◌≤◌, length, IfOk, OnErr};
ghost use Rattle.std.specs.Io.KnownBytes.{WriteAppends};
ghost use Rattle.ft_outer.specs.Counts.{count_after};

use crate::source::Failed;
use std::io::Write;
use std::marker::Model;

/// An open writer, which counts the bytes that it took.
#[derive(Drop)]
pub(crate) struct OpenWriter<W: Write + Drop> {
    writer: W,
    taken: u64,
}

impl<W: Write + Drop> Model for OpenWriter<W> {
    ghost use Rattle.ft_outer.specs.Files.{OpenWriterState};

    ghost Value = { OpenWriterState };

    ghost view = { λ it. record { held = W.contents it.writer; taken = it.taken } };
}

impl<W: Write + Drop> OpenWriter<W> {
    /// Nothing was written to it yet.
    pub(crate) fn new(writer: W) -> OpenWriter<W>
        ensures { result ≡ record { held = W.contents writer; taken = 0 } }
    {
        OpenWriter { writer, taken: 0 }
    }

    /// One write of a front of `piece`. A writer that takes no byte of a piece that isn't empty
    /// has failed. A failure leaves what it holds.
    pub(crate) fn write(&mut self, piece: &[u8]) -> Result<usize, Failed>
        ensures bound { IfOk result (λ n. n ≤ length piece.now) }
        ensures some { IfOk result (λ n. 0 < length piece.now → 0 < n) }
        ensures bytes { WriteAppends self.old.held self.new.held result piece.now }
        ensures counted { IfOk result (λ n. self.new.taken ≡ count_after self.old.taken n) }
        ensures uncounted { OnErr result (self.new.taken ≡ self.old.taken) }
    {
        match self.writer.write(piece) {
            Ok(count) if count > 0 || piece.is_empty() => {
                self.taken = self.taken.saturating_add(count as u64);
                Ok(count)
            }
            _ => Err(Failed),
        }
    }
}
