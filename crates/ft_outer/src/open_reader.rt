//! A reader of the system, once it is open.

ghost use Rattle.std.specs.Prelude.{◌≡◌, IfOk, OnErr};
ghost use Rattle.std.specs.Io.{ReadsAtMost};
ghost use Rattle.std.specs.Io.KnownBytes.{ReadConsumes};
ghost use Rattle.ft_outer.specs.Counts.{count_after};

use crate::source::Failed;
use std::io::Read;
use std::marker::Model;

/// An open reader, which counts the bytes that it gave.
#[derive(Drop)]
pub(crate) struct OpenReader<F: Read + Drop> {
    reader: F,
    given: u64,
}

impl<F: Read + Drop> Model for OpenReader<F> {
    ghost use Rattle.ft_outer.specs.Files.{OpenReaderState};

    ghost Value = { OpenReaderState };

    ghost view = { λ it. record { left = F.remaining it.reader; given = it.given } };
}

impl<F: Read + Drop> OpenReader<F> {
    /// Nothing was read of it yet.
    pub(crate) fn new(reader: F) -> OpenReader<F>
        ensures { result ≡ record { left = F.remaining reader; given = 0 } }
    {
        OpenReader { reader, given: 0 }
    }

    /// One read. A failure leaves what is left, and is never answered as the end.
    pub(crate) fn read(&mut self, buf: &mut [u8]) -> Result<usize, Failed>
        ensures bound { ReadsAtMost result buf.new }
        ensures bytes { ReadConsumes self.old.left self.new.left result buf.new }
        ensures counted { IfOk result (λ n. self.new.given ≡ count_after self.old.given n) }
        ensures uncounted { OnErr result (self.new.given ≡ self.old.given) }
    {
        match self.reader.read(buf) {
            Ok(count) => {
                self.given = self.given.saturating_add(count as u64);
                Ok(count)
            }
            Err(_) => Err(Failed),
        }
    }
}
