//! A writer as a sink, as standard output is.

ghost use Rattle.std.specs.Prelude.{◌≡◌, ◌<◌, ◌≤◌, length, IfOk, OnErr};
ghost use Rattle.std.specs.Io.KnownBytes.{WriteAppends};
ghost use Rattle.ft_outer.specs.Counts.{HasCause, count_after};

use crate::open_writer::OpenWriter;
use crate::sink::Sink;
use crate::source::Failed;
use std::io::Write;
use std::marker::Model;

/// A writer that is open, as `io::writer` gives one of standard output. It holds what the writer
/// holds, where the writer's type says that. Each piece is written at once.
///
/// A writer that takes no byte of a piece that isn't empty is a fault.
#[derive(Drop)]
pub struct OutSink<W: Write + Drop> {
    writer: OpenWriter<W>,
    faults: u64,
}

impl<W: Write + Drop> Model for OutSink<W> {
    ghost use Rattle.ft_outer.specs.Files.{OutSinkState};

    ghost Value = { OutSinkState };

    ghost view = { λ sink. record { writer = sink.writer; faults = sink.faults } };
}

impl<W: Write + Drop> OutSink<W> {
    /// Nothing is written yet.
    pub fn new(writer: W) -> OutSink<W>
        ensures writer { result.writer ≡ record { held = W.contents writer; taken = 0 } }
        ensures faults { result.faults ≡ 0 }
    {
        OutSink {
            writer: OpenWriter::new(writer),
            faults: 0,
        }
    }
}

impl<W: Write + Drop> Sink for OutSink<W> {
    ghost held = { λ sink. sink.writer.held };

    ghost faults = { λ sink. sink.faults };

    fn write(&mut self, piece: &[u8]) -> Result<usize, Failed>
        // What every sink keeps.
        ensures bound { IfOk result (λ n. n ≤ length piece.now) }
        ensures some { IfOk result (λ n. 0 < length piece.now → 0 < n) }
        ensures bytes { WriteAppends self.old.writer.held self.new.writer.held result piece.now }
        ensures cause { HasCause self.old.faults self.new.faults result }

        // The writer took all that was answered, and no more.
        ensures counted { IfOk result (λ n. self.new.writer.taken
            ≡ count_after self.old.writer.taken n) }
        ensures uncounted { OnErr result (self.new.writer.taken ≡ self.old.writer.taken) }
    {
        let answer = self.writer.write(piece);
        if answer.is_err() {
            self.faults = self.faults.saturating_add(1);
        }
        answer
    }
}
