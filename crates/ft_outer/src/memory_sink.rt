//! A sink in memory, some of whose calls fail.

ghost use Rattle.std.specs.Prelude.{◌≡◌, ◌≤◌, ◌<◌, ◌↔◌, ◌⊎◌, [], length, Contains, Some, IsErr, IfOk, OnErr};
ghost use Rattle.std.specs.Io.KnownBytes.{WriteAppends};
ghost use Rattle.ft_outer.specs.Counts.{HasCause};
ghost use Rattle.ft_outer.specs.Memory.{IsFull, fit_of, next_call, after_taking, after_call, after_fault};

use crate::calls::Calls;
use crate::shelf::Shelf;
use crate::sink::Sink;
use crate::source::Failed;
use ft_types::NoMemory;
use std::alloc::Global;
use std::marker::Model;

/// A sink in memory of a fixed room, which takes pieces of a largest size. The calls whose numbers
/// it was given fail, and those that find no room.
#[derive(Debug, Drop)]
pub struct MemSink {
    shelf: Shelf,
    calls: Calls,
}

impl Model for MemSink {
    ghost use Rattle.ft_outer.specs.Memory.{MemSinkState};

    ghost Value = { MemSinkState };

    ghost view = { λ sink. record { shelf = sink.shelf; calls = sink.calls } };
}

impl MemSink {
    /// Reserves the memory for `room` bytes, and takes no more later. A call takes at most `piece`
    /// bytes. The calls whose numbers are in `fails`, counted from 1, fail.
    pub fn new(
        alloc: Global,
        room: usize,
        piece: usize,
        fails: Vec<u32>,
    ) -> Result<MemSink, NoMemory>
        requires { 1 ≤ piece }
        ensures shelf { IfOk result (λ sink. sink.shelf
            ≡ record { bytes = []; room = room; piece = piece }) }
        ensures calls { IfOk result (λ sink. sink.calls
            ≡ record { fails = fails.items; made = 0; faults = 0 }) }
    {
        Ok(MemSink {
            shelf: Shelf::new(alloc, room, piece)?,
            calls: Calls::new(fails),
        })
    }

    /// What it took.
    pub fn bytes(&self) -> &[u8]
        ensures { result.now ≡ self.now.shelf.bytes }
    {
        self.shelf.bytes()
    }
}

impl Sink for MemSink {
    ghost held = { λ sink. Some sink.shelf.bytes };

    ghost faults = { λ sink. sink.calls.faults };

    /// Takes as many bytes as `piece`, the largest piece and the room allow.
    fn write(&mut self, piece: &[u8]) -> Result<usize, Failed>
        // What every sink keeps.
        ensures bound { IfOk result (λ n. n ≤ length piece.now) }
        ensures some { IfOk result (λ n. 0 < length piece.now → 0 < n) }
        ensures bytes { WriteAppends (Some self.old.shelf.bytes) (Some self.new.shelf.bytes) result
            piece.now }
        ensures cause { HasCause self.old.calls.faults self.new.calls.faults result }

        ensures fails { IsErr result ↔ (Contains self.old.calls.fails (next_call self.old.calls)
            ⊎ IsFull self.old.shelf × (0 < length piece.now)) }

        ensures count { IfOk result (λ n. n ≡ fit_of self.old.shelf (length piece.now)) }
        ensures after { IfOk result (λ n. self.new
            ≡ record {
              shelf = after_taking self.old.shelf piece.now n;
              calls = after_call self.old.calls;
            }) }

        ensures failed { OnErr result (self.new
            ≡ record { shelf = self.old.shelf; calls = after_fault (after_call self.old.calls) }) }
    {
        self.calls.next()?;
        match self.shelf.take(piece) {
            Some(count) => Ok(count),
            None => {
                self.calls.fail();
                Err(Failed)
            }
        }
    }
}
