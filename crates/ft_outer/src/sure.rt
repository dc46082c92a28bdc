//! A source and a sink in memory that never fail, but where room runs out.

ghost use Rattle.std.specs.Prelude.{◌≡◌, ◌≤◌, ◌<◌, ◌++◌, ◌↔◌, [], length, take, drop, Some, IsOk, IsErr, IfOk, OnErr};
ghost use Rattle.std.specs.Io.{ReadsAtMost};
ghost use Rattle.std.specs.Io.KnownBytes.{ReadConsumes, WriteAppends};
ghost use Rattle.ft_outer.specs.Counts.{HasCause, count_after};
ghost use Rattle.ft_outer.specs.Memory.{share_of, after_giving, IsFull, fit_of, after_taking};

use crate::shelf::Shelf;
use crate::sink::Sink;
use crate::source::{Failed, Source};
use crate::supply::Supply;
use ft_types::NoMemory;
use std::alloc::Global;
use std::marker::Model;

/// Bytes in memory, in pieces of a largest size. It never fails.
#[derive(Debug, Drop)]
pub struct SureSource {
    supply: Supply,
}

impl Model for SureSource {
    ghost use Rattle.ft_outer.specs.Memory.{SupplyState};

    ghost Value = { SupplyState };

    ghost view = { λ source. source.supply };
}

impl SureSource {
    /// Gives `bytes` in pieces of at most `piece` bytes.
    pub fn new(bytes: Vec<u8>, piece: usize) -> SureSource
        requires { 1 ≤ piece }
        ensures { result ≡ record { left = bytes.items; piece = piece; given = 0 } }
    {
        SureSource {
            supply: Supply::new(bytes, piece),
        }
    }
}

impl Source for SureSource {
    ghost left = { λ source. Some source.left };

    ghost given = { λ source. source.given };

    ghost faults = { λ _. 0 };

    /// Gives as many bytes as `buf`, the largest piece and what is left allow. The rest of `buf`
    /// stays as it was.
    fn read(&mut self, buf: &mut [u8]) -> Result<usize, Failed>
        // What every source keeps.
        ensures bound { ReadsAtMost result buf.new }
        ensures bytes { ReadConsumes (Some self.old.left) (Some self.new.left) result buf.new }
        ensures counted { IfOk result (λ n. self.new.given ≡ count_after self.old.given n) }
        ensures uncounted { OnErr result (self.new.given ≡ self.old.given) }
        ensures cause { HasCause 0 0 result }

        ensures sure { IsOk result }
        ensures count { IfOk result (λ n. n ≡ share_of self.old (length buf.old)) }
        ensures given { IfOk result (λ n. buf.new ≡ take n self.old.left ++ drop n buf.old) }
        ensures after { IfOk result (λ n. self.new ≡ after_giving self.old n) }
    {
        Ok(self.supply.give(buf))
    }
}

/// A sink in memory of a fixed room, which takes pieces of a largest size. It fails only where
/// its room is full.
#[derive(Debug, Drop)]
pub struct SureSink {
    shelf: Shelf,
    faults: u64,
}

impl Model for SureSink {
    ghost use Rattle.ft_outer.specs.Memory.{SureSinkState};

    ghost Value = { SureSinkState };

    ghost view = { λ sink. record { shelf = sink.shelf; faults = sink.faults } };
}

impl SureSink {
    /// Reserves the memory for `room` bytes, and takes no more later. A call takes at most
    /// `piece` bytes.
    pub fn new(alloc: Global, room: usize, piece: usize) -> Result<SureSink, NoMemory>
        requires { 1 ≤ piece }
        ensures shelf { IfOk result (λ sink. sink.shelf
            ≡ record { bytes = []; room = room; piece = piece }) }
        ensures faults { IfOk result (λ sink. sink.faults ≡ 0) }
    {
        Ok(SureSink {
            shelf: Shelf::new(alloc, room, piece)?,
            faults: 0,
        })
    }

    /// What it took.
    pub fn bytes(&self) -> &[u8]
        ensures { result.now ≡ self.now.shelf.bytes }
    {
        self.shelf.bytes()
    }
}

impl Sink for SureSink {
    ghost held = { λ sink. Some sink.shelf.bytes };

    ghost faults = { λ sink. sink.faults };

    /// Takes as many bytes as `piece`, the largest piece and the room allow.
    fn write(&mut self, piece: &[u8]) -> Result<usize, Failed>
        // What every sink keeps.
        ensures bound { IfOk result (λ n. n ≤ length piece.now) }
        ensures some { IfOk result (λ n. 0 < length piece.now → 0 < n) }
        ensures bytes { WriteAppends (Some self.old.shelf.bytes) (Some self.new.shelf.bytes) result
            piece.now }
        ensures cause { HasCause self.old.faults self.new.faults result }

        ensures fails { IsErr result ↔ (IsFull self.old.shelf × (0 < length piece.now)) }
        ensures count { IfOk result (λ n. n ≡ fit_of self.old.shelf (length piece.now)) }
        ensures after { IfOk result (λ n. self.new
            ≡ record self.old { shelf = after_taking self.old.shelf piece.now n }) }
        ensures failed { OnErr result (self.new
            ≡ record self.old { faults = count_after self.old.faults 1 }) }
    {
        match self.shelf.take(piece) {
            Some(count) => Ok(count),
            None => {
                self.faults = self.faults.saturating_add(1);
                Err(Failed)
            }
        }
    }
}
