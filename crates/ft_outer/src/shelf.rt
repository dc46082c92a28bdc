//! A place for bytes.

ghost use Rattle.std.specs.Prelude.{◌≡◌, ◌≤◌, ◌<◌, ◌↔◌, [], length, IfOk, IsNone, IfSome, IfNone};
ghost use Rattle.ft_outer.specs.Memory.{IsFull, fit_of, after_taking};

use ft_types::NoMemory;
use std::alloc::Global;
use std::marker::Model;

/// Bytes that were taken, with the memory for `room` of them.
#[derive(Debug, Drop)]
pub(crate) struct Shelf {
    bytes: Vec<u8>,
    room: usize,
    piece: usize,
}

impl Model for Shelf {
    ghost use Rattle.std.specs.Prelude.{◌≤◌, length};
    ghost use Rattle.std.specs.Vec.{vec_capacity};
    ghost use Rattle.ft_outer.specs.Memory.{ShelfState};

    ghost Value = { ShelfState };

    ghost view = { λ shelf. record { bytes = shelf.bytes.items; room = shelf.room; piece = shelf.piece } };

    ghost invariant = { λ shelf. (length shelf.bytes.items ≤ shelf.room)
        × (shelf.room ≤ vec_capacity shelf.bytes) × (1 ≤ shelf.piece) };
}

impl Shelf {
    /// Reserves the memory for `room` bytes, which come in pieces of at most `piece`.
    pub(crate) fn new(alloc: Global, room: usize, piece: usize) -> Result<Shelf, NoMemory>
        requires { 1 ≤ piece }
        ensures { IfOk result (λ shelf. shelf ≡ record { bytes = []; room = room; piece = piece }) }
    {
        let bytes = Vec::with_capacity(alloc, room)?;
        Ok(Shelf { bytes, room, piece })
    }

    /// The bytes that it took.
    pub(crate) fn bytes(&self) -> &[u8]
        ensures { result.now ≡ self.now.bytes }
    {
        &self.bytes
    }

    /// Takes a front of `piece`, and answers how many bytes. None exactly where none fits.
    pub(crate) fn take(&mut self, piece: &[u8]) -> Option<usize>
        ensures full { IsNone result ↔ (IsFull self.old × (0 < length piece.now)) }
        ensures count { IfSome result (λ n. n ≡ fit_of self.old (length piece.now)) }
        ensures some { IfSome result (λ n. 0 < length piece.now → 0 < n) }
        ensures taken { IfSome result (λ n. self.new ≡ after_taking self.old piece.now n) }
        ensures none { IfNone result (self.new ≡ self.old) }
    {
        let free = self.room - self.bytes.len();
        if free == 0 && !piece.is_empty() {
            return None;
        }
        let count = piece.len().min(self.piece).min(free);
        // The memory is reserved, so this never fails.
        self.bytes.extend_from_slice(&piece[..count]).ok()?;
        Some(count)
    }
}
