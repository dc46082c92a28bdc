//! Bytes that are given piece by piece.

ghost use Rattle.std.specs.Prelude.{◌≡◌, ◌≤◌, ◌++◌, length, take, drop};
ghost use Rattle.ft_outer.specs.Memory.{share_of, after_giving};

use std::marker::Model;

/// Bytes, of which `at` were given.
#[derive(Debug, Drop)]
pub(crate) struct Supply {
    bytes: Vec<u8>,
    at: usize,
    piece: usize,
    given: u64,
}

impl Model for Supply {
    ghost use Rattle.std.specs.Prelude.{◌≤◌, drop, length};
    ghost use Rattle.ft_outer.specs.Memory.{SupplyState};

    ghost Value = { SupplyState };

    ghost view = { λ supply. record {
      left = drop supply.at supply.bytes.items;
      piece = supply.piece;
      given = supply.given;
    } };

    ghost invariant = { λ supply. (supply.at ≤ length supply.bytes.items) × (1 ≤ supply.piece) };
}

impl Supply {
    /// All of `bytes`, in pieces of at most `piece` bytes.
    pub(crate) fn new(bytes: Vec<u8>, piece: usize) -> Supply
        requires { 1 ≤ piece }
        ensures { result ≡ record { left = bytes.items; piece = piece; given = 0 } }
    {
        Supply {
            bytes,
            at: 0,
            piece,
            given: 0,
        }
    }

    /// Gives the next bytes into the front of `buf`, and answers how many.
    pub(crate) fn give(&mut self, buf: &mut [u8]) -> usize
        ensures count { result ≡ share_of self.old (length buf.old) }
        ensures bytes { buf.new ≡ take result self.old.left ++ drop result buf.old }
        ensures after { self.new ≡ after_giving self.old result }
        ensures some { 1 ≤ self.old.piece }
    {
        let left = self.bytes.len() - self.at;
        let count = buf.len().min(self.piece).min(left);
        buf[..count].copy_from_slice(&self.bytes[self.at..self.at + count]);
        self.at += count;
        self.given = self.given.saturating_add(count as u64);
        count
    }
}
