//! A source in memory, some of whose calls fail.

ghost use Rattle.std.specs.Prelude.{◌≡◌, ◌≤◌, ◌++◌, ◌↔◌, length, take, drop, Contains, Some, IsErr, IfOk, OnErr};
ghost use Rattle.std.specs.Io.{ReadsAtMost};
ghost use Rattle.std.specs.Io.KnownBytes.{ReadConsumes};
ghost use Rattle.ft_outer.specs.Counts.{HasCause, count_after};
ghost use Rattle.ft_outer.specs.Memory.{share_of, next_call, after_giving, after_call, after_fault};

use crate::calls::Calls;
use crate::source::{Failed, Source};
use crate::supply::Supply;
use std::marker::Model;

/// Bytes in memory, in pieces of a largest size. The calls whose numbers it was given fail.
#[derive(Debug, Drop)]
pub struct MemSource {
    supply: Supply,
    calls: Calls,
}

impl Model for MemSource {
    ghost use Rattle.ft_outer.specs.Memory.{MemSourceState};

    ghost Value = { MemSourceState };

    ghost view = { λ source. record { supply = source.supply; calls = source.calls } };
}

impl MemSource {
    /// Gives `bytes` in pieces of at most `piece` bytes. The calls whose numbers are in `fails`,
    /// counted from 1, fail.
    pub fn new(bytes: Vec<u8>, piece: usize, fails: Vec<u32>) -> MemSource
        requires { 1 ≤ piece }
        ensures supply { result.supply ≡ record { left = bytes.items; piece = piece; given = 0 } }
        ensures calls { result.calls ≡ record { fails = fails.items; made = 0; faults = 0 } }
    {
        MemSource {
            supply: Supply::new(bytes, piece),
            calls: Calls::new(fails),
        }
    }
}

impl Source for MemSource {
    ghost left = { λ source. Some source.supply.left };

    ghost given = { λ source. source.supply.given };

    ghost faults = { λ source. source.calls.faults };

    /// Gives as many bytes as `buf`, the largest piece and what is left allow. The rest of `buf`
    /// stays as it was.
    fn read(&mut self, buf: &mut [u8]) -> Result<usize, Failed>
        // What every source keeps.
        ensures bound { ReadsAtMost result buf.new }
        ensures bytes { ReadConsumes (Some self.old.supply.left) (Some self.new.supply.left) result
            buf.new }
        ensures counted { IfOk result (λ n. self.new.supply.given
            ≡ count_after self.old.supply.given n) }
        ensures uncounted { OnErr result (self.new.supply.given ≡ self.old.supply.given) }
        ensures cause { HasCause self.old.calls.faults self.new.calls.faults result }

        ensures fails { IsErr result ↔ Contains self.old.calls.fails (next_call self.old.calls) }

        ensures count { IfOk result (λ n. n ≡ share_of self.old.supply (length buf.old)) }
        ensures given { IfOk result (λ n. buf.new ≡ take n self.old.supply.left ++ drop n buf.old) }
        ensures after { IfOk result (λ n. self.new
            ≡ record {
              supply = after_giving self.old.supply n;
              calls = after_call self.old.calls;
            }) }

        ensures kept { OnErr result (buf.new ≡ buf.old) }
        ensures failed { OnErr result (self.new
            ≡ record {
              supply = self.old.supply;
              calls = after_fault (after_call self.old.calls);
            }) }
    {
        self.calls.next()?;
        Ok(self.supply.give(buf))
    }
}
