//! Calls that are counted, and some of which fail.

ghost use Rattle.std.specs.Prelude.{◌≡◌, ◌≤◌, ◌↔◌, Contains, IsTrue, IsErr, OnOk, OnErr};
ghost use Rattle.ft_outer.specs.Counts.{HasCause, Rose};
ghost use Rattle.ft_outer.specs.Memory.{next_call, after_call, after_fault};

use crate::source::Failed;
use std::marker::Model;

/// Counts calls from 1, and knows those that fail.
#[derive(Debug, Drop)]
pub(crate) struct Calls {
    fails: Vec<u32>,
    made: u64,
    faults: u64,
}

impl Model for Calls {
    ghost use Rattle.ft_outer.specs.Memory.{CallState};

    ghost Value = { CallState };

    ghost view = { λ calls. record { fails = calls.fails.items; made = calls.made; faults = calls.faults } };
}

impl Calls {
    /// No call was made.
    pub(crate) fn new(fails: Vec<u32>) -> Calls
        ensures { result ≡ record { fails = fails.items; made = 0; faults = 0 } }
    {
        Calls {
            fails,
            made: 0,
            faults: 0,
        }
    }

    /// Counts a call. It fails, and a fault is counted, exactly where its number is one of those
    /// that fail.
    pub(crate) fn next(&mut self) -> Result<(), Failed>
        ensures fails { IsErr result ↔ Contains self.old.fails (next_call self.old) }
        ensures ok { OnOk result (self.new ≡ after_call self.old) }
        ensures err { OnErr result (self.new ≡ after_fault (after_call self.old)) }
        ensures cause { HasCause self.old.faults self.new.faults result }
    {
        self.made = self.made.saturating_add(1);
        if contains_call(&self.fails, self.made) {
            self.faults = self.faults.saturating_add(1);
            return Err(Failed);
        }
        Ok(())
    }

    /// Counts a fault.
    pub(crate) fn fail(&mut self)
        ensures fault { self.new ≡ after_fault self.old }
        ensures rose { Rose self.old.faults self.new.faults }
        ensures later { self.old.faults ≤ self.new.faults }
    {
        self.faults = self.faults.saturating_add(1);
    }
}

/// Whether the call of this number is one of those that fail.
fn contains_call(fails: &[u32], call: u64) -> bool
    ensures { IsTrue result ↔ Contains fails.now call }
{
    fails.iter().any(|&failing| u64::from(failing) == call)
}
