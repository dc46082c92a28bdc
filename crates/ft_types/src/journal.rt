//! What was committed, and what was refused.

ghost use Rattle.std.specs.Prelude.{◌≡◌, ◌+◌, ◌≤◌, [], ◌∷◌, ◌++◌, length, slice_get, OnOk, OnErr};
ghost use Rattle.std.specs.Option.{option_copied};
ghost use Rattle.ft_types.specs.Journals.{JournalState};

use crate::batch::Batch;
use crate::commit_fault::CommitFault;
use crate::no_memory::NoMemory;
use std::alloc::Global;
use std::marker::Model;

/// A batch that was committed.
#[derive(Debug, Drop)]
pub struct Entry {
    /// The version that it made.
    pub version: u32,
    /// The hand that gave it, 0 to 3.
    pub hand: u8,
    /// Which of the hand's batches it is, from 1; refused ones count.
    pub seq: u32,
    /// The edits.
    pub batch: Batch,
}

/// A batch that was refused.
#[derive(Debug, Drop)]
pub struct Refusal {
    /// The hand that gave it, 0 to 3.
    pub hand: u8,
    /// Which of the hand's batches it is, from 1; refused ones count.
    pub seq: u32,
    /// The edits.
    pub batch: Batch,
    /// Why it was refused.
    pub cause: CommitFault,
}

/// The batches that were committed and those that were refused, each in order. Contracts see the
/// two lists, and for how many more in each of them there is room.
#[derive(Debug, Drop)]
pub struct Journal {
    entries: Vec<Entry>,
    refusals: Vec<Refusal>,
}

impl Model for Journal {
    ghost use Rattle.std.specs.Prelude.{◌-◌, length, min};
    ghost use Rattle.std.specs.Vec.{vec_capacity};
    ghost use Rattle.ft_types.specs.Journals.{JournalState};

    ghost Value = { JournalState };

    ghost view = { λ journal. record {
      entries = journal.entries.items;
      refusals = journal.refusals.items;
      room = min (vec_capacity journal.entries - length journal.entries.items)
          (vec_capacity journal.refusals - length journal.refusals.items);
    } };
}

impl Journal {
    /// The empty journal. It keeps `alloc` for its later growth.
    pub fn new(alloc: Global) -> Journal
        ensures entries { result.entries ≡ [] }
        ensures refusals { result.refusals ≡ [] }
    {
        Journal {
            entries: Vec::new(alloc),
            refusals: Vec::new(alloc),
        }
    }

    /// The number of entries.
    pub fn entries(&self) -> usize
        ensures { result ≡ length self.now.entries }
    {
        self.entries.len()
    }

    /// The entry at `i`, counted from 0. None exactly where `i` isn't below their number.
    pub fn entry(&self, i: usize) -> Option<&Entry>
        ensures { option_copied result ≡ slice_get self.now.entries i }
    {
        self.entries.get(i)
    }

    /// The number of refusals.
    pub fn refusals(&self) -> usize
        ensures { result ≡ length self.now.refusals }
    {
        self.refusals.len()
    }

    /// The refusal at `i`, counted from 0. None exactly where `i` isn't below their number.
    pub fn refusal(&self, i: usize) -> Option<&Refusal>
        ensures { option_copied result ≡ slice_get self.now.refusals i }
    {
        self.refusals.get(i)
    }

    /// Makes room for one more in both lists, which stay as they are, also where memory runs out.
    pub fn reserve(&mut self) -> Result<(), NoMemory>
        ensures entries { self.new.entries ≡ self.old.entries }
        ensures refusals { self.new.refusals ≡ self.old.refusals }
        ensures room { OnOk result (1 ≤ self.new.room) }
        ensures kept { self.old.room ≤ self.new.room }
    {
        self.entries.reserve(1)?;
        self.refusals.reserve(1)?;
        Ok(())
    }

    /// Appends an entry. No memory is taken.
    pub fn enter(&mut self, e: Entry)
        requires { 1 ≤ self.old.room }
        ensures entries { self.new.entries ≡ self.old.entries ++ e ∷ [] }
        ensures refusals { self.new.refusals ≡ self.old.refusals }
        ensures room { self.old.room ≤ self.new.room + 1 }
    {
        self.entries.push_reserved(e);
    }

    /// Appends a refusal. No memory is taken.
    pub fn refuse(&mut self, r: Refusal)
        requires { 1 ≤ self.old.room }
        ensures entries { self.new.entries ≡ self.old.entries }
        ensures refusals { self.new.refusals ≡ self.old.refusals ++ r ∷ [] }
        ensures room { self.old.room ≤ self.new.room + 1 }
    {
        self.refusals.push_reserved(r);
    }
}
