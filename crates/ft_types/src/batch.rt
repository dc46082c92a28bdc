//! Edits that are committed together.

ghost use Rattle.std.specs.Prelude.{◌≡◌, ◌+◌, ◌<◌, ◌↔◌, [], ◌∷◌, ◌++◌, length, slice_get, OnOk, OnErr, IfOk, IfErr};
ghost use Rattle.std.specs.Option.{option_copied};
ghost use Rattle.ft_types.specs.Edits.{IsPushRefused};

use crate::edit::Edit;
use crate::no_memory::NoMemory;
use std::alloc::Global;
use std::marker::Model;
use thiserror::Error;

/// How many edits a batch holds at most.
pub const MOST_EDITS: usize = 16;

/// 1 to 16 edits, in order, which become one version of the song together or not at all. Contracts
/// see it as the list of its edits.
#[derive(Debug, Drop)]
pub struct Batch {
    edits: Vec<Edit>,
}

impl Model for Batch {
    ghost use Rattle.std.specs.Prelude.{List, ◌≤◌, length};
    ghost use Rattle.ft_types.specs.declared.edit.Edit.{Edit};

    ghost Value = { List Edit };

    ghost view = { λ batch. batch.edits.items };

    ghost invariant = { λ batch. (1 ≤ length batch.edits.items)
        × (length batch.edits.items ≤ 16) };
}

/// Why an edit isn't appended to a batch. It comes back.
#[derive(Debug, Drop, Error)]
pub enum BatchFault {
    /// The batch has 16 edits.
    #[error("the batch has 16 edits")]
    Over {
        /// The edit that is one too many.
        edit: Edit,
    },
    /// Out of memory. No clause says when.
    #[error("out of memory")]
    NoMemory {
        /// The edit that wasn't appended.
        edit: Edit,
    },
}

impl Batch {
    /// A batch of one edit. It keeps `alloc` for its later growth.
    pub fn one(alloc: Global, edit: Edit) -> Result<Batch, NoMemory>
        ensures { IfOk result (λ batch. batch ≡ edit ∷ []) }
    {
        let mut edits = Vec::new(alloc);
        edits.push(edit)?;
        Ok(Batch { edits })
    }

    /// The number of edits, 1 to 16.
    pub fn len(&self) -> usize
        ensures { result ≡ length self.now }
    {
        self.edits.len()
    }

    /// The edit at `i`, counted from 0. None exactly where `i` isn't below the length.
    pub fn get(&self, i: usize) -> Option<&Edit>
        ensures { option_copied result ≡ slice_get self.now i }
    {
        self.edits.get(i)
    }

    /// All edits, in order.
    pub fn as_slice(&self) -> &[Edit]
        ensures { result.now ≡ self.now }
    {
        self.edits.as_slice()
    }

    /// Appends an edit. `Over` comes exactly where the batch has 16 edits. After either fault the
    /// batch is as it was.
    pub fn push(&mut self, edit: Edit) -> Result<(), BatchFault>
        ensures ok { OnOk result (self.new ≡ self.old ++ edit ∷ []) }
        ensures err { OnErr result (self.new ≡ self.old) }
        ensures cause { IfErr result (λ fault. IsPushRefused fault edit (length self.old)) }
        ensures room { OnOk result (length self.old < 16) }
    {
        if self.edits.len() == MOST_EDITS {
            return Err(BatchFault::Over { edit });
        }
        match self.edits.push(edit) {
            Ok(()) => Ok(()),
            Err(refused) => Err(BatchFault::NoMemory {
                edit: refused.value,
            }),
        }
    }

    /// An equal batch.
    pub fn copy(&self) -> Result<Batch, NoMemory>
        ensures { IfOk result (λ batch. batch ≡ self.now) }
    {
        let alloc = *self.edits.allocator();
        let mut edits = Vec::with_capacity(alloc, self.edits.len())?;
        for edit in self.edits.iter() {
            edits.push(edit.copy(alloc)?)?;
        }
        Ok(Batch { edits })
    }
}
