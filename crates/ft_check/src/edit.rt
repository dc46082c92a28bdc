//! Edits applied to a module.

ghost use Rattle.std.specs.Prelude.{◌≡◌, None, Ok, Err, OnOk, OnErr, IfErr};
ghost use Rattle.ft_types.specs.Valid.{IsValid};
ghost use Rattle.ft_types.specs.Edits.{IsGivable};
ghost use Rattle.ft_edits.specs.Allowed.{Allows};
ghost use Rattle.ft_edits.specs.Apply.{apply};
ghost use Rattle.ft_edits.specs.Edited.{edited};
ghost use Rattle.ft_check.specs.Applied.{IsCause};

use crate::instrument::do_instrument_edit;
use crate::pattern::do_pattern_edit;
use crate::sample::{do_frame_edit, do_sample_edit};
use crate::song::do_song_edit;
use ft_edits::{
    Group, allowed_edits_name_what_is_there, fault_of_module, group_of, holds_fields,
    valid_stays_valid,
};
use ft_types::{Edit, EditFault, Module, NoMemory};
use std::alloc::Global;
use thiserror::Error;

/// Why an edit isn't applied. The module stays as it was.
#[derive(Clone, Copy, Debug, PartialEq, Eq, Error)]
pub enum ApplyFault {
    /// The edit is refused.
    #[error("{0}")]
    Edit(EditFault),
    /// Out of memory. The edit isn't refused; no clause says when this comes.
    #[error("out of memory")]
    NoMemory,
}

/// Does an edit that isn't refused.
fn do_edit(alloc: Global, m: &mut Module, e: &Edit) -> Result<(), NoMemory>
    requires valid { IsValid m.old }
    requires there { Allows m.old e.now }
    requires givable { IsGivable e.now }
    ensures ok { OnOk result (m.new ≡ edited m.old e.now) }
    ensures err { OnErr result (m.new ≡ m.old) }
{
    match group_of(e) {
        Group::Patterns => do_pattern_edit(alloc, m, e),
        Group::Song => do_song_edit(alloc, m, e),
        Group::Instruments => do_instrument_edit(alloc, m, e),
        Group::Samples => do_sample_edit(alloc, m, e),
        Group::Frames => do_frame_edit(alloc, m, e),
    }
}

/// Applies an edit. `Edit` comes exactly where the edit is refused, with the first of its faults;
/// out of memory comes only where it isn't. After a fault the module is as it was.
pub fn apply_edit(alloc: Global, m: &mut Module, e: &Edit) -> Result<(), ApplyFault>
    requires valid { IsValid m.old }
    requires givable { IsGivable e.now }
    ensures ok { OnOk result (apply m.old e.now ≡ Ok m.new) }
    ensures fault { IfErr result (λ fault. IsCause fault (apply m.old e.now)) }
    ensures kept { OnErr result (m.new ≡ m.old) }
    ensures valid { IsValid m.new }
{
    match fault_of_module(m, e) {
        Some(fault) => Err(ApplyFault::Edit(fault)),
        None => {
            allowed_edits_name_what_is_there();
            holds_fields(e);
            valid_stays_valid();
            match do_edit(alloc, m, e) {
                Ok(()) => Ok(()),
                Err(NoMemory) => Err(ApplyFault::NoMemory),
            }
        }
    }
}
