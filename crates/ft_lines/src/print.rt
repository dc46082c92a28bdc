//! Edits written as text.

ghost use Rattle.std.specs.Prelude.{◌≡◌, ◌++◌, codes, IfOk, OnOk};
ghost use Rattle.std.specs.List.{All, flat_map};
ghost use Rattle.ft_types.specs.Edits.{IsGivable};
ghost use Rattle.ft_types.specs.EditParts.{EditHasRanges};
ghost use Rattle.ft_lines.specs.Texts.{edit_text, batch_text};
ghost use Rattle.ft_lines.specs.ReadBack.{IsReadBack, IsBatchReadBack};

use crate::words::{bytes_of, numbered, with_bytes};
use ft_types::{Batch, Edit, LastType, NoMemory};
use std::alloc::Global;

/// The text of an edit. Its values are in the ranges of their types.
#[tactic(auto, unfolding(crate::specs::Texts::edit_text), using(crate::proofs::Closing::none_close, crate::proofs::Closing::title_closes, crate::proofs::Closing::name_closes, crate::proofs::Closing::frames_close))]
fn printed(alloc: Global, edit: &Edit) -> Result<Vec<u8>, NoMemory>
    ensures text { IfOk result (λ text. text.items ≡ edit_text edit.now) }
    ensures ranges { EditHasRanges edit.now }
{
    let parts = edit.parts();
    let name = parts.kind.name();
    let numbers = parts.numbers.as_slice();
    match parts.kind.last() {
        LastType::Nothing => numbered(alloc, name, numbers),
        LastType::Title | LastType::Name => with_bytes(alloc, name, numbers, parts.name),
        LastType::Frames => {
            let bytes = bytes_of(alloc, parts.frames)?;
            with_bytes(alloc, name, numbers, bytes.as_slice())
        }
    }
}

/// The text of an edit: its words, with one space between two of them. Names are written with all
/// their bytes. No fault but running out of memory.
#[tactic(auto, using(crate::proofs::LinesBack::edits_are_read_back))]
pub fn print_edit(alloc: Global, edit: &Edit) -> Result<Vec<u8>, NoMemory>
    ensures text { IfOk result (λ text. text.items ≡ edit_text edit.now) }
    ensures read { IsGivable edit.now → IsReadBack edit.now }
{
    printed(alloc, edit)
}

/// Puts an edit behind others, with ` ; ` between them. Its values are in the ranges of their types.
fn put_other(alloc: Global, text: &mut Vec<u8>, other: &Edit) -> Result<(), NoMemory>
    ensures text { OnOk result (text.new.items ≡
        text.old.items ++ (codes " ; " ++ edit_text other.now)) }
    ensures ranges { OnOk result (EditHasRanges other.now) }
{
    text.extend_from_slice(b" ; ")?;
    text.extend_from_slice(printed(alloc, other)?.as_slice())?;
    Ok(())
}

/// Puts edits behind others.
fn put_others(alloc: Global, text: &mut Vec<u8>, others: &[Edit]) -> Result<(), NoMemory>
    ensures text { OnOk result (text.new.items ≡
        text.old.items ++ flat_map (λ other. codes " ; " ++ edit_text other) others.now) }
    ensures ranges { OnOk result (All EditHasRanges others.now) }
{
    for other in others {
        put_other(alloc, text, other)?;
    }
    Ok(())
}

/// The text of a batch: those of its edits, with ` ; ` between two of them. No fault but running
/// out of memory. A text of at most 4,096 bytes is read as the batch, whose values are in the
/// ranges of their types.
#[tactic(auto, unfolding(crate::specs::Texts::batch_text))]
pub fn print_batch(alloc: Global, batch: &Batch) -> Result<Vec<u8>, NoMemory>
    ensures text { IfOk result (λ text. text.items ≡ batch_text batch.now) }
    ensures read { OnOk result (IsBatchReadBack batch.now) }
    ensures ranges { OnOk result (All EditHasRanges batch.now) }
{
    let Some((first, others)) = batch.as_slice().split_first() else {
        return Ok(Vec::new(alloc));
    };
    let mut text = printed(alloc, first)?;
    put_others(alloc, &mut text, others)?;
    Ok(text)
}
