//! The lines of a ledger that have edits.

ghost use Rattle.std.specs.Prelude.{◌≡◌, ◌≤◌, ◌∷◌, [], ◌++◌, length, All, IfOk, IfSome, MatchBool};
ghost use Rattle.std.specs.Bool.{OnTrue};
ghost use Rattle.ft_types.specs.Edits.{IsGivable};
ghost use Rattle.ft_text.specs.Record.{CanBeEntered, CanBeRefused};
ghost use Rattle.std.specs.Option.{option_copied};
ghost use Rattle.ft_lines.specs.Lines.{line_of};
ghost use Rattle.ft_text.specs.LedgerWords.{said, one_edit, each_edit, batch_of, most_edits, entry, refusal};
ghost use Rattle.ft_text.specs.LedgerAnswers.{parts_left, behind, few_edits};

use crate::ledger_takes::cause;
use crate::ledger_words::{Words, next_of};
use ft_lines::{LineFault, Timed, print_batch, read_edit};
use ft_types::{Batch, BatchFault, Edit, Entry, NoMemory, Refusal};
use std::alloc::Global;

/// The edit of a part, without a time.
fn edit_of(alloc: Global, part: &[u8]) -> Result<Option<Edit>, NoMemory>
    ensures value { IfOk result (λ edit. edit ≡ one_edit (line_of 0 part.now)) }
    ensures givable { IfOk result (λ edit. IfSome edit IsGivable) }
{
    match read_edit(alloc, part) {
        Ok(Some(Timed { at: None, edit })) => Ok(Some(edit)),
        Ok(_) => Ok(None),
        Err(LineFault::Bad { .. }) => Ok(None),
        Err(LineFault::NoMemory) => Err(NoMemory),
    }
}

/// Puts an edit behind others, unless there are 16.
#[tactic(auto, using(crate::proofs::Pushed::all_pushed))]
fn push(batch: &mut Batch, edit: Edit) -> Result<bool, NoMemory>
    requires old { All IsGivable batch.old }
    requires new { IsGivable edit }
    ensures put { IfOk result (λ put. MatchBool put
        ((batch.new ≡ batch.old ++ edit ∷ []) × (length batch.new ≤ 16))
        (16 ≤ length batch.old)) }
    ensures givable { IfOk result (λ put. OnTrue put (All IsGivable batch.new)) }
{
    match batch.push(edit) {
        Ok(()) => Ok(true),
        Err(BatchFault::Over { .. }) => Ok(false),
        Err(BatchFault::NoMemory { .. }) => Err(NoMemory),
    }
}

/// Puts the edits of the parts that are left behind the first, unless one of them isn't an edit or
/// they are too many.
fn others(alloc: Global, batch: &mut Batch, parts: Option<&[u8]>) -> Result<bool, NoMemory>
    requires few { length batch.old ≤ 16 }
    requires givable { All IsGivable batch.old }
    ensures put { IfOk result (λ put.
        let edits = few_edits (behind batch.old
        (each_edit (parts_left 59 (option_copied parts.entry)))) in
        MatchBool put (edits ≡ Some batch.new) (edits ≡ None)) }
    ensures givable { IfOk result (λ put. OnTrue put (All IsGivable batch.new)) }
{
    let mut left = parts;
    while let Some((part, rest)) = next_of(left, b';') {
        let Some(edit) = edit_of(alloc, part)? else {
            return Ok(false);
        };
        if !push(batch, edit)? {
            return Ok(false);
        }
        left = rest;
    }
    Ok(true)
}

/// The edits of all parts between `;`.
#[tactic(auto, using(crate::proofs::Pushed::all_alone))]
fn edits_of(alloc: Global, text: &[u8]) -> Result<Option<Batch>, NoMemory>
    ensures value { IfOk result (λ batch.
        batch ≡ few_edits (each_edit (parts_left 59 (Some text.now)))) }
    ensures givable { IfOk result (λ batch. IfSome batch (All IsGivable)) }
{
    let Some((part, rest)) = next_of(Some(text), b';') else {
        return Ok(None);
    };
    let Some(edit) = edit_of(alloc, part)? else {
        return Ok(None);
    };
    let mut batch = Batch::one(alloc, edit)?;
    if others(alloc, &mut batch, rest)? {
        Ok(Some(batch))
    } else {
        Ok(None)
    }
}

/// The batch of a text, which is exactly its own.
#[tactic(auto, unfolding(crate::specs::LedgerWords::batch_of))]
fn batch_of(alloc: Global, most: usize, text: &[u8]) -> Result<Option<Batch>, NoMemory>
    requires { most ≤ 16 }
    ensures value { IfOk result (λ batch. batch ≡ batch_of most text.now) }
    ensures givable { IfOk result (λ batch. IfSome batch (All IsGivable)) }
{
    let Some(batch) = edits_of(alloc, text)? else {
        return Ok(None);
    };
    if batch.len() > most {
        return Ok(None);
    }
    let printed = print_batch(alloc, &batch)?;
    if printed.as_slice() == text {
        Ok(Some(batch))
    } else {
        Ok(None)
    }
}

/// How many edits a batch of this form has at most.
fn most_edits(form: u8) -> usize
    ensures value { result ≡ most_edits form }
    ensures few { result ≤ 16 }
{
    if form == 1 { 1 } else { 16 }
}

/// The line of a batch that was committed.
#[tactic(auto, unfolding(crate::specs::LedgerWords::batch))]
pub fn entry_of(alloc: Global, form: u8, line: &[u8]) -> Result<Option<Entry>, NoMemory>
    ensures value { IfOk result (λ found. found ≡ said (entry form) line.now) }
    ensures given { IfOk result (λ found. IfSome found CanBeEntered) }
{
    let mut words = Words::new(line);
    let Some(()) = words.this("c") else {
        return Ok(None);
    };
    let Some(version) = words.u32() else {
        return Ok(None);
    };
    let Some(hand) = words.u8() else {
        return Ok(None);
    };
    let Some(seq) = words.u32() else {
        return Ok(None);
    };
    let Some(batch) = batch_of(alloc, most_edits(form), words.rest())? else {
        return Ok(None);
    };
    Ok(Some(Entry {
        version,
        hand,
        seq,
        batch,
    }))
}

/// The line of a batch that was refused.
#[tactic(auto, unfolding(crate::specs::LedgerWords::batch))]
pub fn refusal_of(alloc: Global, form: u8, line: &[u8]) -> Result<Option<Refusal>, NoMemory>
    ensures value { IfOk result (λ found. found ≡ said (refusal form) line.now) }
    ensures given { IfOk result (λ found. IfSome found CanBeRefused) }
{
    let mut words = Words::new(line);
    let Some(()) = words.this("r") else {
        return Ok(None);
    };
    let Some(hand) = words.u8() else {
        return Ok(None);
    };
    let Some(seq) = words.u32() else {
        return Ok(None);
    };
    let Some(cause) = cause(&mut words, form) else {
        return Ok(None);
    };
    let Some(batch) = batch_of(alloc, most_edits(form), words.rest())? else {
        return Ok(None);
    };
    Ok(Some(Refusal {
        hand,
        seq,
        batch,
        cause,
    }))
}
