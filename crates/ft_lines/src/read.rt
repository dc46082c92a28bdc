//! Lines of scripts, read.

ghost use Rattle.std.specs.Prelude.{◌≡◌, ◌≢◌, ◌+◌, ◌<◌, ◌≤◌, [], ◌∷◌, ◌++◌, length, OnOk, IfOk, IfErr, IfSome, Err};
ghost use Rattle.std.specs.List.{All};
ghost use Rattle.ft_types.specs.Edits.{IsGivable};
ghost use Rattle.ft_types.specs.EditParts.{edit_of};
ghost use Rattle.ft_lines.specs.Answers.{Reads, Tells, NoneExactly, IsKnown};
ghost use Rattle.ft_lines.specs.Edits.{one_number, numbers_reading, closed_reading, kind_reading, edit_reading};
ghost use Rattle.ft_lines.specs.Lines.{time_reading, timed_reading, another_reading, others_reading, edits_reading, begins_with_hash, beginning, line_of, edits_behind, IsSkipped};

use crate::cursor::{Cursor, MOST_BYTES};
use crate::fault::LineFault;
use crate::timed::{Timed, TimedBatch};
use arrayvec::ArrayVec;
use ft_types::{Batch, BatchFault, Edit, EditKind, EditParts, LastType, MOST_EDITS, NumberType};
use std::alloc::Global;

/// Reads one more number, behind fewer than 11.
fn one_number(
    line: &mut Cursor,
    number_type: NumberType,
    numbers: &mut ArrayVec<i64, 11>,
) -> Result<(), LineFault>
    requires { length numbers.old.items < 11 }
    ensures read { Reads (λ _. numbers.new.items) result line.new
        (one_number numbers.old.items number_type line.old) }
    ensures count { OnOk result (length numbers.new.items ≡ length numbers.old.items + 1) }
{
    let n = line.number(number_type)?;
    numbers.push(n);
    Ok(())
}

/// Numbers of these types, in order.
fn numbers(line: &mut Cursor, types: &[NumberType]) -> Result<ArrayVec<i64, 11>, LineFault>
    requires { length types.now ≤ 11 }
    ensures { Reads (λ numbers. numbers.items) result line.new (numbers_reading types.now line.old) }
{
    let mut numbers = ArrayVec::new();
    for number_type in types {
        one_number(line, *number_type, &mut numbers)?;
    }
    Ok(numbers)
}

/// The edit of these parts.
fn made(
    alloc: Global,
    kind: EditKind,
    numbers: ArrayVec<i64, 11>,
    name: &[u8],
    frames: &[i16],
) -> Result<Edit, LineFault>
    ensures edit { IfOk result (λ edit. edit ≡ edit_of (record {
      kind = kind;
      numbers = numbers.items;
      name = name.now;
      frames = frames.now;
    })) }
    ensures memory { IfErr result (λ fault. fault ≡ LineFault.NoMemory) }
{
    let parts = EditParts {
        kind,
        numbers,
        name,
        frames,
    };
    let edit = Edit::from_parts(alloc, &parts)?;
    Ok(edit)
}

/// An edit of a kind and with these numbers, behind them.
fn closed(
    alloc: Global,
    line: &mut Cursor,
    kind: EditKind,
    last: LastType,
    numbers: ArrayVec<i64, 11>,
) -> Result<Edit, LineFault>
    ensures { Reads (λ edit. edit) result line.new
        (closed_reading kind last numbers.items line.old) }
{
    match last {
        LastType::Nothing => made(alloc, kind, numbers, &[], &[]),
        LastType::Title => {
            let name = line.name_20(alloc)?;
            made(alloc, kind, numbers, &name, &[])
        }
        LastType::Name => {
            let name = line.name_22(alloc)?;
            made(alloc, kind, numbers, &name, &[])
        }
        LastType::Frames => {
            let frames = line.frames(alloc)?;
            made(alloc, kind, numbers, &[], frames.as_slice())
        }
    }
}

/// The arguments of an edit.
#[tactic(auto, unfolding(crate::specs::Edits::kind_reading))]
fn edit_behind(alloc: Global, line: &mut Cursor, kind: EditKind) -> Result<Edit, LineFault>
    ensures { Reads (λ edit. edit) result line.new (kind_reading kind line.old) }
{
    let numbers = numbers(line, kind.numbers())?;
    closed(alloc, line, kind, kind.last(), numbers)
}

/// An edit: its name, and then its arguments.
#[inline(always)]
#[tactic(auto, unfolding(crate::specs::Edits::edit_reading), using(crate::proofs::KindNames::reading_named))]
fn edit(alloc: Global, line: &mut Cursor) -> Result<Edit, LineFault>
    ensures { Reads (λ edit. edit) result line.new (edit_reading line.old) }
{
    let word = line.word()?;
    let Some(kind) = EditKind::named(word.bytes) else {
        return Err(LineFault::Bad { at: word.at });
    };
    edit_behind(alloc, line, kind)
}

/// A time behind `at`, or none.
#[tactic(auto, unfolding(crate::specs::Lines::time_reading))]
fn time(line: &mut Cursor) -> Result<Option<u32>, LineFault>
    ensures { Reads (λ at. at) result line.new (time_reading line.old) }
{
    if !line.skips(b"at") {
        return Ok(None);
    }
    let at = line.u32()?;
    Ok(Some(at))
}

/// A time or none, an edit, and nothing more.
#[tactic(auto, unfolding(crate::specs::Lines::timed_reading, crate::specs::Lines::edits_reading))]
fn timed_edit(alloc: Global, line: &mut Cursor) -> Result<Timed, LineFault>
    ensures { Reads (λ timed. (timed.at, timed.edit ∷ [])) result line.new
        (timed_reading 0 line.old) }
{
    let at = time(line)?;
    let edit = edit(alloc, line)?;
    line.end()?;
    Ok(Timed { at, edit })
}

/// Puts an edit behind others, which are fewer than 16.
fn push(batch: &mut Batch, edit: Edit) -> Result<(), LineFault>
    requires { length batch.old < 16 }
    ensures ok { OnOk result (batch.new ≡ batch.old ++ edit ∷ []) }
    ensures err { IfErr result (λ fault. fault ≡ LineFault.NoMemory) }
{
    match batch.push(edit) {
        Ok(()) => Ok(()),
        Err(BatchFault::Over { .. }) => unreachable!(),
        Err(BatchFault::NoMemory { .. }) => Err(LineFault::NoMemory),
    }
}

/// Another edit, behind a `;`.
#[tactic(auto, unfolding(crate::specs::Lines::another_reading))]
fn another(alloc: Global, line: &mut Cursor) -> Result<Edit, LineFault>
    ensures { Reads (λ edit. edit) result line.new (another_reading line.old) }
{
    line.this(b";")?;
    edit(alloc, line)
}

/// Puts the other edits of a line behind the first, each behind a `;`.
fn others(alloc: Global, line: &mut Cursor, batch: &mut Batch) -> Result<(), LineFault>
    requires { length batch.old ≡ 1 }
    ensures { Reads (λ _. batch.new) result line.new
        (edits_behind batch.old (others_reading 15) line.old) }
{
    for _ in 1..MOST_EDITS {
        if line.is_over() {
            return Ok(());
        }
        let edit = another(alloc, line)?;
        push(batch, edit)?;
    }
    line.end()
}

/// An edit, and at most 15 more.
#[tactic(auto, unfolding(crate::specs::Lines::edits_reading))]
fn batch(alloc: Global, line: &mut Cursor) -> Result<Batch, LineFault>
    ensures { Reads (λ batch. batch) result line.new (edits_reading 15 line.old) }
{
    let first = edit(alloc, line)?;
    let mut batch = Batch::one(alloc, first)?;
    others(alloc, line, &mut batch)?;
    Ok(batch)
}

/// A time or none, and edits.
#[tactic(auto, unfolding(crate::specs::Lines::timed_reading))]
fn timed_batch(alloc: Global, line: &mut Cursor) -> Result<TimedBatch, LineFault>
    ensures { Reads (λ timed. (timed.at, timed.batch)) result line.new
        (timed_reading 15 line.old) }
{
    let at = time(line)?;
    let batch = batch(alloc, line)?;
    Ok(TimedBatch { at, batch })
}

/// Whether a line begins with `#`.
fn is_comment(line: &[u8]) -> bool
    ensures { result ≡ begins_with_hash line.now }
{
    matches!(line, [b'#', ..])
}

/// A cursor at the front of a line, unless it is blank or a comment.
#[tactic(auto, unfolding(crate::specs::Lines::beginning))]
fn begin(line: &[u8]) -> Result<Option<Cursor>, LineFault>
    ensures value { Tells (λ cursor. cursor) result (beginning line.now) }
    ensures none { NoneExactly (IsSkipped line.now) result }
    ensures memory { result ≢ Err LineFault.NoMemory }
{
    if line.len() > MOST_BYTES {
        return Err(LineFault::Bad { at: 4096 });
    }
    if is_comment(line) {
        return Ok(None);
    }
    let cursor = Cursor::new(line);
    if cursor.is_over() {
        return Ok(None);
    }
    Ok(Some(cursor))
}

/// What `read_edit` answers.
#[tactic(auto, using(crate::proofs::Givable::known_start, crate::proofs::Givable::known_fault))]
fn one_edit(alloc: Global, line: &[u8]) -> Result<Option<Timed>, LineFault>
    ensures value { Tells (λ timed. (timed.at, timed.edit ∷ [])) result (line_of 0 line.now) }
    ensures none { NoneExactly (IsSkipped line.now) result }
    ensures memory { IfErr result (λ fault. IsKnown fault (beginning line.now)) }
{
    let Some(mut cursor) = begin(line)? else {
        return Ok(None);
    };
    let timed = timed_edit(alloc, &mut cursor)?;
    Ok(Some(timed))
}

/// What `read_batch` answers.
#[tactic(auto, using(crate::proofs::Givable::known_start, crate::proofs::Givable::known_fault))]
fn one_batch(alloc: Global, line: &[u8]) -> Result<Option<TimedBatch>, LineFault>
    ensures value { Tells (λ timed. (timed.at, timed.batch)) result (line_of 15 line.now) }
    ensures none { NoneExactly (IsSkipped line.now) result }
    ensures memory { IfErr result (λ fault. IsKnown fault (beginning line.now)) }
{
    let Some(mut cursor) = begin(line)? else {
        return Ok(None);
    };
    let timed = timed_batch(alloc, &mut cursor)?;
    Ok(Some(timed))
}

/// The edit of a line without its end. None where the line is blank or a comment.
///
/// `Bad` comes exactly where the line is none of a script, with the place that `docs/TEXTS.md`
/// gives; the other fault is out of memory, and comes only of a
/// line that is neither too long nor blank nor a comment.
#[tactic(auto, using(crate::proofs::Givable::edit_is_givable))]
pub fn read_edit(alloc: Global, line: &[u8]) -> Result<Option<Timed>, LineFault>
    ensures value { Tells (λ timed. (timed.at, timed.edit ∷ [])) result (line_of 0 line.now) }
    ensures none { NoneExactly (IsSkipped line.now) result }
    ensures givable { IfOk result (λ timed. IfSome timed (λ t. IsGivable t.edit)) }
    ensures memory { IfErr result (λ fault. IsKnown fault (beginning line.now)) }
{
    one_edit(alloc, line)
}

/// The batch of a line without its end: 1 to 16 edits with `;` between two of them. None where the
/// line is blank or a comment.
///
/// `Bad` comes exactly where the line is none of a script, with the place that `docs/TEXTS.md`
/// gives; the other fault is out of memory, and comes only of a
/// line that is neither too long nor blank nor a comment.
#[tactic(auto, using(crate::proofs::Givable::batch_is_givable))]
pub fn read_batch(alloc: Global, line: &[u8]) -> Result<Option<TimedBatch>, LineFault>
    ensures value { Tells (λ timed. (timed.at, timed.batch)) result (line_of 15 line.now) }
    ensures none { NoneExactly (IsSkipped line.now) result }
    ensures givable { IfOk result (λ timed. IfSome timed (λ t. All IsGivable t.batch)) }
    ensures memory { IfErr result (λ fault. IsKnown fault (beginning line.now)) }
{
    one_batch(alloc, line)
}
