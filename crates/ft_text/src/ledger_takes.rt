//! What each line of a ledger says, word by word.

ghost use Rattle.std.specs.Prelude.{◌≡◌, ◌≢◌, ◌≤◌, codes, IfSome};
ghost use Rattle.ft_text.specs.Record.{HasHandCause, IsEndStatus};
ghost use Rattle.ft_text.specs.LedgerAnswers.{Takes};
ghost use Rattle.ft_text.specs.LedgerWords.{said, head, play, no_pattern, no_row, no_channel, no_order, no_instrument, range, too_many, no_sample, cut, fault_by, fault, place, edit_cause, worn_cause, full_cause, cause, tick, hand, saved, end};

use crate::ledger_words::Words;
use crate::record::{HandEnd, Run, SavedLine};
use ft_types::{CommitFault, EditFault, TickReport};

/// Which form a ledger has.
fn head(words: &mut Words) -> Option<u8>
    ensures { Takes (λ form. form) result words.new (head words.old) }
{
    words.this("xmstudio")?;
    words.this("ledger")?;
    words.form()
}

/// The line of the form.
pub fn head_of(line: &[u8]) -> Option<u8>
    ensures { result ≡ said head line.now }
{
    let mut words = Words::new(line);
    let form = head(&mut words)?;
    if words.is_over() { Some(form) } else { None }
}

/// What was asked for.
fn play(words: &mut Words) -> Option<Run>
    ensures { Takes (λ run. run) result words.new (play words.old) }
{
    words.this("play")?;
    let rate = words.u32()?;
    let seconds = words.u32()?;
    let segments = words.u16()?;
    let channels = words.u8()?;
    Some(Run {
        rate,
        seconds,
        segments,
        channels,
        status: 0,
    })
}

/// The line of what was asked for. The status isn't there.
pub fn play_of(line: &[u8]) -> Option<Run>
    ensures { result ≡ said play line.now }
{
    let mut words = Words::new(line);
    let run = play(&mut words)?;
    if words.is_over() { Some(run) } else { None }
}

/// The row of a fault.
fn no_row(words: &mut Words) -> Option<EditFault>
    ensures { Takes (λ fault. fault) result words.new (no_row words.old) }
{
    let row = words.u32()?;
    let rows = words.u16()?;
    Some(EditFault::NoRow { row, rows })
}

/// A number out of its range.
fn range(words: &mut Words) -> Option<EditFault>
    ensures { Takes (λ fault. fault) result words.new (range words.old) }
{
    let field = words.u8()?;
    let found = words.i64()?;
    Some(EditFault::Range { field, found })
}

/// Too many of something.
fn too_many(words: &mut Words) -> Option<EditFault>
    ensures { Takes (λ fault. fault) result words.new (too_many words.old) }
{
    let what = words.u8()?;
    let count = words.u32()?;
    Some(EditFault::TooMany { what, count })
}

/// A sample that isn't there.
fn no_sample(words: &mut Words) -> Option<EditFault>
    ensures { Takes (λ fault. fault) result words.new (no_sample words.old) }
{
    let i = words.u8()?;
    let s = words.u8()?;
    Some(EditFault::NoSample { i, s })
}

/// Frames that aren't there.
fn cut(words: &mut Words) -> Option<EditFault>
    ensures { Takes (λ fault. fault) result words.new (cut words.old) }
{
    let from = words.u32()?;
    let to = words.u64()?;
    let frames = words.u32()?;
    Some(EditFault::Cut { from, to, frames })
}

/// The numbers of the fault of this number.
fn fault_by(words: &mut Words, number: u8) -> Option<EditFault>
    ensures { Takes (λ fault. fault) result words.new (fault_by number words.old) }
{
    match number {
        1 => Some(EditFault::NoPattern { p: words.u8()? }),
        2 => no_row(words),
        3 => Some(EditFault::NoChannel { ch: words.u16()? }),
        4 => Some(EditFault::NoOrder { pos: words.u16()? }),
        5 => Some(EditFault::NoInstrument { i: words.u8()? }),
        6 => range(words),
        7 => too_many(words),
        8 => no_sample(words),
        9 => cut(words),
        _ => None,
    }
}

/// An edit's fault.
#[tactic(auto, unfolding(crate::specs::LedgerWords::fault))]
fn fault(words: &mut Words) -> Option<EditFault>
    ensures { Takes (λ fault. fault) result words.new (fault words.old) }
{
    let number = words.u8()?;
    fault_by(words, number)
}

/// The place of an edit in its batch.
fn place(words: &mut Words, form: u8) -> Option<u8>
    ensures { Takes (λ at. at) result words.new (place form words.old) }
{
    if form == 1 { Some(0) } else { words.u8() }
}

/// A batch that was refused for an edit.
fn edit_cause(words: &mut Words, form: u8) -> Option<CommitFault>
    ensures value { Takes (λ cause. cause) result words.new (edit_cause form words.old) }
    ensures told { IfSome result (λ cause. cause ≢ CommitFault.NoMemory) }
{
    let at = place(words, form)?;
    let fault = fault(words)?;
    Some(CommitFault::Edit { at, fault })
}

/// A batch that was refused for too few segments.
fn full_cause(words: &mut Words) -> Option<CommitFault>
    ensures value { Takes (λ cause. cause) result words.new (full_cause words.old) }
    ensures told { IfSome result (λ cause. cause ≢ CommitFault.NoMemory) }
{
    let need = words.u32()?;
    let free = words.u32()?;
    Some(CommitFault::Full { need, free })
}

/// Why a batch was refused.
#[tactic(auto, unfolding(crate::specs::LedgerWords::cause, crate::specs::LedgerWords::word))]
pub fn cause(words: &mut Words, form: u8) -> Option<CommitFault>
    ensures value { Takes (λ cause. cause) result words.new (cause form words.old) }
    ensures told { IfSome result (λ cause. cause ≢ CommitFault.NoMemory) }
{
    let name = words.next()?;
    if name == "edit".as_bytes() {
        return edit_cause(words, form);
    }
    if name == "worn".as_bytes() {
        let version = words.u32()?;
        return Some(CommitFault::Worn { version });
    }
    if name == "full".as_bytes() {
        return full_cause(words);
    }
    None
}

/// The tick of this number.
fn tick(words: &mut Words, n: usize) -> Option<TickReport>
    ensures { Takes (λ tick. tick) result words.new (tick n words.old) }
{
    words.this("t")?;
    words.count(n)?;
    let version = words.u32()?;
    let order = words.u16()?;
    let row = words.u16()?;
    let tick = words.u16()?;
    let frames = words.u32()?;
    Some(TickReport {
        version,
        order,
        row,
        tick,
        frames,
    })
}

/// The line of the tick of this number.
pub fn tick_of(n: usize, line: &[u8]) -> Option<TickReport>
    ensures { result ≡ said (tick n) line.now }
{
    let mut words = Words::new(line);
    let tick = tick(&mut words, n)?;
    if words.is_over() { Some(tick) } else { None }
}

/// A hand that ended early, whose number is at least `least`.
fn hand(words: &mut Words, least: u16) -> Option<HandEnd>
    ensures value { Takes (λ end. end) result words.new (hand least words.old) }
    ensures from { IfSome result (λ end. least ≤ end.hand) }
    ensures cause { IfSome result HasHandCause }
{
    words.this("h")?;
    let hand = words.hand_from(least)?;
    let cause = words.hand_cause()?;
    let at = words.u32()?;
    Some(HandEnd { hand, cause, at })
}

/// The line of a hand whose number is at least `least`.
pub fn hand_of(least: u16, line: &[u8]) -> Option<HandEnd>
    ensures value { result ≡ said (hand least) line.now }
    ensures from { IfSome result (λ end. least ≤ end.hand) }
    ensures cause { IfSome result HasHandCause }
{
    let mut words = Words::new(line);
    let end = hand(&mut words, least)?;
    if words.is_over() { Some(end) } else { None }
}

/// The song that was saved.
fn saved(words: &mut Words, form: u8) -> Option<SavedLine>
    ensures { Takes (λ saved. saved) result words.new (saved form words.old) }
{
    words.saved_name(form)?;
    let version = words.u32()?;
    let bytes = words.u32()?;
    Some(SavedLine { version, bytes })
}

/// The line of a saved song.
pub fn saved_of(form: u8, line: &[u8]) -> Option<SavedLine>
    ensures { result ≡ said (saved form) line.now }
{
    let mut words = Words::new(line);
    let saved = saved(&mut words, form)?;
    if words.is_over() { Some(saved) } else { None }
}

/// How the run ended, after that many ticks.
fn end(words: &mut Words, form: u8, ticks: usize) -> Option<u8>
    ensures value { Takes (λ status. status) result words.new (end form ticks words.old) }
    ensures told { IfSome result IsEndStatus }
{
    words.this("end")?;
    let status = words.status(form)?;
    words.count(ticks)?;
    Some(status)
}

/// The last line.
pub fn end_of(form: u8, ticks: usize, line: &[u8]) -> Option<u8>
    ensures value { result ≡ said (end form ticks) line.now }
    ensures told { IfSome result IsEndStatus }
{
    let mut words = Words::new(line);
    let status = end(&mut words, form, ticks)?;
    if words.is_over() { Some(status) } else { None }
}
