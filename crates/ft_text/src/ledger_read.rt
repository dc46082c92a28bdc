//! A ledger, read.

ghost use Rattle.std.specs.Prelude.{◌≡◌, ◌≢◌, ◌+◌, [], suc, All, IfOk, IfErr, OnOk, MatchResult, Ok, Err};
ghost use Rattle.ft_text.specs.Record.{ledger_account, Ascend, CanBeEntered, CanBeRefused, HasHandCause, IsEndStatus, IsTellable};
ghost use Rattle.ft_text.specs.LedgerWords.{said, head, play, entry, refusal, tick, hand, saved, end};
ghost use Rattle.ft_text.specs.LedgerReading.{one_line, many, lines_of, maybe_line, ledger_start, ledger_of};
ghost use Rattle.ft_text.specs.LedgerAnswers.{LedgerReads, LedgerFails, HasFront};

use crate::ledger_batches::{entry_of, refusal_of};
use crate::ledger_places::Lines;
use crate::ledger_takes::{end_of, hand_of, head_of, play_of, saved_of, tick_of};
use crate::record::{HandEnd, LedgerFault, Record, Run, SavedLine};
use ft_types::{Items, Journal, NoMemory, TickReport};
use std::alloc::Global;

/// The first line: which form it is.
#[tactic(auto, unfolding(crate::specs::LedgerReading::one_line))]
fn head(lines: &mut Lines) -> Result<u8, LedgerFault>
    ensures value { LedgerReads (λ form. form) result lines.new (one_line (said head) lines.old) }
    ensures memory { result ≢ Err LedgerFault.NoMemory }
{
    let Some((line, next)) = lines.ahead() else {
        return Err(lines.wrong());
    };
    let Some(form) = head_of(line) else {
        return Err(lines.wrong());
    };
    *lines = next;
    Ok(form)
}

/// The second line: what was asked for.
#[tactic(auto, unfolding(crate::specs::LedgerReading::one_line))]
fn play(lines: &mut Lines) -> Result<Run, LedgerFault>
    ensures value { LedgerReads (λ run. run) result lines.new (one_line (said play) lines.old) }
    ensures memory { result ≢ Err LedgerFault.NoMemory }
{
    let Some((line, next)) = lines.ahead() else {
        return Err(lines.wrong());
    };
    let Some(run) = play_of(line) else {
        return Err(lines.wrong());
    };
    *lines = next;
    Ok(run)
}

/// The lines of batches that were committed.
fn entries(
    alloc: Global,
    form: u8,
    lines: &mut Lines,
    journal: &mut Journal,
) -> Result<(), NoMemory>
    requires { journal.old.entries ≡ [] }
    ensures read { OnOk result (lines_of (said (entry form)) lines.old ≡
        Ok (journal.new.entries, lines.new)) }
    ensures refusals { OnOk result (journal.new.refusals ≡ journal.old.refusals) }
    ensures given { OnOk result (All CanBeEntered journal.new.entries) }
{
    while let Some((line, next)) = lines.ahead() {
        let Some(entry) = entry_of(alloc, form, line)? else {
            return Ok(());
        };
        journal.reserve()?;
        journal.enter(entry);
        *lines = next;
    }
    Ok(())
}

/// The lines of batches that were refused.
fn refusals(
    alloc: Global,
    form: u8,
    lines: &mut Lines,
    journal: &mut Journal,
) -> Result<(), NoMemory>
    requires { journal.old.refusals ≡ [] }
    ensures read { OnOk result (lines_of (said (refusal form)) lines.old ≡
        Ok (journal.new.refusals, lines.new)) }
    ensures entries { OnOk result (journal.new.entries ≡ journal.old.entries) }
    ensures given { OnOk result (All CanBeRefused journal.new.refusals) }
{
    while let Some((line, next)) = lines.ahead() {
        let Some(refusal) = refusal_of(alloc, form, line)? else {
            return Ok(());
        };
        journal.reserve()?;
        journal.refuse(refusal);
        *lines = next;
    }
    Ok(())
}

/// The lines of ticks, numbered from 0.
fn ticks(alloc: Global, lines: &mut Lines) -> Result<Vec<TickReport>, NoMemory>
    ensures { IfOk result (λ ticks. many (λ n. said (tick n)) (λ n x. suc n) 0 lines.old ≡
        Ok (ticks.items, lines.new)) }
{
    let mut ticks = Vec::new(alloc);
    while let Some((line, next)) = lines.ahead() {
        let Some(tick) = tick_of(ticks.len(), line) else {
            return Ok(ticks);
        };
        ticks.push(tick)?;
        *lines = next;
    }
    Ok(ticks)
}

/// The lines of hands that ended early, ascending.
fn hands(alloc: Global, lines: &mut Lines) -> Result<Vec<HandEnd>, NoMemory>
    ensures read { IfOk result (λ hands.
        many (λ least. said (hand least)) (λ least end. end.hand + 1) 0 lines.old ≡
        Ok (hands.items, lines.new)) }
    ensures ascending { IfOk result (λ hands. Ascend 0 hands.items) }
    ensures causes { IfOk result (λ hands. All HasHandCause hands.items) }
{
    let mut hands = Vec::new(alloc);
    let mut least = 0u16;
    while let Some((line, next)) = lines.ahead() {
        let Some(end) = hand_of(least, line) else {
            return Ok(hands);
        };
        least = u16::from(end.hand) + 1;
        hands.push(end)?;
        *lines = next;
    }
    Ok(hands)
}

/// The line of a saved song, where there is one.
#[tactic(auto, unfolding(crate::specs::LedgerReading::maybe_line, crate::specs::LedgerReading::one_line))]
fn saved(form: u8, lines: &mut Lines) -> Option<SavedLine>
    ensures { maybe_line (said (saved form)) lines.old ≡ Ok (result, lines.new) }
{
    let Some((line, next)) = lines.ahead() else {
        return None;
    };
    let Some(saved) = saved_of(form, line) else {
        return None;
    };
    *lines = next;
    Some(saved)
}

/// The last line: how the run ended, after that many ticks.
#[tactic(auto, unfolding(crate::specs::LedgerReading::one_line))]
fn end(form: u8, ticks: usize, lines: &mut Lines) -> Result<u8, LedgerFault>
    ensures read { LedgerReads (λ status. status) result lines.new
        (one_line (said (end form ticks)) lines.old) }
    ensures told { IfOk result IsEndStatus }
{
    let Some((line, next)) = lines.ahead() else {
        return Err(lines.wrong());
    };
    let Some(status) = end_of(form, ticks, line) else {
        return Err(lines.wrong());
    };
    *lines = next;
    Ok(status)
}

/// Reads a ledger of form 1 or 2, as docs/TEXTS.md says, "Ledgers".
///
/// `Line` comes exactly where the bytes are no ledger, with the first line that can't be there; the
/// other fault is out of memory, and comes only of bytes whose first two lines are right.
#[tactic(auto, using(crate::proofs::Fronts::front_known, crate::proofs::Fronts::line_known), unfolding(crate::specs::LedgerReading::ledger_of, crate::specs::LedgerReading::ledger, crate::specs::LedgerReading::over))]
pub fn read_ledger(alloc: Global, bytes: &[u8]) -> Result<Record, LedgerFault>
    ensures read { MatchResult result
        (λ r. ledger_of bytes.now ≡ Ok (ledger_account r.run r.journal r.ticks r.hands r.saved))
        (λ fault. LedgerFails fault (ledger_of bytes.now)) }
    ensures tellable { IfOk result (λ r.
        IsTellable (ledger_account r.run r.journal r.ticks r.hands r.saved)) }
    ensures memory { IfErr result (λ fault. HasFront fault (ledger_start bytes.now)) }
{
    let mut lines = Lines::new(bytes);
    let form = head(&mut lines)?;
    let run = play(&mut lines)?;
    let mut journal = Journal::new(alloc);
    entries(alloc, form, &mut lines, &mut journal)?;
    refusals(alloc, form, &mut lines, &mut journal)?;
    let ticks = ticks(alloc, &mut lines)?;
    let hands = hands(alloc, &mut lines)?;
    let saved = saved(form, &mut lines);
    let status = end(form, ticks.len(), &mut lines)?;
    lines.over()?;
    Ok(Record {
        run: Run { status, ..run },
        journal,
        ticks: Items::from_vec(ticks),
        hands: Items::from_vec(hands),
        saved,
    })
}
