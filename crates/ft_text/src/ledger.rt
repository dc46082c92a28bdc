//! A ledger, written.

ghost use Rattle.std.specs.Prelude.{◌≡◌, ◌++◌, map, All, OnOk, IfOk, IfSome};
ghost use Rattle.ft_text.specs.LedgerBack.{EntryIsTyped, RefusalIsTyped, TickHasRanges, HandHasRanges, SavedHasRanges, IsLedgerReadBack};
ghost use Rattle.ft_text.specs.Record.{ledger_account, IsTellable};
ghost use Rattle.ft_text.specs.Ledger.{joined_lines, entry_line, refusal_line, tick_lines, hand_line, saved_lines, ledger_text};

use crate::ledger_laws::known;
use crate::ledger_lines::{
    put_end, put_entry, put_hand, put_play, put_refusal, put_saved, put_tick,
};
use crate::record::{HandEnd, HandEnds, Run, SavedLine};
use ft_types::{Journal, NoMemory, TickReport, Ticks};
use std::alloc::Global;

/// The lines of all entries.
fn put_entries(alloc: Global, text: &mut Vec<u8>, journal: &Journal) -> Result<(), NoMemory>
    ensures text { OnOk result (text.new.items ≡
        text.old.items ++ joined_lines (map entry_line journal.now.entries)) }
    ensures ranges { OnOk result (All EntryIsTyped journal.now.entries) }
{
    for i in 0..journal.entries() {
        if let Some(entry) = journal.entry(i) {
            put_entry(alloc, text, entry)?;
        }
    }
    Ok(())
}

/// The lines of all refusals.
fn put_refusals(alloc: Global, text: &mut Vec<u8>, journal: &Journal) -> Result<(), NoMemory>
    ensures text { OnOk result (text.new.items ≡
        text.old.items ++ joined_lines (map (refusal_line 2) journal.now.refusals)) }
    ensures ranges { OnOk result (All RefusalIsTyped journal.now.refusals) }
{
    for i in 0..journal.refusals() {
        if let Some(refusal) = journal.refusal(i) {
            put_refusal(alloc, text, refusal)?;
        }
    }
    Ok(())
}

/// The lines of all ticks.
fn put_ticks(text: &mut Vec<u8>, ticks: &[TickReport]) -> Result<(), NoMemory>
    ensures text { OnOk result (text.new.items ≡ text.old.items
        ++ joined_lines (tick_lines 0 ticks.now)) }
    ensures ranges { OnOk result (All TickHasRanges ticks.now) }
{
    for (n, tick) in ticks.iter().enumerate() {
        put_tick(text, n, tick)?;
    }
    Ok(())
}

/// The lines of all hands that ended early.
fn put_hands(text: &mut Vec<u8>, hands: &[HandEnd]) -> Result<(), NoMemory>
    ensures text { OnOk result (text.new.items ≡ text.old.items
        ++ joined_lines (map hand_line hands.now)) }
    ensures ranges { OnOk result (All HandHasRanges hands.now) }
{
    for end in hands {
        put_hand(text, end)?;
    }
    Ok(())
}

/// The line of a saved song, where there is one.
fn put_if_saved(text: &mut Vec<u8>, saved: &Option<SavedLine>) -> Result<(), NoMemory>
    ensures text { OnOk result (text.new.items ≡ text.old.items
        ++ joined_lines (saved_lines saved.now)) }
    ensures ranges { OnOk result (IfSome saved.now SavedHasRanges) }
{
    match saved {
        None => Ok(()),
        Some(saved) => put_saved(text, saved),
    }
}

/// The ledger of a run, in form 2, as docs/TEXTS.md says, "Ledgers". No fault but running out of
/// memory. What is written is read as the same account.
#[tactic(auto, unfolding(crate::specs::Ledger::ledger_text, crate::specs::Ledger::ledger_lines))]
pub fn print_ledger(
    alloc: Global,
    run: &Run,
    journal: &Journal,
    ticks: &Ticks,
    hands: &HandEnds,
    saved: Option<SavedLine>,
) -> Result<Vec<u8>, NoMemory>
    requires { IsTellable (ledger_account run.now journal.now ticks.now hands.now saved) }
    ensures text { IfOk result (λ text. text.items ≡
        ledger_text 2 (ledger_account run.now journal.now ticks.now hands.now saved)) }
    ensures read { IfOk result (λ text. IsLedgerReadBack
        (ledger_account run.now journal.now ticks.now hands.now saved) text.items) }
{
    known();
    let mut text = Vec::from_slice(alloc, b"xmstudio ledger 2\n")?;
    put_play(&mut text, run)?;
    put_entries(alloc, &mut text, journal)?;
    put_refusals(alloc, &mut text, journal)?;
    put_ticks(&mut text, ticks.as_slice())?;
    put_hands(&mut text, hands.as_slice())?;
    put_if_saved(&mut text, &saved)?;
    put_end(&mut text, run.status, ticks.len())?;
    Ok(text)
}
