//! The lines of a ledger, each put behind a text.

ghost use Rattle.std.specs.Prelude.{◌≡◌, ◌+◌, ◌∷◌, ◌++◌, [], ℕ, map, decimal, OnOk};
ghost use Rattle.std.specs.Fmt.{signed_decimal};
ghost use Rattle.ft_lines.specs.Texts.{spaced, text_of_words};
ghost use Rattle.ft_text.specs.LedgerBack.{RunHasRanges, EntryIsTyped, FaultHasRanges, CauseHasRanges, RefusalIsTyped, TickHasRanges, HandHasRanges, SavedHasRanges};
ghost use Rattle.ft_text.specs.Ledger.{ended, play_line, entry_line, fault_words, cause_words, refusal_line, tick_line, hand_cause, hand_line, saved_line, end_line};

use crate::record::{HandEnd, Run, SavedLine};
use ft_lines::print_batch;
use ft_types::{CommitFault, EditFault, Entry, NoMemory, Refusal, TickReport};
use itoa::Buffer;
use std::alloc::Global;

/// Numbers, each after a space.
fn put_numbers(text: &mut Vec<u8>, numbers: &[u64]) -> Result<(), NoMemory>
    ensures { OnOk result (text.new.items ≡ text.old.items ++ spaced (map decimal numbers.now)) }
{
    let mut buffer = Buffer::new();
    for number in numbers {
        text.push(b' ')?;
        text.extend_from_slice(buffer.format(*number).as_bytes())?;
    }
    Ok(())
}

/// A name and numbers.
fn put_words(text: &mut Vec<u8>, name: &str, numbers: &[u64]) -> Result<(), NoMemory>
    ensures { OnOk result (text.new.items ≡
        text.old.items ++ text_of_words (name.now ∷ map decimal numbers.now)) }
{
    text.extend_from_slice(name.as_bytes())?;
    put_numbers(text, numbers)
}

/// A name and numbers, and the end of the line.
fn put_line(text: &mut Vec<u8>, name: &str, numbers: &[u64]) -> Result<(), NoMemory>
    ensures { OnOk result (text.new.items ≡
        text.old.items ++ ended (text_of_words (name.now ∷ map decimal numbers.now))) }
{
    put_words(text, name, numbers)?;
    text.push(b'\n')?;
    Ok(())
}

/// What was asked for.
pub fn put_play(text: &mut Vec<u8>, run: &Run) -> Result<(), NoMemory>
    ensures text { OnOk result (text.new.items ≡ text.old.items ++ ended (play_line run.now)) }
    ensures ranges { RunHasRanges run.now }
{
    let Run {
        rate,
        seconds,
        segments,
        channels,
        ..
    } = *run;
    put_line(
        text,
        "play",
        &[
            u64::from(rate),
            u64::from(seconds),
            u64::from(segments),
            u64::from(channels),
        ],
    )
}

/// A batch that was committed.
pub fn put_entry(alloc: Global, text: &mut Vec<u8>, entry: &Entry) -> Result<(), NoMemory>
    ensures text { OnOk result (text.new.items ≡ text.old.items ++ ended (entry_line entry.now)) }
    ensures ranges { OnOk result (EntryIsTyped entry.now) }
{
    let version = entry.version;
    let hand = entry.hand;
    let seq = entry.seq;
    put_words(
        text,
        "c",
        &[u64::from(version), u64::from(hand), u64::from(seq)],
    )?;
    let batch = print_batch(alloc, &entry.batch)?;
    text.push(b' ')?;
    text.extend_from_slice(batch.as_slice())?;
    text.push(b'\n')?;
    Ok(())
}

/// A tick, and its number.
pub fn put_tick(text: &mut Vec<u8>, n: usize, tick: &TickReport) -> Result<(), NoMemory>
    ensures text { OnOk result (text.new.items ≡ text.old.items ++ ended (tick_line n tick.now)) }
    ensures ranges { TickHasRanges tick.now }
{
    let TickReport {
        version,
        order,
        row,
        tick: count,
        frames,
    } = *tick;
    put_line(
        text,
        "t",
        &[
            n as u64,
            u64::from(version),
            u64::from(order),
            u64::from(row),
            u64::from(count),
            u64::from(frames),
        ],
    )
}

/// The song that was saved.
pub fn put_saved(text: &mut Vec<u8>, saved: &SavedLine) -> Result<(), NoMemory>
    ensures text { OnOk result (text.new.items ≡ text.old.items ++ ended (saved_line saved.now)) }
    ensures ranges { SavedHasRanges saved.now }
{
    let SavedLine { version, bytes } = *saved;
    put_line(text, "s", &[u64::from(version), u64::from(bytes)])
}

/// How the run ended, and how many ticks it played.
pub fn put_end(text: &mut Vec<u8>, status: u8, ticks: usize) -> Result<(), NoMemory>
    ensures { OnOk result (text.new.items ≡ text.old.items ++ ended (end_line status ticks)) }
{
    put_line(text, "end", &[u64::from(status), ticks as u64])
}

/// The name of a hand's cause.
fn name_of(cause: u8) -> &'static str
    ensures { result.now ≡ hand_cause cause }
{
    match cause {
        1 => "malformed",
        2 => "failed",
        3 => "limit",
        _ => "memory",
    }
}

/// A hand that ended early.
pub fn put_hand(text: &mut Vec<u8>, end: &HandEnd) -> Result<(), NoMemory>
    ensures text { OnOk result (text.new.items ≡ text.old.items ++ ended (hand_line end.now)) }
    ensures ranges { OnOk result (HandHasRanges end.now) }
{
    let HandEnd { hand, cause, at } = *end;
    put_words(text, "h", &[u64::from(hand)])?;
    text.push(b' ')?;
    put_line(text, name_of(cause), &[u64::from(at)])
}

/// A fault of a range: its number, the field and what was found.
fn put_range(text: &mut Vec<u8>, field: u8, found: i64) -> Result<(), NoMemory>
    ensures { OnOk result (text.new.items ≡ text.old.items
        ++ spaced (decimal 6 ∷ decimal field ∷ signed_decimal found ∷ [])) }
{
    put_numbers(text, &[6, u64::from(field)])?;
    let mut buffer = Buffer::new();
    text.push(b' ')?;
    text.extend_from_slice(buffer.format(found).as_bytes())?;
    Ok(())
}

/// A fault of a cut: its number, where it begins and ends, and how many frames there are.
fn put_cut(text: &mut Vec<u8>, from: u32, to: u64, frames: u32) -> Result<(), NoMemory>
    ensures { OnOk result (text.new.items ≡ text.old.items
        ++ spaced (map decimal (9 ∷ from ∷ to ∷ frames ∷ []))) }
{
    put_numbers(text, &[9, u64::from(from), to, u64::from(frames)])
}

/// The number of a fault, and its own numbers.
fn put_fault(text: &mut Vec<u8>, fault: &EditFault) -> Result<(), NoMemory>
    ensures text { OnOk result (text.new.items ≡ text.old.items ++ spaced (fault_words fault.now)) }
    ensures ranges { FaultHasRanges fault.now }
{
    match *fault {
        EditFault::NoPattern { p } => put_numbers(text, &[1, u64::from(p)]),
        EditFault::NoRow { row, rows } => {
            put_numbers(text, &[2, u64::from(row), u64::from(rows)])
        }
        EditFault::NoChannel { ch } => put_numbers(text, &[3, u64::from(ch)]),
        EditFault::NoOrder { pos } => put_numbers(text, &[4, u64::from(pos)]),
        EditFault::NoInstrument { i } => put_numbers(text, &[5, u64::from(i)]),
        EditFault::Range { field, found } => put_range(text, field, found),
        EditFault::TooMany { what, count } => {
            put_numbers(text, &[7, u64::from(what), u64::from(count)])
        }
        EditFault::NoSample { i, s } => put_numbers(text, &[8, u64::from(i), u64::from(s)]),
        EditFault::Cut { from, to, frames } => put_cut(text, from, to, frames),
    }
}

/// A name and numbers, after a space.
fn put_more(text: &mut Vec<u8>, name: &str, numbers: &[u64]) -> Result<(), NoMemory>
    ensures { OnOk result (text.new.items ≡
        text.old.items ++ spaced (name.now ∷ map decimal numbers.now)) }
{
    text.push(b' ')?;
    put_words(text, name, numbers)
}

/// Why a batch was refused.
fn put_cause(text: &mut Vec<u8>, cause: &CommitFault) -> Result<(), NoMemory>
    ensures text { OnOk result (text.new.items ≡ text.old.items ++ spaced (cause_words 2 cause.now)) }
    ensures ranges { OnOk result (CauseHasRanges cause.now) }
{
    match *cause {
        CommitFault::Edit { at, fault } => {
            put_more(text, "edit", &[u64::from(at)])?;
            put_fault(text, &fault)
        }
        CommitFault::Worn { version } => put_more(text, "worn", &[u64::from(version)]),
        CommitFault::NoMemory => Ok(()),
        CommitFault::Full { need, free } => {
            put_more(text, "full", &[u64::from(need), u64::from(free)])
        }
    }
}

/// A batch that was refused.
pub fn put_refusal(alloc: Global, text: &mut Vec<u8>, refusal: &Refusal) -> Result<(), NoMemory>
    ensures text { OnOk result (text.new.items ≡ text.old.items ++ ended (refusal_line 2 refusal.now)) }
    ensures ranges { OnOk result (RefusalIsTyped refusal.now) }
{
    let hand = refusal.hand;
    let seq = refusal.seq;
    put_words(text, "r", &[u64::from(hand), u64::from(seq)])?;
    put_cause(text, &refusal.cause)?;
    let batch = print_batch(alloc, &refusal.batch)?;
    text.push(b' ')?;
    text.extend_from_slice(batch.as_slice())?;
    text.push(b'\n')?;
    Ok(())
}
