//! Ledgers as text, in lines and words.
//!
//! What a ledger says is a `LedgerAccount` of `specs/Record`, and its text is in `specs/Ledger`.
//! `print_ledger` writes it. `read_ledger` answers what `specs/LedgerReading` says, or the first
//! line that can't be there. The texts of edits and batches are those of `ft_lines`.
#![tactic(auto)]

mod ledger;
mod ledger_batches;
mod ledger_laws;
mod ledger_lines;
mod ledger_places;
mod ledger_read;
mod ledger_takes;
mod ledger_words;
mod record;

pub use ft_lines::{
    LineFault, Timed, TimedBatch, different_edits_have_different_texts, print_batch, print_edit,
    printed_batches_are_read, printed_edits_are_read, read_batch, read_edit,
    read_edits_are_in_range,
};
pub use ledger::print_ledger;
pub use ledger_laws::{
    ledgers_are_read_back, only_ledgers_are_read, read_ledgers_are_in_range,
    refused_bytes_are_no_ledger,
};
pub use ledger_read::read_ledger;
pub use record::{HandEnd, HandEnds, LedgerFault, Record, Run, SavedLine};
