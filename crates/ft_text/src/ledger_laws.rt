//! Laws of the definitions of ledgers. These functions do nothing; their contracts say what holds.

ghost use Rattle.ft_text.specs.Known.{Known};
ghost use Rattle.ft_text.specs.LedgerBack.{LedgersAreReadBack, OldLedgersAreReadBack, LedgersDiffer};
ghost use Rattle.ft_text.specs.LedgerExact.{ReadIsWritten, ReadCanBeTold, WrongLineSettles, WrongLineIsFirst, NoneGoesOn, RefusedIsNone};

use ft_lines::{
    edits_are_read_in_spaces, printed_edits_are_read, printed_numbers_are_read,
    read_edits_are_in_range, words_are_plain,
};

/// The laws of the texts of edits, on which those of ledgers rest.
pub fn known()
    ensures { Known }
{
    printed_edits_are_read();
    edits_are_read_in_spaces();
    printed_numbers_are_read();
    read_edits_are_in_range();
    words_are_plain();
}

/// The ledger of what can be written says it, in form 2 and, where it can, in form 1. So different
/// accounts have different ledgers.
pub fn ledgers_are_read_back()
    ensures back { LedgersAreReadBack }
    ensures old { OldLedgersAreReadBack }
    ensures differ { LedgersDiffer }
{
    known();
}

/// What is read as a ledger is the ledger of what was read, of form 1 or 2.
pub fn only_ledgers_are_read()
    ensures { ReadIsWritten }
{
    known();
}

/// What is refused as a ledger is none, and no ledger begins with the lines up to the wrong one,
/// whatever follows them; but from the lines before that one some ledger does go on.
pub fn refused_bytes_are_no_ledger()
    ensures settled { WrongLineSettles }
    ensures front { NoneGoesOn }
    ensures first { WrongLineIsFirst }
    ensures none { RefusedIsNone }
{
    known();
}

/// What is read as a ledger can be written, and is in the ranges of its types.
pub fn read_ledgers_are_in_range()
    ensures { ReadCanBeTold }
{
    known();
}
