//! What a ledger says of a run.

ghost use Rattle.std.specs.Prelude.{◌≡◌};
ghost use Rattle.ft_text.specs.declared.record.LedgerFault.TheVariants.{NoMemory as no_memory};

use ft_types::{Items, Journal, Ticks};
use thiserror::Error;

/// What was asked for, and how it ended.
#[derive(Clone, Copy, Debug, PartialEq, Eq)]
pub struct Run {
    /// Frames a second.
    pub rate: u32,
    /// Length in seconds.
    pub seconds: u32,
    /// Segments of the pool.
    pub segments: u16,
    /// Channels of the song.
    pub channels: u8,
    /// The run's status: 0, 5, 8, 9 or 10.
    pub status: u8,
}

/// The hands that ended early, ascending.
pub type HandEnds = Items<HandEnd>;

/// How a hand ended that ended early.
#[derive(Clone, Copy, Debug, PartialEq, Eq)]
pub struct HandEnd {
    /// The hand.
    pub hand: u8,
    /// 1 malformed, 2 failed, 3 limit, 4 memory.
    pub cause: u8,
    /// Of a malformed script the line, from 1; else how many batches the hand gave, without the one
    /// over the limit.
    pub at: u32,
}

/// The song that was saved while it played.
#[derive(Clone, Copy, Debug, PartialEq, Eq)]
pub struct SavedLine {
    /// Its version.
    pub version: u32,
    /// How many bytes it has.
    pub bytes: u32,
}

/// All that a ledger says.
#[derive(Debug, Drop)]
pub struct Record {
    /// What was asked for, and how it ended.
    pub run: Run,
    /// The batches that were committed, and those that were refused.
    pub journal: Journal,
    /// The ticks that were played, in order.
    pub ticks: Ticks,
    /// The hands that ended early.
    pub hands: HandEnds,
    /// The song that was saved, where one was.
    pub saved: Option<SavedLine>,
}

/// Why bytes aren't read as a ledger.
#[derive(Clone, Copy, Debug, PartialEq, Eq, Error)]
pub enum LedgerFault {
    /// They are no ledger.
    #[error("line {line} is no line of a ledger")]
    Line {
        /// The first line that can't be there, from 1. Where a line is missing at the end it is the
        /// one behind the last. The greatest u32 stands for any line from there on.
        line: u32,
    },
    /// Out of memory. No clause says when.
    #[error("out of memory")]
    NoMemory,
}

impl From<ft_types::NoMemory> for LedgerFault {
    ghost from_gives = { λ _ fault. fault ≡ no_memory };

    fn from(_wanting: ft_types::NoMemory) -> LedgerFault {
        LedgerFault::NoMemory
    }
}
