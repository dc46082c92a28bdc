//! What the table is given once, what each seat knows, and the rule.
//!
//! Of `Sizes`, `Opening` and `Slot` values are made. The other types are for contracts
//! alone: a clause reads an array in them as a list of any length.

use atomic_table::{Seat, TableRule};
use std::snapshot::Snapshot;

/// How large a register is.
#[derive(Clone, Copy)]
pub struct Sizes {
    /// Segments of the pool, of 256 words each, 0 to 65,535.
    pub segments: u64,
    /// Reader's passes, 1 to 8.
    pub readers: u64,
    /// Channels, 1 to 32: each reader has a pin word for each.
    pub channels: u64,
}

/// What the table is given when it is made: its sizes, the first version with its root, and its
/// words.
#[derive(Drop)]
pub(crate) struct Opening {
    pub sizes: Sizes,
    /// The number of the first version, 0 to 2^32 - 1.
    pub version: u64,
    /// The number of its root segment, 0 to 65,535.
    pub root: u64,
    /// The words of the whole table.
    pub words: Snapshot<Vec<u64>>,
}

/// A version of the history: its root segment, and the words of the whole pool as they
/// were when it was published.
pub struct PlacedVersion {
    /// The version's number, 0 to 2^32 - 1.
    pub version: u64,
    /// The number of its root segment, 0 to 65,535.
    pub root: u64,
    /// 256 words for each segment of the pool, from segment 0 on.
    pub pool: [u64; 0],
}

/// A version that was taken, and its root segment.
pub struct TakenVersion {
    /// The version's number, 0 to 2^32 - 1.
    pub version: u64,
    /// The number of its root segment, 0 to 65,535.
    pub root: u64,
}

/// A word that was read of a held version.
pub struct WordRead {
    /// The version that was held, 0 to 2^32 - 1.
    pub version: u64,
    /// The root segment of the pin that it was read by, if by one.
    pub pin: Option<u64>,
    /// The number of the segment, and the place of the word in it, 0 to 255.
    pub segment: u64,
    pub at: u64,
    /// What was read.
    pub word: u64,
}

/// A pin of a channel.
pub struct Pin {
    /// The number of the version from which it was set, 0 to 2^32 - 1.
    pub version: u64,
    /// The number of the segment that it names, the root of a sample, 0 to 65,535.
    pub root: u64,
}

/// What a scan answered of a pin.
pub struct PinAnswer {
    /// The number of the reader's pass, 0 to 7.
    pub reader: u64,
    /// The channel, 0 to 31.
    pub channel: u64,
    /// The root segment of the pin that was set, if one was.
    pub root: Option<u64>,
}

/// An atomic step, with the number of its word in the table.
pub enum WordStep {
    Load(u64),
    Store(u64),
    Swap(u64),
    Add(u64),
}

/// What contracts see of a reader's pass.
pub struct Notes {
    pub sizes: Sizes,
    /// The pass's number, below the number of readers.
    pub number: u64,
    /// The version that it holds, if it holds one.
    pub held: Option<TakenVersion>,
    /// What its latest look since the take gave.
    pub latest: Option<u64>,
    /// The greatest version that it has seen.
    pub seen: u64,
    /// Its pins by channel.
    pub pins: [Option<Pin>; 0],
    /// Its looks, takes and reads, each list in the order of the calls.
    pub looks: [u64; 0],
    pub takes: [TakenVersion; 0],
    pub reads: [WordRead; 0],
    /// The atomic steps that it made, in their order.
    pub steps: [WordStep; 0],
}

/// A reader's notes, and the slot that bears the version that it holds.
pub struct Hold {
    pub notes: Notes,
    /// The slot of the version that it took last, 0 to 9; 0 before the first take.
    pub slot: u64,
}

/// What a note says: a version that was current when the note was made.
pub struct ToldVersion {
    pub sizes: Sizes,
    /// The version's number, 0 to 2^32 - 1.
    pub version: u64,
}

/// What the writer knows of a slot.
#[derive(Clone, Copy)]
pub struct Slot {
    /// The number of the version that it bears, or bore last.
    pub version: u32,
    /// How many readers had taken that version when the next one was published, 0 to 8.
    pub start: u8,
    /// Whether a scan found it free, and no publish has chosen it since.
    pub free: bool,
}

/// What contracts see of the writer's pass.
pub struct Account {
    pub sizes: Sizes,
    /// How many readers' passes were made, 0 to 8.
    pub given: u64,
    /// The number of the current version, 0 to 2^32 - 1.
    pub version: u64,
    /// Its slot, 0 to 9.
    pub slot: u64,
    /// The number of its root segment, 0 to 65,535.
    pub root: u64,
    /// What it knows of each of ten slots, of which readers + 2 are used.
    pub slots: [Slot; 0],
    /// Whether a scan has begun since the last publish.
    pub begun: bool,
    /// How many scans were begun in all.
    pub scans: u64,
    /// What this scan answered of the slots so far, slot 0 first: the number of a version,
    /// or none where the slot was free.
    pub scan: [Option<u64>; 0],
    /// The leavers that the latest look at a slot has loaded, 0 to 8.
    pub gone: u64,
    /// What this scan answered of the pins so far, in the order of the calls.
    pub pin_scan: [PinAnswer; 0],
    /// The word that the latest look at a pin has loaded: 0, or a root segment + 1.
    pub pinned: u64,
    /// What the readers held and had noted that have given up their passes, the one that was
    /// settled last first.
    pub settled: [Hold; 0],
    /// The versions from the opening on.
    pub history: [PlacedVersion; 0],
    /// The words of the pool as they were last written, 256 for each segment.
    pub pool: [u64; 0],
    /// For each segment the version for which it was last filled, 0 to 2^32.
    pub filled: [u64; 0],
    /// The atomic steps that the pass made, in their order.
    pub steps: [WordStep; 0],
}

/// What a seat of the table knows.
pub(crate) enum View {
    Spent,
    Reader(Hold),
    Writer(Account),
    Told(ToldVersion),
}

pub(crate) struct Law;

impl TableRule<(), View, Opening> for Law {
    ghost use Rattle.ft_shared.specs.Account.{first_account};
    ghost use Rattle.ft_shared.specs.Register.{RegisterRule};
    ghost use Rattle.ft_shared.specs.declared.law.View.TheVariants.{Writer};

    ghost holds = { RegisterRule };

    ghost first = { λ key. Writer (first_account key) };
}

pub(crate) type Place = Seat<(), View>;
