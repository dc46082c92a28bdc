//! What each kind of step tells the seat that makes it.
ghost use Rattle.std.specs.Prelude.{ℕ};
ghost use Rattle.ft_shared.specs.Plays.{IsLook, IsTake, IsLeave, IsWordRead, IsPin, IsUnpin, IsPinnedRead, IsScanBegin, IsSlotScan, IsPinScan, IsPoolRead, IsFill, IsClear, IsPublish, after_pass_given, given_pass, after_making, made_note, heard, IsLearning, joined, after_giving_back, given_back};
ghost use Rattle.ft_shared.specs.declared.law.View.TheVariants.{Spent};

use crate::law::View;
use crate::table::{Adds, Loads, Stores, Swaps};
use atomic_table::{Join, Play, Split};
use std::marker::{Brand, PhantomData};

pub(crate) struct Look;

impl Loads for Look {}

impl Play<(), View> for Look {
    ghost then = { IsLook };
}

pub(crate) struct Take;

impl Adds for Take {}

impl Play<(), View> for Take {
    ghost then = { IsTake };
}

pub(crate) struct Leave;

impl Adds for Leave {}

impl Play<(), View> for Leave {
    ghost then = { IsLeave };
}

/// A reader reads a word of a segment.
pub(crate) struct ReadWord;

impl Loads for ReadWord {}

impl Play<(), View> for ReadWord {
    ghost then = { IsWordRead };
}

/// A reader sets a pin.
pub(crate) struct SetPin;

impl Stores for SetPin {}

impl Play<(), View> for SetPin {
    ghost then = { IsPin };
}

/// A reader takes a pin away.
pub(crate) struct Unpin;

impl Stores for Unpin {}

impl Play<(), View> for Unpin {
    ghost then = { IsUnpin };
}

/// By which channel's pin a word is read. Each call picks it, in the proofs alone.
pub(crate) trait Pinned {
    ghost channel: { ℕ };
}

impl Pinned for Brand {
    ghost channel = { 0 };
}

/// A reader reads a word of a segment by a pin.
pub(crate) struct ReadPinned<C: Pinned> {
    of: PhantomData<C>,
}

impl<C: Pinned> Loads for ReadPinned<C> {}

impl<C: Pinned> Play<(), View> for ReadPinned<C> {
    ghost then = { IsPinnedRead C.channel };
}

/// The writer's seat gives a reader its seat.
pub(crate) struct Give;

impl Split<View> for Give {
    ghost left = { after_pass_given };

    ghost right = { given_pass };
}

/// The writer's seat gives a note of the current version a seat.
pub(crate) struct MakeNote;

impl Split<View> for MakeNote {
    ghost left = { after_making };

    ghost right = { made_note };
}

/// A reader's seat takes in that of a note.
pub(crate) struct HearNote;

impl Join<View> for HearNote {
    ghost both = { heard };

    ghost spent = { Spent };
}

/// The writer's seat takes in that of a reader.
pub(crate) struct Settle;

impl Join<View> for Settle {
    ghost both = { joined };

    ghost spent = { Spent };
}

/// The writer learns of the settled passes.
pub(crate) struct LearnSettled;

impl Loads for LearnSettled {}

impl Play<(), View> for LearnSettled {
    ghost then = { IsLearning };
}

/// The writer's seat gives back that which it took in last.
pub(crate) struct Resume;

impl Split<View> for Resume {
    ghost left = { after_giving_back };

    ghost right = { given_back };
}

pub(crate) struct BeginScan;

impl Loads for BeginScan {}

impl Play<(), View> for BeginScan {
    ghost then = { IsScanBegin };
}

pub(crate) struct ScanSlot;

impl Loads for ScanSlot {}

impl Play<(), View> for ScanSlot {
    ghost then = { IsSlotScan };
}

/// The writer looks at a pin.
pub(crate) struct ScanPin;

impl Loads for ScanPin {}

impl Play<(), View> for ScanPin {
    ghost then = { IsPinScan };
}

/// The writer reads a word of a segment.
pub(crate) struct ReadPool;

impl Loads for ReadPool {}

impl Play<(), View> for ReadPool {
    ghost then = { IsPoolRead };
}

/// The writer fills a word of a segment.
pub(crate) struct Fill;

impl Stores for Fill {}

impl Play<(), View> for Fill {
    ghost then = { IsFill };
}

/// The leavers of a free slot go to 0.
pub(crate) struct Clear;

impl Stores for Clear {}

impl Play<(), View> for Clear {
    ghost then = { IsClear };
}

pub(crate) struct Publish;

impl Swaps for Publish {}

impl Play<(), View> for Publish {
    ghost then = { IsPublish };
}
