//! A reader: it looks at the current version, takes it, and leaves it.
ghost use Rattle.std.specs.Prelude.{◌≡◌, ℕ, ◌≤◌, ◌<◌, ◌+◌, [], None, IsSome, IsSomeAnd};
ghost use Rattle.ft_shared.specs.Account.{hold_of};
ghost use Rattle.ft_shared.specs.Pass.{reader_at, hold_at, IsKeptPass, note_look, note_take, note_word, note_leave};
ghost use Rattle.ft_shared.specs.declared.law.View.TheVariants.{Reader};

use crate::law::Place;
use crate::plays::{Leave, Look, ReadWord, Take};
use crate::shared::Shared;
use ft_types::Steps;
use std::marker::Model;
use std::sync::ledger::Ledger;

/// What `Shared::take` gives.
#[derive(Clone, Copy, Debug, PartialEq, Eq)]
pub struct Held {
    /// The number of the version that is now held.
    pub version: u32,
    /// The number of its root segment, 0 to 65,535.
    pub root: u16,
}

/// One reader. At first it holds no version, has noted nothing and was never used.
#[derive(Drop)]
pub struct ReaderPass {
    pub(crate) place: Place,
    slot: u8,
    pub(crate) number: u8,
}

/// What the writer keeps of a settled pass beside its seat.
#[derive(Clone, Copy)]
pub(crate) struct KeptPass {
    /// The slot of the version that it took last, 0 to 9; 0 before the first take.
    pub slot: u8,
    /// The pass's number, 0 to 7.
    pub number: u8,
}

impl Model for ReaderPass {
    ghost use Rattle.ft_shared.specs.Pass.{ReaderState};

    ghost Value = { ReaderState };

    ghost use Rattle.ft_shared.specs.Inner.{reader_state, IsReaderPass};

    ghost view = { reader_state };

    ghost invariant = { IsReaderPass };
}

impl ReaderPass {
    pub(crate) fn first(place: Place, number: u8) -> ReaderPass
        requires role { place.me ≡ (Reader (hold_of place.me.0), []) }
        requires new { (hold_of place.me.0).slot ≡ 0 }
        requires number { ((hold_of place.me.0).notes.number ≡ number)
            × (number < (hold_of place.me.0).notes.sizes.readers) }
        ensures { result ≡ reader_at place.table_id (hold_of place.me.0) }
    {
        ReaderPass {
            place,
            slot: 0,
            number,
        }
    }

    /// The pass of a seat that was settled and is given back.
    pub(crate) fn again(place: Place, kept: KeptPass) -> ReaderPass
        requires role { place.me ≡ (Reader (hold_of place.me.0), []) }
        requires kept { IsKeptPass (hold_of place.me.0).notes.sizes (hold_of place.me.0) kept }
        ensures { result ≡ reader_at place.table_id (hold_of place.me.0) }
    {
        ReaderPass {
            place,
            slot: kept.slot,
            number: kept.number,
        }
    }

    /// The seat of the pass, and what is to be kept beside it.
    pub(crate) fn parts(self) -> (Place, KeptPass)
        ensures seat { result.0.me ≡ (Reader (hold_at self), []) }
        ensures table { (result.0.table_id ≡ self.register.table)
            × (self.register.sizes ≡ self.notes.sizes) }
        ensures kept { IsKeptPass self.register.sizes (hold_at self) result.1 }
    {
        let ReaderPass {
            place,
            slot,
            number,
        } = self;
        (place, KeptPass { slot, number })
    }
}

impl Shared {
    /// The current version. One load.
    pub fn look<L: Ledger>(&self, pass: &mut ReaderPass, steps: &mut Steps<L>) -> u32
        requires same { pass.old.register ≡ self.now }
        ensures noted { pass.new ≡ record pass.old { notes = note_look pass.old.notes result } }
        ensures later { pass.old.notes.seen ≤ result }
        ensures steps { steps.new ≡ steps.old + 1 }
    {
        let word = self.words.load::<Look, L>(&mut pass.place, 0, steps);
        (word >> 32) as u32
    }

    /// The current version with its root, which the pass holds from now on. One
    /// `fetch_add`.
    pub fn take<L: Ledger>(&self, pass: &mut ReaderPass, steps: &mut Steps<L>) -> Held
        requires same { pass.old.register ≡ self.now }
        requires free { pass.old.notes.held ≡ None }
        ensures noted { pass.new ≡ record pass.old {
          notes = note_take pass.old.notes
              (record { version = result.version; root = result.root });
          slot = pass.new.slot;
        } }
        ensures later { pass.old.notes.seen ≤ result.version }
        ensures steps { steps.new ≡ steps.old + 1 }
    {
        let word = self
            .words
            .fetch_add::<Take, L>(&mut pass.place, 0, 1, steps);
        pass.slot = ((word >> 24) % 256) as u8;
        Held {
            version: (word >> 32) as u32,
            root: ((word >> 8) % 65536) as u16,
        }
    }

    /// The word `at` of the segment `seg`. It is noted with the version that the pass holds:
    /// where the segment is one of that version, it is the version's word. One load.
    pub fn word<L: Ledger>(
        &self,
        pass: &mut ReaderPass,
        seg: u16,
        at: u8,
        steps: &mut Steps<L>,
    ) -> u64
        requires same { pass.old.register ≡ self.now }
        requires held { IsSome pass.old.notes.held }
        requires segment { seg < self.now.sizes.segments }
        ensures noted { pass.new
            ≡ record pass.old { notes = note_word pass.old.notes seg at result } }
        ensures steps { steps.new ≡ steps.old + 1 }
    {
        let word = self.word_of(seg, at);
        self.words.load::<ReadWord, L>(&mut pass.place, word, steps)
    }

    /// Gives up the version that the pass holds. Its latest look since the take must have
    /// given a greater one. One `fetch_add`.
    pub fn leave<L: Ledger>(&self, pass: &mut ReaderPass, steps: &mut Steps<L>)
        requires same { pass.old.register ≡ self.now }
        requires newer { IsSomeAnd pass.old.notes.held
            (λ taken. IsSomeAnd pass.old.notes.latest (λ version. taken.version < version)) }
        ensures noted { pass.new
            ≡ record pass.old { notes = note_leave pass.old.notes pass.old.slot } }
        ensures steps { steps.new ≡ steps.old + 1 }
    {
        let gone = pass.slot as usize + 1;
        self.words
            .fetch_add::<Leave, L>(&mut pass.place, gone, 1, steps);
    }
}
