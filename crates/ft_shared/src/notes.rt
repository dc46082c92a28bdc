//! The writer makes a note of the current version, and a reader that hears it sees no older one
//! from then on.
ghost use Rattle.std.specs.Prelude.{◌≡◌, []};
ghost use Rattle.ft_shared.specs.Account.{told_of, after_note_made};
ghost use Rattle.ft_shared.specs.Pass.{note_heard, note_at};
ghost use Rattle.ft_shared.specs.declared.law.View.TheVariants.{Told};

use crate::law::Place;
use crate::plays::{HearNote, MakeNote};
use crate::reader::ReaderPass;
use crate::shared::Shared;
use crate::writer::WriterPass;
use std::marker::Model;

/// A note of a version, for one reader to hear.
#[derive(Drop)]
pub struct Note {
    place: Place,
    version: u32,
}

impl Model for Note {
    ghost use Rattle.ft_shared.specs.Pass.{NoteState};

    ghost Value = { NoteState };

    ghost use Rattle.ft_shared.specs.Inner.{note_state, IsNote};

    ghost view = { note_state };

    ghost invariant = { IsNote };
}

impl Note {
    fn first(place: Place, version: u32) -> Note
        requires role { place.me ≡ (Told (told_of place.me.0), []) }
        requires version { (told_of place.me.0).version ≡ version }
        ensures { result ≡ note_at place.table_id (told_of place.me.0) }
    {
        Note { place, version }
    }

    fn place(self) -> Place
        ensures { (self ≡ note_at result.table_id (told_of result.me.0))
            × (result.me ≡ (Told (told_of result.me.0), [])) }
    {
        self.place
    }

    /// The number of the version, 0 to 2^32 - 1.
    pub fn version(&self) -> u32
        ensures { result ≡ self.now.version }
    {
        self.version
    }
}

impl Shared {
    /// A note of the current version. One load.
    pub fn note(&self, pass: &mut WriterPass) -> Note
        requires { pass.old.register ≡ self.now }
        ensures noted { pass.new ≡ record pass.old { account = after_note_made pass.old.account } }
        ensures note { result
            ≡ record { register = self.now; version = pass.old.account.version } }
    {
        let place = self.words.split_seat::<MakeNote>(&mut pass.place);
        Note::first(place, pass.version)
    }

    /// From now on each look and each take of the pass gives at least the note's version. One
    /// load.
    pub fn hear(&self, pass: &mut ReaderPass, note: Note)
        requires same { pass.old.register ≡ self.now }
        requires note { note.register ≡ self.now }
        ensures { pass.new ≡ record pass.old { notes = note_heard pass.old.notes note.version } }
    {
        self.words
            .join_seat::<HearNote>(&mut pass.place, note.place());
    }
}
