//! A player: it plays a song tick by tick from the words of a register.

ghost use Rattle.std.specs.Prelude.{◌≡◌, ◌≤◌, ◌+◌, ◌++◌, ◌∷◌, [], None, length, replicate};
ghost use Rattle.ft_types.specs.Limits.{lowest_rate, highest_rate};
ghost use Rattle.ft_replay.specs.State.{first_state};
ghost use Rattle.ft_player.specs.declared.songs.Songs.{Songs};
ghost use Rattle.ft_shared.specs.Layout.{current_at};
ghost use Rattle.ft_shared.specs.Pass.{note_heard};
ghost use Rattle.ft_shared.specs.declared.law.WordStep.TheVariants.{Load};
ghost use Rattle.ft_image.specs.Passes.{AreCounted};
ghost use Rattle.ft_player.specs.Player.{IsInOrder, HasClosed, stood_by};

use crate::seat::Seat;
use crate::seats::no_seats;
use arrayvec::ArrayVec;
use ft_replay::SongState;
use ft_shared::{Held, Note, ReaderPass, Shared};
use ft_types::{Steps, Voice};
use std::marker::Model;
use std::sync::ledger::Ledger;

/// Plays a song tick by tick, each tick on the version that is current when it begins. A voice
/// sounds on with the frames of the version in which it began, which a pin holds for it.
///
/// It has no error, takes no memory and no lock, and waits for nobody.
#[derive(Drop)]
pub struct Player {
    pub(crate) pass: ReaderPass,
    pub(crate) held: Option<Held>,
    pub(crate) song: SongState,
    pub(crate) seats: ArrayVec<Option<Seat>, 32>,
    pub(crate) mixed: ArrayVec<Voice, 32>,
    pub(crate) rate: u32,
}

impl Model for Player {
    ghost use Rattle.ft_player.specs.Player.{PlayerState};

    ghost Value = { PlayerState };

    ghost use Rattle.ft_player.specs.Inner.{player_state, IsPlayer};

    ghost view = { player_state };

    ghost invariant = { IsPlayer };
}

impl Player {
    /// A player of the song of the register that the pass came from, before the first tick. The
    /// pass holds no version and no pin; `channels` are those of the register, and `rate` is 8,000
    /// to 48,000 frames a second.
    pub fn open(pass: ReaderPass, channels: u8, rate: u32) -> Player
        requires free { pass.notes.held ≡ None }
        requires unpinned { pass.notes.pins ≡ replicate channels None }
        requires channels { channels ≡ pass.register.sizes.channels }
        requires few { channels ≤ 32 }
        requires low { lowest_rate ≤ rate }
        requires high { rate ≤ highest_rate }
        ensures pass { result.pass ≡ pass }
        ensures rate { result.rate ≡ rate }
        ensures first { (songs : Songs) → stood_by songs result ≡ first_state channels }
        ensures order { IsInOrder result }
    {
        Player {
            pass,
            held: None,
            song: SongState::first(channels),
            seats: no_seats(channels),
            mixed: ArrayVec::new(),
            rate,
        }
    }

    /// The state of the song, between ticks.
    pub fn state(&self) -> &SongState
        ensures { result.now ≡ self.now.song }
    {
        &self.song
    }

    /// The voices as the last tick gave them to the mixer, by ascending channel.
    pub fn mixed(&self) -> &ArrayVec<Voice, 32>
        ensures { result.now.items ≡ self.now.mixed }
    {
        &self.mixed
    }

    /// Each later tick is on a version that is at least the note's. The note came from the same
    /// register. It makes one load, which the pass notes and no counter sees.
    pub fn hear(&mut self, shared: &Shared, note: Note)
        requires same { self.old.pass.register ≡ shared.now }
        requires from { note.register ≡ shared.now }
        ensures heard { self.new ≡ record self.old {
          pass = record self.old.pass { notes = note_heard self.old.pass.notes note.version };
        } }
        ensures one_load { self.new.pass.notes.steps
            ≡ self.old.pass.notes.steps ++ Load current_at ∷ [] }
        ensures order { IsInOrder self.new }
    {
        shared.hear(&mut self.pass, note);
    }

    /// Takes the pins away, and hands back the pass, which holds its last version still. One store
    /// for each channel, and all of them are counted.
    pub fn close<L: Ledger>(self, shared: &Shared, steps: &mut Steps<L>) -> ReaderPass
        requires same { self.pass.register ≡ shared.now }
        ensures closed { HasClosed self.pass result }
        ensures counted { AreCounted self.pass result steps.old steps.new }
        ensures steps { steps.new ≡ steps.old + self.pass.register.sizes.channels }
    {
        let mut pass = self.pass;
        unpin_all(&mut pass, self.song.used, shared, steps);
        pass
    }
}

/// Takes the pins of all channels away.
fn unpin_all<L: Ledger>(pass: &mut ReaderPass, channels: u8, shared: &Shared, steps: &mut Steps<L>)
    requires same { pass.old.register ≡ shared.now }
    requires channels { channels ≡ shared.now.sizes.channels }
    requires pins { length pass.old.notes.pins ≡ channels }
    ensures closed { HasClosed pass.old pass.new }
    ensures counted { AreCounted pass.old pass.new steps.old steps.new }
    ensures steps { steps.new ≡ steps.old + channels }
{
    for channel in 0..channels {
        shared.unpin(pass, channel, steps);
    }
}
