//! A player that has handed out its pass for a while.

ghost use Rattle.std.specs.Prelude.{◌≡◌};
ghost use Rattle.ft_player.specs.Player.{IsInOrder, IsAsBefore};

use crate::player::Player;
use crate::seat::Seat;
use arrayvec::ArrayVec;
use ft_replay::SongState;
use ft_shared::{Held, ReaderPass};
use ft_types::Voice;
use std::marker::Model;
use std::snapshot::Snapshot;

/// A player that has handed out its pass, with the version and the pins that this holds.
#[derive(Drop)]
pub struct Idle {
    pass: Snapshot<ReaderPass>,
    held: Option<Held>,
    song: SongState,
    seats: ArrayVec<Option<Seat>, 32>,
    mixed: ArrayVec<Voice, 32>,
    rate: u32,
}

impl Model for Idle {
    ghost use Rattle.ft_player.specs.Player.{PlayerState};

    ghost Value = { PlayerState };

    ghost use Rattle.ft_player.specs.Inner.{idle_state, IsIdle};

    ghost view = { idle_state };

    ghost invariant = { IsIdle };
}

impl Player {
    /// Hands out the pass, with its version and its pins, and keeps the rest. No atomic step is
    /// made.
    pub fn part(self) -> (Idle, ReaderPass)
        ensures idle { result.0 ≡ self }
        ensures pass { result.1 ≡ self.pass }
    {
        let idle = Idle {
            pass: Snapshot::of(&self.pass),
            held: self.held,
            song: self.song,
            seats: self.seats,
            mixed: self.mixed,
            rate: self.rate,
        };
        (idle, self.pass)
    }
}

impl Idle {
    /// Makes the player whole again, with a pass that holds and has noted what the one that was
    /// handed out did. No atomic step is made.
    pub fn rejoin(self, pass: ReaderPass) -> Player
        requires { IsAsBefore self.pass pass }
        ensures whole { result ≡ record self { pass = pass } }
        ensures order { IsInOrder result }
    {
        Player {
            pass,
            held: self.held,
            song: self.song,
            seats: self.seats,
            mixed: self.mixed,
            rate: self.rate,
        }
    }
}
