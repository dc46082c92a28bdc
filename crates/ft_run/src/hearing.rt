//! Playing tick by tick, and what hears it.

ghost use Rattle.std.specs.Prelude.{◌≡◌, ◌≤◌, ◌<◌, ◌++◌, [], ℕ, ℤ, List, OnOk, OnErr, IfOk, length};
ghost use Rattle.ft_types.specs.Limits.{lowest_rate, highest_rate};
ghost use Rattle.ft_types.specs.Valid.{IsValid};
ghost use Rattle.ft_replay.specs.Replay.{sound_of_song};
ghost use Rattle.ft_run.specs.Measure.{ticks_of_song};
ghost use Rattle.ft_run.specs.Stage.{IsSet};
ghost use Rattle.ft_run.specs.Ticks.{AreMissing, HasPlayedTicks, cut_sound};

use crate::stage::Stage;
use ft_outer::WriteFault;
use ft_player::{Player, the_same_songs_after_hear_close_and_rejoin};
use ft_replay::replay_law;
use ft_shared::Shared;
use ft_types::{Module, Steps};
use std::sync::ledger::{Blank, Ledger};

/// Room for the numbers of the longest tick: 3,750 frames, left and right, and a frame more.
const TICK_NUMBERS: usize = 7_502;

/// What hears the numbers of ticks, one tick after the other.
pub trait Listener {
    // From one state to the other it has heard these numbers.
    ghost heard: { Self → Self → List ℤ → Type 0 };

    // It failed, and has heard no more than a front of these numbers.
    ghost failed: { Self → Self → List ℤ → Type 0 };

    /// Hears the numbers of a tick, left and right in turn.
    fn hear(&mut self, numbers: &[i16]) -> Result<(), WriteFault>
        ensures whole { OnOk result (heard self.old self.new numbers.now) }
        ensures front { OnErr result (failed self.old self.new numbers.now) };

    /// What is heard one after the other is heard in all. It does nothing.
    fn hearing_law(&self)
        ensures nothing { (a : Self) → heard a a [] }
        ensures joined { (a b c : Self) (first second : List ℤ)
            → heard a b first → heard b c second → heard a c (first ++ second) }
        ensures cut { (a b c : Self) (first second : List ℤ)
            → heard a b first → failed b c second → failed a c (first ++ second) }
        ensures longer { (a b : Self) (first second : List ℤ)
            → failed a b first → failed a b (first ++ second) };
}

/// Plays that many frames tick by tick, and answers how many ticks it took. The last tick is cut.
///
/// Whatever is behind the player, what is heard is the sequential sound on the versions that the
/// ticks reported. After a fault a front of it was heard, the tick of the fault with it.
fn play_ticks<E: Listener, L: Ledger>(
    player: &mut Player,
    shared: &Shared,
    frames: u32,
    ear: &mut E,
    steps: &mut Steps<L>,
) -> Result<u32, WriteFault>
    requires same { player.old.pass.register ≡ shared.now }
    ensures whole { IfOk result (λ count. (versions : List ℕ) × (length versions ≡ count)
        × HasPlayedTicks player.old player.new versions (λ ticks. AreMissing frames ticks 0
        × E.heard ear.old ear.new (cut_sound frames ticks))) }
    ensures front { OnErr result ((versions : List ℕ)
        × HasPlayedTicks player.old player.new versions
        (λ ticks. ((missing : ℕ) × AreMissing frames ticks missing)
        × E.failed ear.old ear.new (cut_sound frames ticks))) }
{
    ear.hearing_law();
    replay_law();
    let mut numbers = [0; TICK_NUMBERS];
    let mut ticks = 0;
    let mut left = frames;
    while left > 0 {
        let tick = player.tick(shared, &mut numbers, steps);
        let count = tick.frames.min(left);
        ear.hear(&numbers[..2 * count as usize])?;
        ticks += 1;
        left -= count;
    }
    Ok(ticks)
}

/// Plays that many frames of the song of a stage, from its beginning, and answers how many ticks it
/// took. Afterwards the pass is given up: so what was played is known to be what is in the
/// register's history.
pub fn play_stage<E: Listener, L: Ledger>(
    blank: Blank,
    stage: Stage,
    song: &Module,
    rate: u32,
    frames: u32,
    ear: &mut E,
) -> Result<u32, WriteFault>
    requires blank { (blank.name ≡ L.name) × (blank.parts ≡ L.parts) × (0 < L.parts) }
    requires set { IsSet song.now stage }
    requires valid { IsValid song.now }
    requires low { lowest_rate ≤ rate }
    requires high { rate ≤ highest_rate }
    ensures ticks { IfOk result (λ count. count ≡ ticks_of_song song.now frames rate) }
    ensures whole { IfOk result (λ count.
        E.heard ear.old ear.new (sound_of_song song.now frames rate)) }
    ensures front { OnErr result (E.failed ear.old ear.new (sound_of_song song.now frames rate)) }
{
    let Stage {
        shared,
        mut desk,
        pass,
    } = stage;
    ear.hearing_law();
    replay_law();
    the_same_songs_after_hear_close_and_rejoin();
    let mut steps = Steps::<L>::open(blank);
    let mut player = Player::open(pass, song.channels, rate);
    let done = play_ticks(&mut player, &shared, frames, ear, &mut steps);
    let pass = player.close(&shared, &mut steps);
    desk.settle(&shared, pass);
    desk.history_law();
    done
}
