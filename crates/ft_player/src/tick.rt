//! A tick of a player.

ghost use Rattle.std.specs.Prelude.{◌≡◌, ◌≤◌, ◌+◌, ◌*◌, ◌++◌, true, All, length, drop};
ghost use Rattle.ft_types.specs.Limits.{longest_tick, room_of_tick};
ghost use Rattle.ft_types.specs.declared.voice.Voice.{Voice};
ghost use Rattle.ft_mix.specs.Mixing.{is_slow};
ghost use Rattle.ft_image.specs.Passes.{AreCounted};
ghost use Rattle.ft_player.specs.Bounds.{step_bound, slow_bound};
ghost use Rattle.ft_player.specs.Player.{IsInOrder, IsPlayed, IsRenewed, ForAllBehind, HasLooked, held_in};

use crate::player::Player;
use crate::view::PlayerView;
use ft_play::play_tick;
use ft_shared::{Held, ReaderPass, Shared};
use ft_types::{Steps, TickReport};
use std::sync::ledger::Ledger;

impl Player {
    /// Plays the next tick, on the version that is current now: its frames, left and right in turn,
    /// are the first numbers of `out`, which has room for 7,502, and the rest of `out` stays as it
    /// was. A tick has 1 to 3,750 frames.
    ///
    /// It looks once. Where it holds no version it takes the current one; where that is newer than
    /// the one it holds, it leaves this one first. Afterwards the version that it holds is among
    /// its takes. The counter rises by exactly the steps that the pass notes.
    pub fn tick<L: Ledger>(
        &mut self,
        shared: &Shared,
        out: &mut [i16],
        steps: &mut Steps<L>,
    ) -> TickReport
        requires same { self.old.pass.register ≡ shared.now }
        requires room { room_of_tick ≤ length out.old }
        ensures played { ForAllBehind self.old self.new
            (λ songs. IsPlayed songs self.old self.new result out.new) }
        ensures looked { HasLooked self.old.pass.notes self.new.pass.notes result.version }
        ensures order { IsInOrder self.new }
        ensures rate { self.new.rate ≡ self.old.rate }
        ensures register { self.new.pass.register ≡ self.old.pass.register }
        ensures rest { drop (2 * result.frames) out.new ≡ drop (2 * result.frames) out.old }
        ensures many { length out.new ≡ length out.old }
        ensures some_frames { 1 ≤ result.frames }
        ensures few_frames { result.frames ≤ longest_tick }
        ensures counted { AreCounted self.old.pass self.new.pass steps.old steps.new }
        ensures steps { (steps.old ≤ steps.new) × (steps.new ≤ steps.old
            + step_bound self.old.pass.register.sizes.channels result.frames) }
        ensures slow { All (λ (voice : Voice). is_slow voice ≡ true) self.new.mixed
            → steps.new ≤ steps.old
            + slow_bound self.old.pass.register.sizes.channels result.frames }
    {
        let held = renew(&mut self.pass, self.held, shared, steps);
        self.held = Some(held);
        let mut view = PlayerView {
            shared,
            pass: &mut self.pass,
            seats: &mut self.seats,
            steps: &mut *steps,
            version: held.version,
            root: held.root,
        };
        let at = play_tick(&mut view, &mut self.song, self.rate, &mut self.mixed, out);
        TickReport {
            version: held.version,
            order: at.order,
            row: at.row,
            tick: at.tick,
            frames: at.frames,
        }
    }
}

/// Holds the current version, after one look: the version that is held stays where it is current,
/// and else it is left.
fn renew<L: Ledger>(
    pass: &mut ReaderPass,
    held: Option<Held>,
    shared: &Shared,
    steps: &mut Steps<L>,
) -> Held
    requires same { pass.old.register ≡ shared.now }
    requires held { pass.old.notes.held ≡ held_in held }
    ensures register { pass.new.register ≡ pass.old.register }
    ensures renewed { IsRenewed pass.old.notes pass.new.notes result }
    ensures counted { AreCounted pass.old pass.new steps.old steps.new }
    ensures steps { (steps.old ≤ steps.new) × (steps.new ≤ steps.old + 3) }
{
    let now = shared.look(pass, steps);
    if let Some(held) = held {
        if now <= held.version {
            return held;
        }
        shared.leave(pass, steps);
    }
    shared.take(pass, steps)
}
