//! What the views over passes may show, by a history that agrees with the notes. These functions do
//! nothing; their contracts say what holds.

ghost use Rattle.std.specs.Prelude.{◌≡◌, ◌<◌, ℕ, List, Some};
ghost use Rattle.ft_types.specs.declared.module.Module.{Module};
ghost use Rattle.ft_types.specs.declared.sample.Sample.{Sample};
ghost use Rattle.ft_segments.specs.Walk.{Placed, IsOf};
ghost use Rattle.ft_shared.specs.declared.law.Pin.{Pin};
ghost use Rattle.ft_shared.specs.declared.law.PlacedVersion.{PlacedVersion};
ghost use Rattle.ft_shared.specs.declared.law.TakenVersion.{TakenVersion};
ghost use Rattle.ft_shared.specs.Account.{after_fill};
ghost use Rattle.ft_shared.specs.Counts.{pin_of};
ghost use Rattle.ft_shared.specs.History.{placed_at, root_and_pool, Agrees, AreSound};
ghost use Rattle.ft_shared.specs.Pass.{ReaderState, WriterState};
ghost use Rattle.ft_image.specs.Shown.{Shows};
ghost use Rattle.ft_image.specs.Read.{MayShowAll, MayShowSample, IsRootOf};
ghost use Rattle.ft_image.specs.Passes.{IsAmong, MayShowHeld, MayShowPinned, StandsWritten, MayShowWritten, HasReadOn, AreCounted, HasMadeSteps};

use ft_segments::a_pin_holds_its_sample;
use ft_shared::{a_history_agrees_with_fewer_reads, each_version_is_sound};

/// A history that agrees with the notes of a pass agreed with them before the pass read on.
pub fn a_history_agreed_before()
    ensures { (history : List PlacedVersion) (old new : ReaderState) → HasReadOn old new
        → Agrees history new.notes → Agrees history old.notes }
{
    a_history_agrees_with_fewer_reads();
}

/// The segments of each version of a sound history are among the pool's.
pub fn a_sound_version_is_among()
    ensures { (history : List PlacedVersion) (segments number : ℕ) (placed : PlacedVersion)
        → AreSound segments history → placed_at history number ≡ Some placed
        → IsAmong segments (root_and_pool placed) }
{
    each_version_is_sound();
}

/// A pass that read nothing has read on, and what it leaves over two rows of reads it leaves over
/// both. So do the counts.
pub fn a_pass_reads_on()
    ensures nothing { (pass : ReaderState) → HasReadOn pass pass }
    ensures through { (one next last : ReaderState) → HasReadOn one next → HasReadOn next last
        → HasReadOn one last }
    ensures counted { (one next last : ReaderState) (count more all : ℕ)
        → AreCounted one next count more → AreCounted next last more all
        → AreCounted one last count all }
{}

/// The same of the steps of the writer's pass.
pub fn a_writer_steps_on()
    ensures nothing { (pass : WriterState) → HasMadeSteps pass pass }
    ensures through { (one next last : WriterState) → HasMadeSteps one next
        → HasMadeSteps next last → HasMadeSteps one last }
{}

/// In a history that agrees with the notes, the view of a pass may show the version that the pass
/// holds, whose root is that which was taken.
pub fn a_held_version_may_be_shown()
    ensures all { (pass : ReaderState) (history : List PlacedVersion) (taken : TakenVersion)
        (placed : PlacedVersion) → Agrees history pass.notes → pass.notes.held ≡ Some taken
        → placed_at history taken.version ≡ Some placed
        → IsAmong pass.register.sizes.segments (root_and_pool placed)
        → MayShowAll MayShowHeld pass (root_and_pool placed) }
    ensures root { (pass : ReaderState) (history : List PlacedVersion) (taken : TakenVersion)
        (placed : PlacedVersion) → Agrees history pass.notes → pass.notes.held ≡ Some taken
        → placed_at history taken.version ≡ Some placed → placed.root ≡ taken.root }
{}

/// In a history that agrees with the notes, the view of a pin may show the sample whose root the
/// pin names, of the version from which it was set.
pub fn a_pinned_sample_may_be_shown()
    ensures { (pass : ReaderState) (channel : ℕ) (history : List PlacedVersion) (pin : Pin)
        (placed : PlacedVersion) (song : Module) (sample : Sample)
        → Agrees history pass.notes → pin_of pass.notes channel ≡ Some pin
        → placed_at history pin.version ≡ Some placed
        → IsAmong pass.register.sizes.segments (root_and_pool placed)
        → Shows (root_and_pool placed) song → IsRootOf (root_and_pool placed) song pin.root sample
        → MayShowSample (λ view. MayShowPinned view channel) pass (root_and_pool placed) pin.root }
{
    a_pin_holds_its_sample();
}

/// The view of the writer's pass may show each version that is in the words last written. A version
/// of just these words is in them, and still is when a segment of no part in it is filled.
pub fn a_written_version_may_be_shown()
    ensures all { (pass : WriterState) (placed : Placed)
        → IsAmong pass.register.sizes.segments placed → StandsWritten pass placed
        → MayShowAll MayShowWritten pass placed }
    ensures these { (pass : WriterState) (placed : Placed) → placed.pool ≡ pass.account.pool
        → StandsWritten pass placed }
    ensures filled { (pass : WriterState) (placed : Placed) (segment at word : ℕ)
        → StandsWritten pass placed → (IsOf placed segment → ⊥) → at < 256 → StandsWritten
        (record pass { account = after_fill pass.account segment at word }) placed }
{}
