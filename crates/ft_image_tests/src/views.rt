//! What the readers answer over passes, said of each history that agrees with the notes.

ghost use Rattle.std.specs.Prelude.{◌≡◌, ◌≤◌, ◌<◌, ◌+◌, ℕ, List, Some, IsSome, length, slice_index_or, pos};
ghost use Rattle.ft_types.specs.declared.module.Module.{Module};
ghost use Rattle.ft_types.specs.declared.sample.Sample.{Sample};
ghost use Rattle.ft_types.specs.Views.{rows_at, cell_at};
ghost use Rattle.ft_types.specs.Work as work_of;
ghost use Rattle.ft_segments.specs.Walk.{Placed};
ghost use Rattle.ft_shared.specs.declared.law.Pin.{Pin};
ghost use Rattle.ft_shared.specs.declared.law.PlacedVersion.{PlacedVersion};
ghost use Rattle.ft_shared.specs.declared.law.TakenVersion.{TakenVersion};
ghost use Rattle.ft_shared.specs.Counts.{pin_of};
ghost use Rattle.ft_shared.specs.History.{placed_at, root_and_pool, Agrees};
ghost use Rattle.ft_image.specs.Shown.{Shows};
ghost use Rattle.ft_image.specs.Read.{IsRootOf};
ghost use Rattle.ft_image.specs.Passes.{IsAmong, StandsWritten, HasReadOn, HasMadeSteps};

use ft_image::{
    PassWords, PinnedWords, WordView, WriterWords, a_held_version_may_be_shown,
    a_pinned_sample_may_be_shown, a_written_version_may_be_shown, cell, frame, rows,
};
use ft_shared::{ReaderPass, Shared, WriterPass};
use ft_types::{Cell, Steps};
use std::sync::ledger::Ledger;

/// The rows of a pattern of the version that a pass holds, by its root.
pub fn held_rows<L: Ledger>(
    shared: &Shared,
    pass: &mut ReaderPass,
    root: u16,
    pattern: u8,
    steps: &mut Steps<L>,
) -> u16
    requires same { pass.old.register ≡ shared.now }
    requires held { IsSome pass.old.notes.held }
    ensures rows { (history : List PlacedVersion) (taken : TakenVersion) (placed : PlacedVersion)
        (song : Module) → Agrees history pass.new.notes → pass.new.notes.held ≡ Some taken
        → taken.root ≡ root → placed_at history taken.version ≡ Some placed
        → IsAmong shared.now.sizes.segments (root_and_pool placed)
        → Shows (root_and_pool placed) song
        → result ≡ rows_at song pattern }
    ensures steps { steps.new ≤ steps.old + work_of.rows_bound }
    ensures on { HasReadOn pass.old pass.new }
    ensures kept { (pass.new.register ≡ pass.old.register)
        × (pass.new.notes.held ≡ pass.old.notes.held)
        × (pass.new.notes.pins ≡ pass.old.notes.pins) }
{
    a_held_version_may_be_shown();
    let mut view = PassWords {
        shared,
        pass,
        steps,
    };
    rows(&mut view, root, pattern)
}

/// A word of a segment, by the version that a pass holds.
pub fn held_word<L: Ledger>(
    shared: &Shared,
    pass: &mut ReaderPass,
    segment: u16,
    at: u8,
    steps: &mut Steps<L>,
) -> u64
    requires same { pass.old.register ≡ shared.now }
    requires held { IsSome pass.old.notes.held }
    ensures on { HasReadOn pass.old pass.new }
    ensures kept { (pass.new.register ≡ pass.old.register)
        × (pass.new.notes.held ≡ pass.old.notes.held)
        × (pass.new.notes.pins ≡ pass.old.notes.pins) }
{
    let mut view = PassWords {
        shared,
        pass,
        steps,
    };
    view.word(segment, at)
}

/// A cell of the version that a pass holds, by its root.
pub fn held_cell<L: Ledger>(
    shared: &Shared,
    pass: &mut ReaderPass,
    root: u16,
    row: u16,
    steps: &mut Steps<L>,
) -> Cell
    requires same { pass.old.register ≡ shared.now }
    requires held { IsSome pass.old.notes.held }
    ensures on { HasReadOn pass.old pass.new }
    ensures kept { (pass.new.register ≡ pass.old.register)
        × (pass.new.notes.held ≡ pass.old.notes.held)
        × (pass.new.notes.pins ≡ pass.old.notes.pins) }
{
    let mut view = PassWords {
        shared,
        pass,
        steps,
    };
    cell(&mut view, root, 0, row, 0)
}

/// A frame of a sample of the version that a pass holds, by the sample's root.
pub fn held_frame<L: Ledger>(
    shared: &Shared,
    pass: &mut ReaderPass,
    sample: u16,
    place: u32,
    steps: &mut Steps<L>,
) -> i16
    requires same { pass.old.register ≡ shared.now }
    requires held { IsSome pass.old.notes.held }
    ensures on { HasReadOn pass.old pass.new }
    ensures kept { (pass.new.register ≡ pass.old.register)
        × (pass.new.notes.held ≡ pass.old.notes.held)
        × (pass.new.notes.pins ≡ pass.old.notes.pins) }
{
    let mut view = PassWords {
        shared,
        pass,
        steps,
    };
    frame(&mut view, sample, place)
}

/// A frame of the sample that the pin of a channel names.
pub fn pinned_frame<L: Ledger>(
    shared: &Shared,
    pass: &mut ReaderPass,
    channel: u8,
    sample: u16,
    place: u32,
    steps: &mut Steps<L>,
) -> i16
    requires same { pass.old.register ≡ shared.now }
    requires pin { IsSome (pin_of pass.old.notes channel) }
    ensures frame { (history : List PlacedVersion) (pin : Pin) (placed : PlacedVersion)
        (song : Module) (x : Sample) → Agrees history pass.new.notes
        → pin_of pass.new.notes channel ≡ Some pin → pin.root ≡ sample
        → placed_at history pin.version ≡ Some placed
        → IsAmong shared.now.sizes.segments (root_and_pool placed)
        → Shows (root_and_pool placed) song
        → IsRootOf (root_and_pool placed) song pin.root x
        → place < length x.frames → result ≡ slice_index_or x.frames place (pos 0) }
    ensures steps { steps.new ≤ steps.old + work_of.frame_bound }
    ensures on { HasReadOn pass.old pass.new }
    ensures kept { (pass.new.register ≡ pass.old.register)
        × (pass.new.notes.held ≡ pass.old.notes.held)
        × (pass.new.notes.pins ≡ pass.old.notes.pins) }
{
    a_pinned_sample_may_be_shown();
    let mut view = PinnedWords {
        shared,
        pass,
        channel,
        steps,
    };
    frame(&mut view, sample, place)
}

/// A cell of a version that is in the words last written, by its root.
pub fn written_cell(shared: &Shared, pass: &mut WriterPass, root: u16, row: u16) -> Cell
    requires same { pass.old.register ≡ shared.now }
    ensures cell { (placed : Placed) (song : Module) → placed.root ≡ root
        → IsAmong shared.now.sizes.segments placed → StandsWritten pass.new placed
        → Shows placed song → 0 < song.channels → result ≡ cell_at song 0 row 0 }
    ensures on { HasMadeSteps pass.old pass.new }
    ensures kept { pass.new.register ≡ pass.old.register }
{
    a_written_version_may_be_shown();
    let mut view = WriterWords { shared, pass };
    cell(&mut view, root, 0, row, 0)
}
