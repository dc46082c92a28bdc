//! What a history says of a pass's reads, by its agreement with the notes. No function here has
//! code.
ghost use Rattle.std.specs.Prelude.{◌≡◌, ℕ, List, ◌++◌, Some};
ghost use Rattle.ft_segments.specs.Packing.{word_at};
ghost use Rattle.ft_segments.specs.Pins.{PinHolds};
ghost use Rattle.ft_segments.specs.Walk.{IsOf};
ghost use Rattle.ft_shared.specs.declared.law.Notes.{Notes};
ghost use Rattle.ft_shared.specs.declared.law.Pin.{Pin};
ghost use Rattle.ft_shared.specs.declared.law.PlacedVersion.{PlacedVersion};
ghost use Rattle.ft_shared.specs.declared.law.TakenVersion.{TakenVersion};
ghost use Rattle.ft_shared.specs.declared.law.WordRead.{WordRead};
ghost use Rattle.ft_shared.specs.declared.law.WordStep.{WordStep};
ghost use Rattle.ft_shared.specs.Counts.{pin_of};
ghost use Rattle.ft_shared.specs.History.{placed_at, root_and_pool, Agrees};
ghost use Rattle.ft_shared.specs.Pass.{note_word, note_pinned_word};

/// A history that agrees with notes agrees with those before the last reads.
pub fn a_history_agrees_with_fewer_reads()
    ensures { (history : List PlacedVersion) (notes : Notes) (more : List WordRead)
        (steps : List WordStep)
        → Agrees history (record notes { reads = notes.reads ++ more; steps = steps })
        → Agrees history notes }
{}

/// In a history that agrees with the notes, the word that was read last is that of the version
/// which was held, or which the pin was set from, where the segment is one that may be read so.
pub fn a_read_word_is_that_of_its_version()
    ensures held { (history : List PlacedVersion) (notes : Notes) (segment at word : ℕ)
        (taken : TakenVersion) (placed : PlacedVersion)
        → Agrees history (note_word notes segment at word) → notes.held ≡ Some taken
        → placed_at history taken.version ≡ Some placed → IsOf (root_and_pool placed) segment
        → word ≡ word_at placed.pool segment at }
    ensures pinned { (history : List PlacedVersion) (notes : Notes) (channel segment at word : ℕ)
        (pin : Pin) (placed : PlacedVersion)
        → Agrees history (note_pinned_word notes channel segment at word)
        → pin_of notes channel ≡ Some pin → placed_at history pin.version ≡ Some placed
        → PinHolds (root_and_pool placed) pin.root segment
        → word ≡ word_at placed.pool segment at }
{}
