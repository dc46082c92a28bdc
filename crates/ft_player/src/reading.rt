//! What is read of the version that a pass holds, by its root.

ghost use Rattle.std.specs.Prelude.{◌≡◌, ◌≤◌, ◌<◌, ◌+◌, ℕ, IfSome, IsSome, length};
ghost use Rattle.ft_types.specs.Valid.{IsValidCell, IsValidEnvelope, IsValidShape, IsValidSongHead};
ghost use Rattle.ft_types.specs.Views.{song_head_of, order_at, rows_at, cell_at, instrument_at, envelope_in, shape_in};
ghost use Rattle.ft_types.specs.Work as work_of;
ghost use Rattle.ft_image.specs.Passes.{HasReadOn, AreCounted};
ghost use Rattle.ft_player.specs.declared.songs.Songs.{Songs};
ghost use Rattle.ft_player.specs.Songs.{song_at};
ghost use Rattle.ft_player.specs.Behind.{Holds, AreSongsBehind};

use crate::ranges::{ranged_cell, ranged_envelope, ranged_rows, ranged_shape, ranged_song_head};
use ft_image::{PassWords, cell, envelope, head, order, rows, shape};
use ft_shared::{ReaderPass, Shared};
use ft_types::{Cell, Envelope, Shape, SongHead, Steps};
use std::sync::ledger::Ledger;

/// What the song says of itself as a whole.
pub fn held_head<L: Ledger>(
    shared: &Shared,
    pass: &mut ReaderPass,
    root: u16,
    steps: &mut Steps<L>,
) -> SongHead
    requires here { pass.old.register ≡ shared.now }
    requires held { IsSome pass.old.notes.held }
    ensures value { (songs : Songs) (version : ℕ) → Holds pass.old version root
        → AreSongsBehind songs pass.new → result ≡ song_head_of (song_at songs version) }
    ensures range { IsValidSongHead result }
    ensures on { HasReadOn pass.old pass.new }
    ensures counted { AreCounted pass.old pass.new steps.old steps.new }
    ensures work { (steps.old ≤ steps.new) × (steps.new ≤ steps.old + work_of.head_bound) }
{
    let mut words = PassWords {
        shared,
        pass,
        steps,
    };
    ranged_song_head(head(&mut words, root))
}

/// The number of the pattern at an order position. Nothing is said of a position that isn't below
/// the length.
pub fn held_order<L: Ledger>(
    shared: &Shared,
    pass: &mut ReaderPass,
    root: u16,
    pos: u16,
    steps: &mut Steps<L>,
) -> u8
    requires here { pass.old.register ≡ shared.now }
    requires held { IsSome pass.old.notes.held }
    ensures value { (songs : Songs) (version : ℕ) → Holds pass.old version root
        → AreSongsBehind songs pass.new → pos < length (song_at songs version).orders
        → result ≡ order_at (song_at songs version) pos }
    ensures on { HasReadOn pass.old pass.new }
    ensures counted { AreCounted pass.old pass.new steps.old steps.new }
    ensures work { (steps.old ≤ steps.new) × (steps.new ≤ steps.old + work_of.order_bound) }
{
    let mut words = PassWords {
        shared,
        pass,
        steps,
    };
    order(&mut words, root, pos)
}

/// The rows of the pattern of a number; 64 where it isn't stored.
pub fn held_rows<L: Ledger>(
    shared: &Shared,
    pass: &mut ReaderPass,
    root: u16,
    pattern: u8,
    steps: &mut Steps<L>,
) -> u16
    requires here { pass.old.register ≡ shared.now }
    requires held { IsSome pass.old.notes.held }
    ensures value { (songs : Songs) (version : ℕ) → Holds pass.old version root
        → AreSongsBehind songs pass.new → result ≡ rows_at (song_at songs version) pattern }
    ensures some { 1 ≤ result }
    ensures few { result ≤ 256 }
    ensures on { HasReadOn pass.old pass.new }
    ensures counted { AreCounted pass.old pass.new steps.old steps.new }
    ensures work { (steps.old ≤ steps.new) × (steps.new ≤ steps.old + work_of.rows_bound) }
{
    let mut words = PassWords {
        shared,
        pass,
        steps,
    };
    ranged_rows(rows(&mut words, root, pattern))
}

/// The cell of a row and a channel of a pattern.
pub fn held_cell<L: Ledger>(
    shared: &Shared,
    pass: &mut ReaderPass,
    root: u16,
    pattern: u8,
    row: u16,
    channel: u8,
    steps: &mut Steps<L>,
) -> Cell
    requires here { pass.old.register ≡ shared.now }
    requires held { IsSome pass.old.notes.held }
    requires channel { channel < shared.now.sizes.channels }
    ensures value { (songs : Songs) (version : ℕ) → Holds pass.old version root
        → AreSongsBehind songs pass.new
        → result ≡ cell_at (song_at songs version) pattern row channel }
    ensures range { IsValidCell result }
    ensures on { HasReadOn pass.old pass.new }
    ensures counted { AreCounted pass.old pass.new steps.old steps.new }
    ensures work { (steps.old ≤ steps.new) × (steps.new ≤ steps.old + work_of.cell_bound) }
{
    let mut words = PassWords {
        shared,
        pass,
        steps,
    };
    ranged_cell(cell(&mut words, root, pattern, row, channel))
}

/// An envelope of an instrument, counted from 1: that of the volume where `which` is 0, and that of
/// the panning where it is 1.
pub fn held_envelope<L: Ledger>(
    shared: &Shared,
    pass: &mut ReaderPass,
    root: u16,
    instrument: u8,
    which: u8,
    steps: &mut Steps<L>,
) -> Option<Envelope>
    requires here { pass.old.register ≡ shared.now }
    requires held { IsSome pass.old.notes.held }
    requires which { which ≤ 1 }
    ensures value { (songs : Songs) (version : ℕ) → Holds pass.old version root
        → AreSongsBehind songs pass.new
        → result ≡ envelope_in (instrument_at (song_at songs version) instrument) which }
    ensures range { IfSome result IsValidEnvelope }
    ensures on { HasReadOn pass.old pass.new }
    ensures counted { AreCounted pass.old pass.new steps.old steps.new }
    ensures work { (steps.old ≤ steps.new) × (steps.new ≤ steps.old + work_of.envelope_bound) }
{
    let mut words = PassWords {
        shared,
        pass,
        steps,
    };
    ranged_envelope(envelope(&mut words, root, instrument, which))
}

/// The automatic vibrato and the fadeout of an instrument, counted from 1.
pub fn held_shape<L: Ledger>(
    shared: &Shared,
    pass: &mut ReaderPass,
    root: u16,
    instrument: u8,
    steps: &mut Steps<L>,
) -> Option<Shape>
    requires here { pass.old.register ≡ shared.now }
    requires held { IsSome pass.old.notes.held }
    ensures value { (songs : Songs) (version : ℕ) → Holds pass.old version root
        → AreSongsBehind songs pass.new
        → result ≡ shape_in (instrument_at (song_at songs version) instrument) }
    ensures range { IfSome result IsValidShape }
    ensures on { HasReadOn pass.old pass.new }
    ensures counted { AreCounted pass.old pass.new steps.old steps.new }
    ensures work { (steps.old ≤ steps.new) × (steps.new ≤ steps.old + work_of.shape_bound) }
{
    let mut words = PassWords {
        shared,
        pass,
        steps,
    };
    ranged_shape(shape(&mut words, root, instrument))
}
