//! The view of a player: one version of a song by the words of a register.

ghost use Rattle.std.specs.Prelude.{◌≡◌, Some, None, length, get_or, is_some, map, refl};
ghost use Rattle.std.proofs.Common.{◌∙◌};
ghost use Rattle.ft_image.specs.Passes.{AreCounted};
ghost use Rattle.ft_player.specs.Seats.{head_in, pin_in, seat_words};
ghost use Rattle.ft_player.specs.BehindLaws as laws;
ghost use Rattle.ft_player.specs.Behind.{Holds, AreSongsBehind, AreSeated, shown_by, HasPlayedOn};

use crate::asking::ask;
use crate::laws::songs_agree_with_earlier_notes;
use crate::reading::{held_cell, held_envelope, held_head, held_order, held_rows, held_shape};
use crate::run::run_of;
use crate::seat::Seat;
use crate::songs::Songs;
use crate::sounding::{begun_seat, head_of, sit};
use arrayvec::ArrayVec;
use ft_shared::{ReaderPass, Shared};
use ft_types::{Cell, Envelope, SampleHead, Shape, SongHead, SongView, Steps};
use std::sync::ledger::Ledger;

/// Shows the version that a reader's pass holds, and keeps for each channel the sample that its
/// voice began with, by a pin: the sample is that of the version in which the voice began.
///
/// What may be behind it are all versions of songs that agree with what the pass noted and whose
/// words show their songs. No call looks or takes.
#[derive(Drop)]
pub struct PlayerView<'a, 'b, 'c, 'd, L: Ledger> {
    /// The register that the pass came from.
    pub shared: &'a Shared,
    /// The pass.
    pub pass: &'b mut ReaderPass,
    /// What is kept for each channel of the song.
    pub seats: &'c mut ArrayVec<Option<Seat>, 32>,
    /// Counts one step a word that is read, and one a pin that is set or taken away.
    pub steps: &'d mut Steps<L>,
    /// The number of the version that the pass holds.
    pub version: u32,
    /// The segment of its root.
    pub root: u16,
    ghost here: { pass.now.register ≡ shared.now },
    ghost held: { Holds pass.now version root },
    ghost many: { length seats.now.items ≡ shared.now.sizes.channels },
    ghost pins: { pass.now.notes.pins ≡ map pin_in seats.now.items },
    ghost seated: { AreSeated pass.now seats.now.items },
}

impl<'a, 'b, 'c, 'd, L: Ledger> SongView for PlayerView<'a, 'b, 'c, 'd, L> {
    type World = Songs;

    ghost shows = { λ v w. AreSongsBehind w v.pass.now };

    ghost shown = { λ v w. shown_by w v.version v.seats.now.items };

    ghost holds = { λ v. map is_some v.seats.now.items };

    ghost keeps = { λ v c h. head_in (get_or v.seats.now.items c None) ≡ Some h };

    ghost words = { λ v. map seat_words v.seats.now.items };

    ghost work = { λ v. v.steps.now };

    ghost same = { λ v w. (v.shared.now ≡ w.shared.now)
        × (v.version ≡ w.version) × (v.root ≡ w.root)
        × (v.pass.ghost_name ≡ w.pass.ghost_name) × (v.seats.ghost_name ≡ w.seats.ghost_name)
        × (v.steps.ghost_name ≡ w.steps.ghost_name) × HasPlayedOn v.pass.now w.pass.now
        × AreCounted v.pass.now w.pass.now v.steps.now w.steps.now };

    ghost same_here = { λ v. (
      refl,
      refl,
      refl,
      refl,
      refl,
      refl,
      laws.plays_nothing v.pass.now,
      refl,
    ) };

    ghost same_through = { λ u v w e f. (
      e.0 ∙ f.0,
      e.1 ∙ f.1,
      e.2 ∙ f.2,
      e.3 ∙ f.3,
      e.4 ∙ f.4,
      e.5 ∙ f.5,
      laws.plays_through u.pass.now v.pass.now w.pass.now e.6 f.6,
      laws.counted_through u.pass.now v.pass.now w.pass.now
          u.steps.now v.steps.now w.steps.now e.7 f.7,
    ) };

    ghost valid = { λ v w s. laws.valid w v.pass.now
        (record { version = v.version; root = v.root }) s v.held };

    ghost channels = { λ v w s. laws.channels w v.pass.now v.shared.now
        (record { version = v.version; root = v.root }) v.seats.now.items s v.here v.held v.many };

    ghost wide = { λ v w s. laws.wide w v.seats.now.items };

    ghost worded = { λ v. laws.worded v.seats.now.items };

    ghost of_head = { λ v w c h s k.
        laws.of_head w v.pass.now v.seats.now.items c h v.seated s k };

    ghost held = { λ v c h k. laws.held v.seats.now.items c h k };

    fn head(&mut self) -> SongHead {
        songs_agree_with_earlier_notes();
        held_head(self.shared, self.pass, self.root, self.steps)
    }

    fn order(&mut self, pos: u16) -> u8 {
        songs_agree_with_earlier_notes();
        held_order(self.shared, self.pass, self.root, pos, self.steps)
    }

    fn rows(&mut self, pattern: u8) -> u16 {
        songs_agree_with_earlier_notes();
        held_rows(self.shared, self.pass, self.root, pattern, self.steps)
    }

    fn cell(&mut self, pattern: u8, row: u16, channel: u8) -> Cell {
        songs_agree_with_earlier_notes();
        held_cell(
            self.shared,
            self.pass,
            self.root,
            pattern,
            row,
            channel,
            self.steps,
        )
    }

    fn envelope(&mut self, instrument: u8, which: u8) -> Option<Envelope> {
        songs_agree_with_earlier_notes();
        held_envelope(
            self.shared,
            self.pass,
            self.root,
            instrument,
            which,
            self.steps,
        )
    }

    fn shape(&mut self, instrument: u8) -> Option<Shape> {
        songs_agree_with_earlier_notes();
        held_shape(self.shared, self.pass, self.root, instrument, self.steps)
    }

    fn start(&mut self, channel: u8, instrument: u8, note: u8) -> Option<SampleHead> {
        songs_agree_with_earlier_notes();
        let seat = begun_seat(
            self.shared,
            self.pass,
            self.version,
            self.root,
            instrument,
            note,
            self.steps,
        );
        sit(
            self.shared,
            self.pass,
            self.seats,
            channel,
            seat,
            self.steps,
        );
        head_of(seat)
    }

    fn frame(&mut self, channel: u8, place: u32) -> i16 {
        songs_agree_with_earlier_notes();
        ask(
            self.shared,
            self.pass,
            self.seats,
            channel,
            place,
            self.steps,
        )
    }

    fn frames(&mut self, channel: u8, first: u32, out: &mut [i16]) {
        songs_agree_with_earlier_notes();
        run_of(
            self.shared,
            self.pass,
            self.seats,
            channel,
            first,
            out,
            self.steps,
        );
    }

    fn stop(&mut self, channel: u8) {
        songs_agree_with_earlier_notes();
        sit(
            self.shared,
            self.pass,
            self.seats,
            channel,
            None,
            self.steps,
        );
    }
}
