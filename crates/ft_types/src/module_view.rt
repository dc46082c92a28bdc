//! The view over one module.

ghost use Rattle.std.specs.Prelude.{◌≡◌, ◌<◌, ◌≤◌, ℕ, map, get_or, is_some, None, Some, false, replicate, length, refl};
ghost use Rattle.std.proofs.Common.{◌∙◌};
ghost use Rattle.ft_types.specs.Valid.{IsValid};
ghost use Rattle.ft_types.specs.Views.{head_of_owned, sample_of};
ghost use Rattle.ft_types.specs.ModuleViews.{owned_in, shown_of, words_kept};
ghost use Rattle.ft_types.specs.ModuleViewLaws as laws;

use crate::instrument::{Envelope, Shape};
use crate::kept::Kept;
use crate::module::{Module, SongHead};
use crate::pattern::Cell;
use crate::view::SongView;
use crate::voice::SampleHead;
use crate::{shelf, slots};
use arrayvec::ArrayVec;

/// Shows one module, as any version, and keeps for each channel the sample that its voice began
/// with.
#[derive(Drop)]
pub struct ModuleView<'a> {
    song: &'a Module,
    kept: ArrayVec<Option<Kept<'a>>, 32>,
    ghost valid: { IsValid song.now },
    ghost many: { length kept.items ≡ song.now.channels },
}

impl<'a> ModuleView<'a> {
    /// A view that keeps nothing yet.
    pub fn new(song: &'a Module) -> ModuleView<'a>
        requires { IsValid song.now }
        ensures shown { (version : ℕ) → shown_of version result.song.now result.kept.items
            ≡ record {
              version = version;
              song = song.now;
              kept = replicate song.now.channels None;
            } }
        ensures holds { map is_some result.kept.items ≡ replicate song.now.channels false }
    {
        let mut kept = ArrayVec::new();
        for _ in 0..song.channels {
            kept.push(None);
        }
        ModuleView { song, kept }
    }
}

impl<'a> SongView for ModuleView<'a> {
    type World = u32;

    ghost shows = { λ v w. Unit {0} };

    ghost shown = { λ v w. shown_of w v.song.now v.kept.items };

    ghost holds = { λ v. map is_some v.kept.items };

    ghost keeps = { λ v c h. head_of_owned (owned_in 0 (get_or v.kept.items c None)) ≡ Some h };

    ghost words = { λ v. map words_kept v.kept.items };

    ghost work = { λ v. 0 };

    ghost same = { λ v w. v.song.now ≡ w.song.now };

    ghost same_here = { λ v. refl };

    ghost same_through = { λ u v x e f. e ∙ f };

    ghost valid = { λ v w s. v.valid };

    ghost channels = { λ v w s. laws.channels v.song.now v.kept.items v.many };

    ghost wide = { λ v w s. laws.wide w v.song.now v.kept.items };

    ghost worded = { λ v. laws.worded v.kept.items };

    ghost of_head = { λ v w c h s k. laws.of_head w v.song.now v.kept.items c h k };

    ghost held = { λ v c h k. laws.held v.kept.items c h k };

    fn head(&mut self) -> SongHead {
        SongHead {
            length: self.song.orders.len() as u16,
            restart: self.song.restart,
            tempo: self.song.tempo,
            bpm: self.song.bpm,
            linear: self.song.linear,
        }
    }

    fn order(&mut self, pos: u16) -> u8 {
        shelf::order(self.song, pos)
    }

    fn rows(&mut self, pattern: u8) -> u16 {
        shelf::rows(self.song, pattern)
    }

    fn cell(&mut self, pattern: u8, row: u16, channel: u8) -> Cell {
        shelf::cell(self.song, pattern, row, channel)
    }

    fn envelope(&mut self, instrument: u8, which: u8) -> Option<Envelope> {
        shelf::envelope(self.song, instrument, which)
    }

    fn shape(&mut self, instrument: u8) -> Option<Shape> {
        shelf::shape(self.song, instrument)
    }

    fn start(&mut self, channel: u8, instrument: u8, note: u8) -> Option<SampleHead> {
        let number = shelf::number(self.song, instrument, note);
        let kept = shelf::keep(self.song, instrument, number);
        slots::put(&mut self.kept, channel, kept);
        shelf::head(kept)
    }

    fn frame(&mut self, channel: u8, place: u32) -> i16 {
        slots::ask(&mut self.kept, channel, place)
    }

    fn frames(&mut self, channel: u8, first: u32, out: &mut [i16]) {
        slots::ask_all(&mut self.kept, channel, first, out);
    }

    fn stop(&mut self, channel: u8) {
        slots::put(&mut self.kept, channel, None);
    }
}
