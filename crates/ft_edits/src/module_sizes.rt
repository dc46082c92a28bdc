//! The sizes of a module.

ghost use Rattle.std.specs.Prelude.{◌≡◌, ◌≤◌, refl};
ghost use Rattle.std.specs.Option.{option_copied};
ghost use Rattle.std.proofs.Common.{◌∙◌};
ghost use Rattle.ft_types.specs.Valid.{IsValid};
ghost use Rattle.ft_types.specs.Views.{rows_at, instrument_at};
ghost use Rattle.ft_types.specs.Edits.{IsGivable};
ghost use Rattle.ft_edits.specs.Faults.{fault_of};
ghost use Rattle.ft_types.specs.Limits.{most_frames};
ghost use Rattle.ft_edits.specs.Sizes.{sample_sizes};

use crate::fault::fault_of;
use crate::sizes::{SampleSizes, SizeView, SongSizes};
use ft_types::{Edit, EditFault, Instrument, Module};

/// Shows one module.
#[derive(Drop)]
pub struct ModuleSizes<'a> {
    song: &'a Module,
    ghost valid: { IsValid song.now },
}

impl<'a> ModuleSizes<'a> {
    /// A view of this module.
    pub fn new(song: &'a Module) -> ModuleSizes<'a>
        requires { IsValid song.now }
        ensures { result.song.now ≡ song.now }
    {
        ModuleSizes { song }
    }
}

/// The instrument of a number from 1.
fn instrument_at(m: &Module, i: u8) -> Option<&Instrument>
    ensures { option_copied result ≡ instrument_at m.now i }
{
    if i == 0 {
        return None;
    }
    m.instruments.get(usize::from(i) - 1)
}

/// The sizes of a sample of a module.
fn sizes_in(m: &Module, i: u8, s: u8) -> SampleSizes
    requires { IsValid m.now }
    ensures value { result ≡ sample_sizes m.now i s }
    ensures few { result.frames ≤ most_frames }
{
    let none = SampleSizes {
        samples: 0,
        frames: 0,
        wide: false,
    };
    let Some(instrument) = instrument_at(m, i) else {
        return none;
    };
    let samples = instrument.samples.len() as u8;
    match instrument.samples.get(usize::from(s)) {
        Some(sample) => SampleSizes {
            samples,
            frames: sample.frames.len() as u32,
            wide: sample.wide,
        },
        None => SampleSizes { samples, ..none },
    }
}

impl<'a> SizeView for ModuleSizes<'a> {
    ghost may_show = { λ v m. v.song.now ≡ m };

    ghost same = { λ v w. v.song.now ≡ w.song.now };

    ghost same_here = { λ v. refl };

    ghost same_through = { λ u v x e f. e ∙ f };

    fn song(&mut self) -> SongSizes {
        SongSizes {
            channels: self.song.channels,
            orders: self.song.orders.len() as u16,
            patterns: self.song.patterns.len() as u16,
            instruments: self.song.instruments.len() as u16,
        }
    }

    fn rows(&mut self, p: u8) -> u16 {
        match self.song.patterns.get(usize::from(p)) {
            Some(pattern) => pattern.rows,
            None => 64,
        }
    }

    fn sample(&mut self, i: u8, s: u8) -> SampleSizes {
        sizes_in(self.song, i, s)
    }
}

/// The first fault of an edit of a module, if there is one.
pub fn fault_of_module(m: &Module, e: &Edit) -> Option<EditFault>
    requires valid { IsValid m.now }
    requires givable { IsGivable e.now }
    ensures { result ≡ fault_of m.now e.now }
{
    let mut view = ModuleSizes::new(m);
    fault_of(&mut view, e)
}
