//! A song that is played and not written: how many ticks it took, and how loud it was.

ghost use Rattle.std.specs.Prelude.{◌≡◌, ◌≤◌, fold, IfOk};
ghost use Rattle.ft_types.specs.Limits.{lowest_rate, highest_rate};
ghost use Rattle.ft_types.specs.Blocks.{blocks_of};
ghost use Rattle.ft_types.specs.Valid.{IsValid};
ghost use Rattle.ft_run.specs.Measure.{louder, peak_of_song, ticks_of_song};

use crate::hearing::{Listener, play_stage};
use crate::stage::Stage;
use ft_outer::WriteFault;
use ft_types::{Module, NoMemory};
use std::alloc::Global;
use std::marker::Brand;
use std::sync::ledger::Blank;

/// Segments of the pool from which a generated song is played.
const SEGMENTS: u16 = 16_384;

/// What is said of a song that was played.
#[derive(Clone, Copy)]
pub struct Measure {
    /// How many ticks it took.
    pub ticks: u32,
    /// The largest size of a number of the output, 0 to 32,768.
    pub peak: u16,
}

/// The largest size of numbers, or a peak before them.
fn raised(peak: u16, numbers: &[i16]) -> u16
    ensures { result ≡ fold louder peak numbers.now }
{
    let mut most = peak;
    for number in numbers {
        most = most.max(number.unsigned_abs());
    }
    most
}

/// Keeps the largest size of the numbers that it hears. It never fails.
#[derive(Drop)]
struct Peak {
    size: u16,
}

impl Listener for Peak {
    ghost heard = { λ a b numbers. b.size ≡ fold louder a.size numbers };

    ghost failed = { λ a b numbers. ⊥ };

    fn hear(&mut self, numbers: &[i16]) -> Result<(), WriteFault> {
        self.size = raised(self.size, numbers);
        Ok(())
    }

    fn hearing_law(&self) {}
}

/// Plays that many frames of a song from its beginning, from a pool of 16,384 segments, and answers
/// how many ticks that took, and how loud it was. `rate` is 8,000 to 48,000 frames a second. The
/// song has no more blocks than the pool has segments.
#[tactic(auto, unfolding(crate::specs::Measure::peak_of_song))]
pub fn measured(alloc: Global, song: &Module, rate: u32, frames: u32) -> Result<Measure, NoMemory>
    requires valid { IsValid song.now }
    requires few { blocks_of song.now ≤ 16384 }
    requires low { lowest_rate ≤ rate }
    requires high { rate ≤ highest_rate }
    ensures ticks { IfOk result (λ measure. measure.ticks ≡ ticks_of_song song.now frames rate) }
    ensures peak { IfOk result (λ measure. measure.peak ≡ peak_of_song song.now frames rate) }
{
    let Ok(stage) = Stage::open(alloc, song, SEGMENTS) else {
        return Err(NoMemory);
    };
    let mut peak = Peak { size: 0 };
    let Ok(ticks) = play_stage::<Peak, Brand>(Blank::new(1), stage, song, rate, frames, &mut peak)
    else {
        unreachable!()
    };
    Ok(Measure {
        ticks,
        peak: peak.size,
    })
}
