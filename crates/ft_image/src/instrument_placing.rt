//! Instruments put into segments.

ghost use Rattle.std.specs.Prelude.{◌≡◌, ◌≤◌, ◌<◌, ◌+◌, ◌*◌, ℕ, [], List, All, length, map, sum_by};
ghost use Rattle.ft_types.specs.Valid.{IsValidInstrument};
ghost use Rattle.ft_types.specs.Blocks.{instrument_blocks};
ghost use Rattle.ft_image.specs.Shown.{Pairwise, ShowsInstrument};
ghost use Rattle.ft_image.specs.Laid.{Keeps, laid, instrument_laid, instrument_root_word};

use crate::fill_view::Content;
use crate::filling::fill;
use crate::sample_placing::place_samples;
use crate::values::{bytes_word, counts_of, envelopes_of, ids_word, points_word};
use crate::view::WordView;
use arrayvec::ArrayVec;
use ft_types::Instrument;

/// The root of an instrument.
#[derive(Drop)]
pub struct InstrumentRoot<'a, 'b> {
    /// The instrument.
    pub instrument: &'a Instrument,
    /// The segments of the roots of its samples, in their order.
    pub samples: &'b [u16],
    ghost valid: { IsValidInstrument instrument.now },
}

impl<'a, 'b> Content for InstrumentRoot<'a, 'b> {
    ghost makes = { λ c p j w. w ≡ instrument_root_word c.instrument.now c.samples.now j };

    fn word<V: WordView>(&self, _view: &mut V, at: u8) -> u64 {
        let instrument = self.instrument;
        if at == 0 {
            return counts_of(instrument);
        }
        if at == 1 {
            return envelopes_of(instrument);
        }
        if at == 2 {
            return u64::from(instrument.fadeout);
        }
        if at < 6 {
            return bytes_word(&instrument.name, at - 3);
        }
        if at < 18 {
            return bytes_word(&instrument.map, at - 6);
        }
        if at < 24 {
            return points_word(&instrument.volume.points, at - 18);
        }
        if at < 30 {
            return points_word(&instrument.panning.points, at - 24);
        }
        if at < 34 {
            let samples = self.samples;
            return ids_word(samples, at - 30);
        }
        0
    }
}

/// Fills an instrument's root and the segments of its samples, one after the other. Answers the
/// segment behind them.
fn place_instrument(words: &mut [u64], instrument: &Instrument, from: u16) -> u16
    requires valid { IsValidInstrument instrument.now }
    requires within { from + instrument_blocks instrument.now ≤ 65535 }
    requires room { (from + instrument_blocks instrument.now) * 256 ≤ length words.old }
    ensures next { result ≡ from + instrument_blocks instrument.now }
    ensures kept { Keeps 0 from words.old words.new }
    ensures shown { ShowsInstrument words.new instrument.now
        (instrument_laid from instrument.now) }
{
    let mut roots = ArrayVec::new();
    let next = place_samples(words, instrument.samples.as_slice(), from + 1, &mut roots);
    let root = InstrumentRoot {
        instrument,
        samples: roots.as_slice(),
    };
    fill(words, from, &root);
    next
}

/// Fills the segments of instruments, one after the other, and answers their roots. Answers the
/// segment behind them.
pub fn place_instruments(
    words: &mut [u64],
    instruments: &[Instrument],
    from: u16,
    roots: &mut ArrayVec<u16, 128>,
) -> u16
    requires few { length instruments.now ≤ 128 }
    requires valid { All IsValidInstrument instruments.now }
    requires within { from + sum_by instrument_blocks instruments.now ≤ 65535 }
    requires room { (from + sum_by instrument_blocks instruments.now) * 256 ≤ length words.old }
    requires empty { roots.old.items ≡ [] }
    ensures next { result ≡ from + sum_by instrument_blocks instruments.now }
    ensures kept { Keeps 0 from words.old words.new }
    ensures roots { roots.new.items ≡ map (λ ids. ids.root)
        (laid instrument_blocks instrument_laid from instruments.now) }
    ensures shown { Pairwise (ShowsInstrument words.new) instruments.now
        (laid instrument_blocks instrument_laid from instruments.now) }
{
    let mut next = from;
    for instrument in instruments {
        roots.push(next);
        next = place_instrument(words, instrument, next);
    }
    next
}
