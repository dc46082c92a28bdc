//! How many blocks a valid module takes.

ghost use Rattle.std.specs.Prelude.{◌≡◌, ◌≤◌, All, length, sum_by};
ghost use Rattle.ft_types.specs.Blocks.{pattern_blocks, bodies_of, indexes_of, sample_blocks};
ghost use Rattle.ft_types.specs.Blocks.{instrument_blocks, blocks_of};
ghost use Rattle.ft_types.specs.Valid.{IsValidPattern, IsValidSample, IsValidInstrument, IsValid};

use crate::instrument::Instrument;
use crate::module::Module;
use crate::pattern::Pattern;
use crate::sample::Sample;

/// The cells that a block holds.
const BLOCK_CELLS: u32 = 256;

/// The frames that a block holds.
const BLOCK_FRAMES: u32 = 1024;

/// The blocks of frames that an index names.
const INDEX_BLOCKS: u32 = 1024;

/// The blocks of a pattern, at most 33.
fn pattern_blocks(pattern: &Pattern, channels: u8) -> u32
    requires few { channels ≤ 32 }
    requires valid { IsValidPattern channels pattern.now }
    ensures value { result ≡ pattern_blocks channels pattern.now }
    ensures most { result ≤ 33 }
{
    1 + (u32::from(pattern.rows) * u32::from(channels)).div_ceil(BLOCK_CELLS)
}

/// The blocks of all patterns.
fn patterns_blocks(patterns: &[Pattern], channels: u8) -> u32
    requires channels { channels ≤ 32 }
    requires few { length patterns.now ≤ 256 }
    requires valid { All (IsValidPattern channels) patterns.now }
    ensures value { result ≡ sum_by (pattern_blocks channels) patterns.now }
    ensures most { result ≤ 8448 }
{
    let mut blocks = 0;
    for pattern in patterns {
        blocks += pattern_blocks(pattern, channels);
    }
    blocks
}

/// The blocks of a sample, at most 3,845: one, those of its frames, and their indexes.
fn sample_blocks(sample: &Sample) -> u32
    requires { IsValidSample sample.now }
    ensures value { result ≡ sample_blocks sample.now }
    ensures most { result ≤ 3845 }
{
    let bodies = (sample.frames.len() as u32).div_ceil(BLOCK_FRAMES);
    1 + bodies + bodies.div_ceil(INDEX_BLOCKS)
}

/// The blocks of an instrument's samples.
fn samples_blocks(samples: &[Sample]) -> u32
    requires few { length samples.now ≤ 16 }
    requires valid { All IsValidSample samples.now }
    ensures value { result ≡ sum_by sample_blocks samples.now }
    ensures most { result ≤ 61520 }
{
    let mut blocks = 0;
    for sample in samples {
        blocks += sample_blocks(sample);
    }
    blocks
}

/// The blocks of an instrument, at most 61,521.
fn instrument_blocks(instrument: &Instrument) -> u32
    requires { IsValidInstrument instrument.now }
    ensures value { result ≡ instrument_blocks instrument.now }
    ensures most { result ≤ 61521 }
{
    1 + samples_blocks(instrument.samples.as_slice())
}

/// The blocks of all instruments.
fn instruments_blocks(instruments: &[Instrument]) -> u32
    requires few { length instruments.now ≤ 128 }
    requires valid { All IsValidInstrument instruments.now }
    ensures value { result ≡ sum_by instrument_blocks instruments.now }
    ensures most { result ≤ 7874688 }
{
    let mut blocks = 0;
    for instrument in instruments {
        blocks += instrument_blocks(instrument);
    }
    blocks
}

/// The number of blocks that a valid module takes, at most 7,883,137: one; for each pattern one,
/// and one for every 256 cells begun; for each instrument one; and for each sample one, one for
/// every 1,024 frames begun, and one for every 1,024 of these.
pub fn blocks(song: &Module) -> u32
    requires { IsValid song.now }
    ensures { result ≡ blocks_of song.now }
{
    let patterns = patterns_blocks(song.patterns.as_slice(), song.channels);
    let instruments = instruments_blocks(song.instruments.as_slice());
    1 + patterns + instruments
}
