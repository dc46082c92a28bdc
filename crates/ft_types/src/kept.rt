//! What a view over a module keeps for a channel.

ghost use Rattle.std.specs.Prelude.{◌≡◌, ◌≤◌, length};
ghost use Rattle.ft_types.specs.Valid.{IsValidSample};

use crate::sample::Sample;
use crate::words::Words;

/// A sample that a channel keeps, with its numbers.
#[derive(Clone, Copy)]
pub struct Kept<'a> {
    /// Number of its instrument, from 1.
    pub instrument: u8,
    /// Its own number in the instrument, from 0.
    pub number: u8,
    /// The sample itself, as it is in the module.
    pub sample: &'a Sample,
    /// The frames of the sample.
    pub frames: &'a [i16],
    /// The words of frames that were asked for since its start.
    pub words: Words,
    ghost valid: { IsValidSample sample.now },
    ghost some: { 1 ≤ length sample.now.frames },
    ghost whole: { frames.now ≡ sample.now.frames },
}
