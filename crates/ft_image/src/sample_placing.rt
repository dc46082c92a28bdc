//! Samples put into segments.

ghost use Rattle.std.specs.Prelude.{◌≡◌, ◌≤◌, ◌<◌, ◌+◌, ◌*◌, ℕ, [], List, All, length, map, sum_by};
ghost use Rattle.std.specs.List.{range_with_len};
ghost use Rattle.ft_types.specs.Valid.{IsValidSample};
ghost use Rattle.ft_types.specs.Blocks.{pieces_of, sample_blocks};
ghost use Rattle.ft_segments.specs.Packing.{ids_word, word_at};
ghost use Rattle.ft_segments.specs.Walk.{bodies_of_index};
ghost use Rattle.ft_image.specs.Values as values;
ghost use Rattle.ft_image.specs.Shown.{Pairwise, ShowsSample};
ghost use Rattle.ft_image.specs.Laid.{Keeps, laid, sample_laid, sample_root_word};

use crate::fill_view::Content;
use crate::filling::fill;
use crate::values::{bytes_word, frames_word, lengths_of, loops_of, run_word, tuning_of};
use crate::view::WordView;
use arrayvec::ArrayVec;
use ft_types::Sample;

/// The root of a sample whose indexes follow each other.
#[derive(Drop)]
struct SampleRoot<'a> {
    sample: &'a Sample,
    first: u16,
    count: u16,
    ghost within: { first + count ≤ 65536 },
    ghost valid: { IsValidSample sample.now },
}

impl<'a> Content for SampleRoot<'a> {
    ghost makes = { λ c p j w. w ≡ sample_root_word c.sample.now (range_with_len c.first c.count) j };

    fn word<V: WordView>(&self, _view: &mut V, at: u8) -> u64 {
        if at == 0 {
            return lengths_of(self.sample);
        }
        if at == 1 {
            return loops_of(self.sample);
        }
        if at == 2 {
            return tuning_of(self.sample);
        }
        if at < 6 {
            return bytes_word(&self.sample.name, at - 3);
        }
        if at == 16 {
            return run_word(self.first, self.count, 0);
        }
        0
    }
}

/// An index whose bodies follow each other.
#[derive(Drop)]
struct SampleIndex {
    first: u16,
    count: u16,
    ghost within: { first + count ≤ 65536 },
}

impl Content for SampleIndex {
    ghost makes = { λ c p j w. w ≡ ids_word (range_with_len c.first c.count) j };

    fn word<V: WordView>(&self, _view: &mut V, at: u8) -> u64 {
        run_word(self.first, self.count, at)
    }
}

/// A body of frames.
#[derive(Drop)]
pub struct FramesBody<'a> {
    /// All frames of a sample.
    pub frames: &'a [i16],
    /// The number of the first word of the body, at four frames a word.
    pub first: u32,
    ghost within: { first ≤ 1048576 },
}

impl<'a> Content for FramesBody<'a> {
    ghost makes = { λ c p j w. w ≡ values.frames_word c.frames.now (c.first + j) };

    fn word<V: WordView>(&self, _view: &mut V, at: u8) -> u64 {
        frames_word(self.frames, (self.first + u32::from(at)) as usize)
    }
}

/// The bodies that an index of a number names, of that many.
fn bodies_named(bodies: u16, index: u16) -> u16
    requires bodies { bodies ≤ 3840 }
    requires index { index < pieces_of bodies 1024 }
    ensures { result ≡ bodies_of_index bodies index }
{
    (bodies - 1024 * index).min(1024)
}

/// Fills that many indexes, one segment after the other, and lets them name that many bodies behind
/// them.
fn place_indexes(words: &mut [u64], from: u16, indexes: u16, bodies: u16)
    requires bodies { bodies ≤ 3840 }
    requires indexes { indexes ≡ pieces_of bodies 1024 }
    requires within { from + indexes + bodies ≤ 65535 }
    requires room { (from + indexes) * 256 ≤ length words.old }
    ensures kept { Keeps 0 from words.old words.new }
    ensures filled { (k j : ℕ) → k < indexes → j < 256 → word_at words.new (from + k) j
        ≡ ids_word (range_with_len (from + indexes + 1024 * k) (bodies_of_index bodies k)) j }
{
    for index in 0..indexes {
        let content = SampleIndex {
            first: from + indexes + 1024 * index,
            count: bodies_named(bodies, index),
        };
        fill(words, from + index, &content);
    }
}

/// Fills that many bodies with frames, one segment after the other.
fn place_frames(words: &mut [u64], frames: &[i16], from: u16, count: u16)
    requires few { count ≤ 3840 }
    requires within { from + count ≤ 65535 }
    requires room { (from + count) * 256 ≤ length words.old }
    ensures kept { Keeps 0 from words.old words.new }
    ensures filled { (b j : ℕ) → b < count → j < 256 → word_at words.new (from + b) j
        ≡ values.frames_word frames.now (b * 256 + j) }
{
    for body in 0..count {
        let content = FramesBody {
            frames,
            first: u32::from(body) * 256,
        };
        fill(words, from + body, &content);
    }
}

/// Fills a sample's root, its indexes and its bodies, one segment after the other. Answers the
/// segment behind them.
fn place_sample(words: &mut [u64], sample: &Sample, from: u16) -> u16
    requires valid { IsValidSample sample.now }
    requires within { from + sample_blocks sample.now ≤ 65535 }
    requires room { (from + sample_blocks sample.now) * 256 ≤ length words.old }
    ensures next { result ≡ from + sample_blocks sample.now }
    ensures kept { Keeps 0 from words.old words.new }
    ensures shown { ShowsSample words.new sample.now (sample_laid from sample.now) }
{
    let frames = sample.frames.as_slice();
    let bodies = (frames.len() as u32).div_ceil(1024) as u16;
    let indexes = bodies.div_ceil(1024);
    let root = SampleRoot {
        sample,
        first: from + 1,
        count: indexes,
    };
    fill(words, from, &root);
    place_indexes(words, from + 1, indexes, bodies);
    place_frames(words, frames, from + 1 + indexes, bodies);
    from + 1 + indexes + bodies
}

/// Fills the segments of samples, one after the other, and answers their roots. Answers the segment
/// behind them.
pub fn place_samples(
    words: &mut [u64],
    samples: &[Sample],
    from: u16,
    roots: &mut ArrayVec<u16, 16>,
) -> u16
    requires few { length samples.now ≤ 16 }
    requires valid { All IsValidSample samples.now }
    requires within { from + sum_by sample_blocks samples.now ≤ 65535 }
    requires room { (from + sum_by sample_blocks samples.now) * 256 ≤ length words.old }
    requires empty { roots.old.items ≡ [] }
    ensures next { result ≡ from + sum_by sample_blocks samples.now }
    ensures kept { Keeps 0 from words.old words.new }
    ensures roots { roots.new.items ≡ map (λ ids. ids.root)
        (laid sample_blocks sample_laid from samples.now) }
    ensures shown { Pairwise (ShowsSample words.new) samples.now
        (laid sample_blocks sample_laid from samples.now) }
{
    let mut next = from;
    for sample in samples {
        roots.push(next);
        next = place_sample(words, sample, next);
    }
    next
}
