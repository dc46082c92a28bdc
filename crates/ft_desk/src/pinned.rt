//! What a pinned root names by the words last written, as marks.

ghost use Rattle.std.specs.Prelude.{◌≡◌, ◌+◌, ◌*◌, ◌<◌, ◌≤◌, ℕ, length};
ghost use Rattle.ft_segments.specs.Packing.{digit, word_at};
ghost use Rattle.ft_segments.specs.Walk.{index_uses, index_walk, sample_uses, sample_walk};
ghost use Rattle.ft_image.specs.Passes.{HasMadeSteps};
ghost use Rattle.ft_desk.specs.Survey.{HasMarked};

use ft_image::{a_writer_steps_on, quarter};
use ft_retire::Births;
use ft_shared::{Shared, WriterPass};

/// A word at a place counted from a segment's first word, as it was last written: it may lie in
/// a segment behind it. Beyond the pool it is 0, without a step.
fn written(shared: &Shared, pass: &mut WriterPass, segment: u16, at: u16) -> u64
    requires same { pass.old.register ≡ shared.now }
    requires long { length pass.old.account.pool ≡ 256 * shared.now.sizes.segments }
    ensures word { result ≡ word_at pass.old.account.pool segment at }
    ensures on { HasMadeSteps pass.old pass.new }
{
    let place = u32::from(segment) + u32::from(at / 256);
    if place >= u32::from(shared.segments()) {
        return 0;
    }
    shared.read(pass, place as u16, (at % 256) as u8)
}

/// Marks a segment, where the pool has it.
fn keep(births: &mut Births, segments: u16, segment: u16)
    requires many { length births.old.marks ≡ segments }
    ensures { HasMarked births.old births.new (λ named. segment ≡ named) }
{
    if segment < segments {
        births.keep_segment(segment);
    }
}

/// Marks the segments of the first ids in a word, 0 to 4 of them.
fn keep_ids(births: &mut Births, segments: u16, word: u64, count: u8)
    requires many { length births.old.marks ≡ segments }
    requires few { count ≤ 4 }
    ensures { HasMarked births.old births.new
        (λ named. (i : ℕ) × (i < count) × (digit 65536 word i ≡ named)) }
{
    for i in 0..count {
        keep(births, segments, quarter(word, i));
    }
}

/// Marks an index, and the bodies that its first ids name by the words last written, up to 1,024
/// of them.
fn keep_index(shared: &Shared, pass: &mut WriterPass, births: &mut Births, index: u16, count: u16)
    requires same { pass.old.register ≡ shared.now }
    requires long { length pass.old.account.pool ≡ 256 * shared.now.sizes.segments }
    requires many { length births.old.marks ≡ shared.now.sizes.segments }
    requires few { count ≤ 1024 }
    ensures on { HasMadeSteps pass.old pass.new }
    ensures marked { HasMarked births.old births.new (λ named.
        1 ≤ index_uses named (index_walk pass.old.account.pool count index)) }
{
    a_writer_steps_on();
    let segments = shared.segments();
    keep(births, segments, index);
    for place in 0..count.div_ceil(4) {
        let word = written(shared, pass, index, place);
        keep_ids(births, segments, word, (count - 4 * place).min(4) as u8);
    }
}

/// Marks a root of a sample, and all that it names by the words last written: each index, and what
/// each index names. It reads the words that have the ids and the number of frames, and no others.
pub fn keep_root(shared: &Shared, pass: &mut WriterPass, births: &mut Births, root: u16)
    requires same { pass.old.register ≡ shared.now }
    requires long { length pass.old.account.pool ≡ 256 * shared.now.sizes.segments }
    requires many { length births.old.marks ≡ shared.now.sizes.segments }
    ensures on { HasMadeSteps pass.old pass.new }
    ensures marked { HasMarked births.old births.new (λ named.
        1 ≤ sample_uses named (sample_walk pass.old.account.pool root)) }
{
    a_writer_steps_on();
    keep(births, shared.segments(), root);
    let frames = (written(shared, pass, root, 0) % 4_294_967_296) as u32;
    let bodies = frames.div_ceil(1024);
    for k in 0..bodies.div_ceil(1024) {
        let word = written(shared, pass, root, (16 + k / 4) as u16);
        let index = quarter(word, (k % 4) as u8);
        keep_index(
            shared,
            pass,
            births,
            index,
            (bodies - 1024 * k).min(1024) as u16,
        );
    }
}
