//! Frames, changed in place.

ghost use Rattle.std.specs.Prelude.{◌≡◌, ◌≤◌, ◌<◌, ◌++◌, ◌*ℤ◌, false, All, FitsSigned, length, take, drop, map, reverse, pos, OnOk, OnErr};
ghost use Rattle.std.specs.Int.{w8};
ghost use Rattle.ft_edits.specs.Lists.{with_stretch};
ghost use Rattle.ft_edits.specs.Samples.{clamped, floor_of, scaled_frame};
ghost use Rattle.ft_check.specs.Changes.{with_width};

use ft_types::NoMemory;

/// Takes the frames from one up to another out.
pub(crate) fn cut(frames: &mut Vec<i16>, from: usize, to: usize)
    requires order { from ≤ to }
    requires there { to ≤ length frames.old.items }
    ensures { frames.new.items ≡ take from frames.old.items ++ drop to frames.old.items }
{
    let kept = frames.len() - (to - from);
    frames[from..].rotate_left(to - from);
    frames.truncate(kept);
}

/// Puts frames before one, which may be the end.
pub(crate) fn paste(frames: &mut Vec<i16>, at: usize, new: &[i16]) -> Result<(), NoMemory>
    requires { at ≤ length frames.old.items }
    ensures ok { OnOk result (frames.new.items
        ≡ take at frames.old.items ++ (new.now ++ drop at frames.old.items)) }
    ensures err { OnErr result (frames.new.items ≡ frames.old.items) }
{
    frames.extend_from_slice(new)?;
    frames[at..].rotate_right(new.len());
    Ok(())
}

/// Reverses the frames from one up to another.
pub(crate) fn turn(frames: &mut Vec<i16>, from: usize, to: usize)
    requires order { from ≤ to }
    requires there { to ≤ length frames.old.items }
    ensures { frames.new.items ≡ with_stretch from to reverse frames.old.items }
{
    frames[from..to].reverse();
}

/// A number brought into the range of 8 or 16 bits.
fn clamped(wide: bool, x: i64) -> i16
    ensures { result ≡ clamped wide x }
{
    if wide {
        x.min(32767).max(-32768) as i16
    } else {
        x.min(127).max(-128) as i16
    }
}

/// The product of a frame and a numerator.
fn product(x: i16, n: i16) -> i64
    ensures { result ≡ x *ℤ n }
{
    i64::from(x) * i64::from(n)
}

/// A quotient, rounded down.
fn quotient(x: i64, d: u16) -> i64
    requires { 0 < d }
    ensures { result ≡ floor_of x d }
{
    x.div_euclid(i64::from(d))
}

/// A frame times `n / d`, rounded down, in the range of its width.
fn scaled(wide: bool, n: i16, d: u16, x: i16) -> i16
    requires { 0 < d }
    ensures { result ≡ scaled_frame wide n d x }
{
    clamped(wide, quotient(product(x, n), d))
}

/// Each of some frames times `n / d`.
#[tactic(auto, using(std::proofs::lemmas::List::Edits::map_over_more))]
fn scale_all(frames: &mut [i16], wide: bool, n: i16, d: u16)
    requires { 0 < d }
    ensures { frames.new ≡ map (scaled_frame wide n d) frames.old }
{
    for frame in frames.iter_mut() {
        *frame = scaled(wide, n, d, *frame);
    }
}

/// The frames from one up to another times `n / d`.
pub(crate) fn scale(frames: &mut Vec<i16>, wide: bool, from: usize, to: usize, n: i16, d: u16)
    requires order { from ≤ to }
    requires there { to ≤ length frames.old.items }
    requires some { 0 < d }
    ensures { frames.new.items
        ≡ with_stretch from to (map (scaled_frame wide n d)) frames.old.items }
{
    scale_all(&mut frames[from..to], wide, n, d);
}

/// A frame of 8 bits in 16.
fn widened(x: i16) -> i16
    requires { FitsSigned w8 x }
    ensures { result ≡ pos 256 *ℤ x }
{
    x * 256
}

/// A frame of 16 bits in 8, rounded down.
fn narrowed(x: i16) -> i16
    ensures { result ≡ floor_of x 256 }
{
    x.div_euclid(256)
}

/// Each of some frames of 8 bits in 16.
#[tactic(auto, using(std::proofs::lemmas::List::Edits::map_over_more))]
fn widen_all(frames: &mut [i16])
    requires { All (FitsSigned w8) frames.old }
    ensures { frames.new ≡ map (λ frame. pos 256 *ℤ frame) frames.old }
{
    for frame in frames.iter_mut() {
        *frame = widened(*frame);
    }
}

/// Each of some frames of 16 bits in 8.
#[tactic(auto, using(std::proofs::lemmas::List::Edits::map_over_more))]
fn narrow_all(frames: &mut [i16])
    ensures { frames.new ≡ map (λ frame. floor_of frame 256) frames.old }
{
    for frame in frames.iter_mut() {
        *frame = narrowed(*frame);
    }
}

/// Gives frames of 8 bits, or of 16, that many bits.
pub(crate) fn set_width(frames: &mut Vec<i16>, wide: bool, b: u8)
    requires { wide ≡ false → All (FitsSigned w8) frames.old.items }
    ensures { frames.new.items ≡ with_width b wide frames.old.items }
{
    if b == 16 && !wide {
        widen_all(frames.as_mut_slice());
    }
    if b != 16 && wide {
        narrow_all(frames.as_mut_slice());
    }
}
