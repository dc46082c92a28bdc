//! What an edit makes of a frame.

ghost use Rattle.std.specs.Prelude.{◌≡◌, ◌<◌, ◌*ℤ◌, ℕ, false, pos, FitsSigned};
ghost use Rattle.std.specs.Int.{w8};
ghost use Rattle.ft_edits.specs.Samples.{clamped, floor_of, scaled_frame};
ghost use Rattle.ft_smpedit.specs.Sources.{HasNamedFrames, frame_changed};

use ft_types::Edit;

/// A number brought into the range of 8 or 16 bits.
fn clamped(wide: bool, x: i64) -> i16
    ensures { result ≡ clamped wide x }
{
    if wide {
        x.min(32767).max(-32768) as i16
    } else {
        x.min(127).max(-128) as i16
    }
}

/// The product of a frame and a numerator.
fn product(x: i16, n: i16) -> i64
    ensures { result ≡ x *ℤ n }
{
    i64::from(x) * i64::from(n)
}

/// A quotient, rounded down.
fn quotient(x: i64, d: u16) -> i64
    requires { 0 < d }
    ensures { result ≡ floor_of x d }
{
    x.div_euclid(i64::from(d))
}

/// A frame times `n / d`, rounded down, in the range of its width; 0 where `d` is 0.
fn scaled(wide: bool, n: i16, d: u16, x: i16) -> i16
    ensures { 0 < d → result ≡ scaled_frame wide n d x }
{
    if d == 0 {
        return 0;
    }
    clamped(wide, quotient(product(x, n), d))
}

/// A frame of 8 bits in 16. One that isn't of 8 bits stays.
fn widened(x: i16) -> i16
    ensures { FitsSigned w8 x → result ≡ pos 256 *ℤ x }
{
    if x < -128 || x > 127 {
        return x;
    }
    x * 256
}

/// A frame of 16 bits in 8, rounded down.
fn narrowed(x: i16) -> i16
    ensures { result ≡ floor_of x 256 }
{
    x.div_euclid(256)
}

/// What an edit makes of a frame of 8 bits, or of 16, that it changes.
pub fn value_of(e: &Edit, wide: bool, x: i16) -> i16
    ensures { (frames : ℕ) → HasNamedFrames frames e.now → (wide ≡ false → FitsSigned w8 x)
        → result ≡ frame_changed e.now wide x }
{
    match e {
        Edit::Scale { n, d, .. } => scaled(wide, *n, *d, x),
        Edit::Bits { b: 16, .. } => if wide { x } else { widened(x) },
        Edit::Bits { .. } => if wide { narrowed(x) } else { x },
        _ => x,
    }
}
