//! Frequencies of periods, and the steps of voices.

ghost use Rattle.std.specs.Prelude.{◌≡◌, ◌≤◌, ◌<◌, ◌*◌, ◌/◌, ◌^◌, true, slice_index};
ghost use Rattle.ft_types.specs.Limits.{lowest_rate, highest_period};
ghost use Rattle.ft_tables.specs.Pitch as pitch;

/// The powers of two by twelfths of an octave, of 65,536.
const TWELFTHS: [u32; 13] = [
    65536, 69433, 73562, 77936, 82570, 87480, 92682, 98193, 104032, 110218, 116772, 123715, 131072,
];

/// The power of two at one of the 768 parts of an octave, of 65,536.
#[tactic(auto, unfolding(crate::specs::Pitch::power_at))]
fn power_at(part: u32) -> u32
    requires { part ≤ 767 }
    ensures value { result ≡ pitch.power_at part }
    ensures bounded { result ≤ 131072 }
{
    let twelfth = (part / 64) as usize;
    let low = TWELFTHS[twelfth];
    low + (TWELFTHS[twelfth + 1] - low) * (part % 64) / 64
}

/// The frequency of a linear period, of 65,536 a hertz.
///
/// Octaves are counted from 36 below the one of 8,363 Hz, so that none is negative.
fn linear_frequency(period: u16) -> u64
    requires some { 1 ≤ period }
    requires playable { period ≤ highest_period }
    ensures value { result ≡ pitch.linear_frequency_of period }
    ensures bounded { result < 2 ^ 36 }
{
    let up = 4608 + 36 * 768 - u32::from(period);
    let power = 8363 * u128::from(power_at(up % 768));
    ((power << (up / 768)) >> 36) as u64
}

/// The frequency of an Amiga period, of 65,536 a hertz.
#[tactic(auto, unfolding(crate::specs::Pitch::amiga_frequency_of))]
fn amiga_frequency(period: u16) -> u64
    requires { 1 ≤ period }
    ensures value { result ≡ pitch.amiga_frequency_of period }
    ensures bounded { result ≤ 8363 * 1712 * 65536 }
{
    8363 * 1712 * 65536 / u64::from(period)
}

/// The frequency of a period from 1 to 31,999, of 65,536 a hertz.
///
/// It is below 2^36 for linear periods, and highest for the Amiga period 1.
#[tactic(auto, unfolding(crate::specs::Pitch::frequency16_of))]
pub fn frequency16(linear: bool, period: u16) -> u64
    requires some { 1 ≤ period }
    requires playable { period ≤ highest_period }
    ensures value { result ≡ pitch.frequency16_of linear period }
    ensures bounded { result ≤ 8363 * 1712 * 65536 }
    ensures by_linear { linear ≡ true → result < 2 ^ 36 }
{
    if linear {
        linear_frequency(period)
    } else {
        amiga_frequency(period)
    }
}

/// The power of two of that many twelfths of an octave, 0 to 12, of 65,536.
fn twelfth(semitones: u8) -> u32
    requires { semitones ≤ 12 }
    ensures value { result ≡ slice_index pitch.twelfths semitones }
    ensures low { 65536 ≤ result }
{
    TWELFTHS[usize::from(semitones)]
}

/// A period divided by a power of two from 1 on, of 65,536.
fn divided(period: u16, power: u32) -> u16
    requires { 65536 ≤ power }
    ensures value { result ≡ period * 65536 / power }
    ensures bounded { result ≤ period }
{
    (u32::from(period) * 65536 / power) as u16
}

/// The Amiga period that is that many semitones higher, 0 to 24; from an octave on it is halved
/// first.
#[tactic(auto, unfolding(crate::specs::Pitch::amiga_higher))]
pub fn amiga_higher(semitones: u8, period: u16) -> u16
    requires { semitones ≤ 24 }
    ensures value { result ≡ pitch.amiga_higher semitones period }
    ensures bounded { result ≤ period }
{
    if semitones < 12 {
        return divided(period, twelfth(semitones));
    }
    divided(period / 2, twelfth(semitones - 12))
}

/// The frames of a sample for each frame of output, with 32 bits of fraction.
///
/// `rate` is at least 8,000 frames a second, and `period` 1 to 31,999.
#[tactic(auto, unfolding(crate::specs::Pitch::step_of))]
pub fn step_of(linear: bool, rate: u32, period: u16) -> u64
    requires rate { lowest_rate ≤ rate }
    requires some { 1 ≤ period }
    requires playable { period ≤ highest_period }
    ensures value { result ≡ pitch.step_of linear rate period }
    ensures bounded { result < 2 ^ 43 }
{
    frequency16(linear, period) * 65536 / u64::from(rate)
}
