//! Notes and their periods.

ghost use Rattle.std.specs.Prelude.{◌≡◌, ◌≤◌, ◌+◌, ◌-◌, ◌*◌, ◌/◌, ◌≤ℤ◌, pos, negsuc};
ghost use Rattle.ft_tables.specs.Pitch as pitch;

/// The Amiga periods of the twelve notes of an octave.
const AMIGA_OCTAVE: [u16; 12] = [856, 808, 762, 720, 678, 640, 604, 570, 538, 508, 480, 453];

/// The note that is played for a note of a pattern: 48 is C-4. It may be negative.
///
/// `note` is 1 to 96, and `relative` the sample's relative note in semitones.
pub fn played_note(note: u8, relative: i8) -> i16
    ensures { result ≡ pitch.played_note note relative }
{
    i16::from(note) - 1 + i16::from(relative)
}

/// Half of a finetune, rounded down.
fn half_down(finetune: i8) -> i8
    ensures value { result ≡ pitch.floor_div finetune 2 }
    ensures low { negsuc 63 ≤ℤ result }
    ensures high { result ≤ℤ pos 63 }
{
    finetune >> 1
}

/// The linear period of a note from 0 to 118, with a finetune in 1/128 semitone: 65 to 7,744.
#[tactic(auto, unfolding(crate::specs::Pitch::linear_period_of))]
pub fn linear_period(note: u8, finetune: i8) -> u16
    requires { note ≤ 118 }
    ensures value { result ≡ pitch.linear_period_of note finetune }
    ensures low { 65 ≤ result }
    ensures high { result ≤ 7744 }
{
    (7680 - 64 * i32::from(note) - i32::from(half_down(finetune))) as u16
}

/// The Amiga period of a note from 0 to 119, without finetune.
#[tactic(auto, using(crate::proofs::Amiga::lowest))]
fn amiga_note(note: u8) -> u32
    requires { note ≤ 119 }
    ensures value { result ≡ pitch.amiga_note note }
    ensures low { 28 ≤ result }
    ensures high { result ≤ 28992 }
{
    u32::from(AMIGA_OCTAVE[usize::from(note % 12)]) * 32 >> (note / 12)
}

/// That of the note before.
fn amiga_before(note: u8) -> u32
    requires { note ≤ 119 }
    ensures value { result ≡ pitch.amiga_before note }
    ensures high { result ≤ 28992 }
{
    if note == 0 {
        return 28992;
    }
    amiga_note(note - 1)
}

/// The period at that many of 128 parts of the way from one down to a lower one.
fn part_down(from: u32, to: u32, parts: u32) -> u32
    requires falls { to ≤ from }
    requires few { from ≤ 28992 }
    requires parts { parts ≤ 128 }
    ensures value { result ≡ from - (from - to) * parts / 128 }
    ensures low { to ≤ result }
    ensures high { result ≤ from }
{
    from - (from - to) * parts / 128
}

/// The period at that many of 128 parts of the way from one up to a higher one.
fn part_up(from: u32, to: u32, parts: u32) -> u32
    requires rises { from ≤ to }
    requires few { to ≤ 28992 }
    requires parts { parts ≤ 128 }
    ensures value { result ≡ from + (to - from) * parts / 128 }
    ensures low { from ≤ result }
    ensures high { result ≤ to }
{
    from + (to - from) * parts / 128
}

/// The Amiga period of a note from 0 to 118, with a finetune in 1/128 semitone: 28 to 28,992.
pub fn amiga_period(note: u8, finetune: i8) -> u16
    requires { note ≤ 118 }
    ensures value { result ≡ pitch.amiga_period_of note finetune }
    ensures low { 28 ≤ result }
    ensures high { result ≤ 28992 }
{
    let here = amiga_note(note);
    let parts = u32::from(finetune.unsigned_abs());
    if finetune >= 0 {
        part_down(here, amiga_note(note + 1), parts) as u16
    } else {
        part_up(here, amiga_before(note), parts) as u16
    }
}

/// The period of a note from 0 to 118, of the kind that the song has.
pub fn period(linear: bool, note: u8, finetune: i8) -> u16
    requires { note ≤ 118 }
    ensures value { result ≡ pitch.period_of linear note finetune }
    ensures low { 28 ≤ result }
    ensures high { result ≤ 28992 }
{
    if linear {
        linear_period(note, finetune)
    } else {
        amiga_period(note, finetune)
    }
}
