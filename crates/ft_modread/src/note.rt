//! The note of a period.

ghost use Rattle.std.specs.Prelude.{◌≡◌, ◌<◌, ◌≤◌};
ghost use Rattle.ft_modread.specs.Notes.{off_by, nearer, nearest_of, period_note};

use crate::layout::{FIRST_NOTE, PERIODS};

/// How far a period is from that of a note of the table.
fn off_by(period: u16, k: usize) -> u16
    requires { k < 36 }
    ensures { result ≡ off_by period k }
{
    period.abs_diff(PERIODS[k])
}

/// The one of two notes whose period is nearer, or the first.
fn nearer(period: u16, first: usize, second: usize) -> usize
    requires first { first < 36 }
    requires second { second < 36 }
    ensures value { result ≡ nearer period first second }
    ensures within { result < 36 }
{
    if off_by(period, second) < off_by(period, first) {
        second
    } else {
        first
    }
}

/// The first note of the table whose period is nearest.
#[tactic(auto, unfolding(crate::specs::Notes::nearest_of))]
fn nearest(period: u16) -> usize
    ensures value { result ≡ nearest_of period 35 }
    ensures within { result < 36 }
{
    let mut found = 0;
    for k in 1..36 {
        found = nearer(period, found, k);
    }
    found
}

/// The note of a period, 37 to 72; period 0 is no note.
pub fn note_of(period: u16) -> u8
    ensures value { result ≡ period_note period }
    ensures low { result ≤ 72 }
{
    if period == 0 {
        return 0;
    }
    FIRST_NOTE + nearest(period) as u8
}
