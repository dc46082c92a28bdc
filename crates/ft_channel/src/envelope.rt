//! Envelopes.

ghost use Rattle.std.specs.Prelude.{◌≡◌, ◌≤◌, ◌<◌, ◌+◌, ◌-◌, ◌*◌, ◌/◌, ℕ, Some};
ghost use Rattle.ft_types.specs.Valid.{IsValidEnvelope};
ghost use Rattle.ft_replay.specs.Envelopes as envelopes;
ghost use Rattle.ft_channel.specs.Points.{IsLastBy};

use ft_types::{Envelope, Point};

/// Whether an envelope is on: its bit is set, and it has a point.
pub fn is_on(env: &Envelope) -> bool
    ensures { result ≡ envelopes.is_on (Some env.now) }
{
    env.flags % 2 != 0 && env.count != 0
}

/// The last point in use that isn't past a position, counted from 0.
fn last_point(points: &[Point; 12], count: u8, position: u16) -> Option<u8>
    requires { count ≤ 12 }
    ensures value { result ≡ envelopes.last_by position points.now count }
    ensures found { (k : ℕ) → result ≡ Some k → IsLastBy position points.now count k }
{
    let mut last = None;
    for k in 0..count {
        if points[k as usize].x <= position {
            last = Some(k);
        }
    }
    last
}

/// A value that goes up on a straight line, rounded down.
fn risen(from: u32, rise: u32, gone: u32, width: u32) -> u32
    requires before { gone < width }
    requires few { width ≤ 65535 }
    requires low { from + rise ≤ 64 }
    ensures value { result ≡ from + rise * gone / width }
    ensures bounded { result ≤ 64 }
{
    from + rise * gone / width
}

/// A value that goes down on a straight line, rounded down.
fn fallen(from: u32, fall: u32, gone: u32, width: u32) -> u32
    requires before { gone < width }
    requires few { width ≤ 65535 }
    requires from { from ≤ 64 }
    requires fall { fall ≤ from }
    ensures value { result ≡ from - (fall * gone + width - 1) / width }
    ensures bounded { result ≤ 64 }
{
    from - (fall * gone + width - 1) / width
}

/// The value on the straight line from one point to a later one, rounded down: 0 to 64.
fn on_line(from: Point, to: Point, position: u16) -> u8
    requires begun { from.x ≤ position }
    requires before { position < to.x }
    requires far { to.x ≤ 65535 }
    requires from { from.y ≤ 64 }
    requires to { to.y ≤ 64 }
    ensures value { result ≡ envelopes.on_line from to position }
    ensures bounded { result ≤ 64 }
{
    let width = u32::from(to.x - from.x);
    let gone = u32::from(position - from.x);
    let start = u32::from(from.y);
    if from.y <= to.y {
        return risen(start, u32::from(to.y - from.y), gone, width) as u8;
    }
    fallen(start, u32::from(from.y - to.y), gone, width) as u8
}

/// The value of an envelope at a position in ticks, 0 to 64, by its points, whether it is on or not.
///
/// Before its points it is that of the first, after those in use that of the last, and on the
/// straight line between them, rounded down.
#[tactic(auto, unfolding(ft_replay::specs::Envelopes::envelope_value))]
pub fn envelope_at(env: &Envelope, pos: u16) -> u8
    requires { IsValidEnvelope env.now }
    ensures value { result ≡ envelopes.envelope_value env.now pos }
    ensures bounded { result ≤ 64 }
{
    let Some(k) = last_point(&env.points, env.count, pos) else {
        return env.points[0].y as u8;
    };
    if k + 1 == env.count {
        return env.points[k as usize].y as u8;
    }
    on_line(env.points[k as usize], env.points[k as usize + 1], pos)
}

/// The next position of an envelope that is on.
#[tactic(auto, unfolding(ft_replay::specs::Envelopes::envelope_next))]
pub fn envelope_next(env: &Envelope, released: bool, pos: u16) -> u16
    requires valid { IsValidEnvelope env.now }
    requires some { 1 ≤ env.now.count }
    ensures { result ≡ envelopes.envelope_next env.now released pos }
{
    let holds = env.flags / 2 % 2 != 0 && !released;
    if holds && pos == env.points[env.sustain as usize].x {
        return pos;
    }
    if env.flags / 4 % 2 != 0 && pos == env.points[env.loop_end as usize].x {
        return env.points[env.loop_start as usize].x;
    }
    if env.points[env.count as usize - 1].x <= pos {
        return pos;
    }
    pos + 1
}
