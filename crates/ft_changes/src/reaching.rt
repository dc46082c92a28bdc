//! The parts that an edit touches, found by the sizes of a song.

ghost use Rattle.std.specs.Prelude.{◌≡◌, ◌≤◌, ◌+◌, ◌-◌, ◌*◌, ◌/◌, ℕ, None};
ghost use Rattle.ft_types.specs.declared.module.Module.{Module};
ghost use Rattle.ft_types.specs.Blocks.{pieces_of};
ghost use Rattle.ft_types.specs.Edits.{IsGivable};
ghost use Rattle.ft_edits.specs.Faults.{fault_of};
ghost use Rattle.ft_edits.specs.Groups.{group_of};
ghost use Rattle.ft_edits.specs.Sizes.{song_sizes};
ghost use Rattle.ft_changes.specs.Reaches.{reach_of, needed, whole_pattern, frames_between, frames_from};

use crate::reach::Reach;
use ft_edits::{Group, SizeView, SongSizes, group_of};
use ft_types::Edit;

/// Bodies of the cells of so many rows.
fn cell_bodies(rows: u16, channels: u8) -> u32
    ensures { result ≡ pieces_of (rows * channels) 256 }
{
    (u32::from(rows) * u32::from(channels) + 255) / 256
}

/// A count in pieces of 1,024.
fn thousands(count: u32) -> u32
    ensures { result ≡ pieces_of count 1024 }
{
    count / 1024 + u32::from(count % 1024 != 0)
}

/// An instrument by its place; they count from 1 in edits.
fn place(i: u8) -> u16
    ensures { result ≡ i - 1 }
{
    u16::from(i).saturating_sub(1)
}

/// What an edit of a pattern touches.
fn pattern_reach<S: SizeView>(view: &mut S, song: SongSizes, e: &Edit) -> Reach
    requires group { group_of e.now ≡ Group.Patterns }
    ensures narrows { (m : Module) → S.may_show view.new m → S.may_show view.old m }
    ensures answer { (m : Module) → S.may_show view.new m → song ≡ song_sizes m
        → result ≡ reach_of m e.now }
    ensures same { S.same view.old view.new }
{
    let (p, rows) = match *e {
        Edit::Cell { p, r, c, .. } => {
            let place = u32::from(r) * u32::from(song.channels) + u32::from(c);
            return Reach::Cell {
                pattern: u16::from(p),
                body: place / 256,
            };
        }
        Edit::Rows { p, n } => (p, n),
        Edit::Insrow { p, .. }
        | Edit::Delrow { p, .. }
        | Edit::Clear { p, .. }
        | Edit::Transpose { p, .. }
        | Edit::Copy { q: p, .. } => (p, view.rows(p)),
        _ => return Reach::Song,
    };
    Reach::Pattern {
        pattern: u16::from(p),
        bodies: cell_bodies(rows, song.channels),
    }
}

/// What an edit of the song as a whole touches.
fn song_reach(song: SongSizes, e: &Edit) -> Reach
    requires group { group_of e.now ≡ Group.Song }
    ensures { (m : Module) → song ≡ song_sizes m → result ≡ reach_of m e.now }
{
    match *e {
        Edit::Newpat { n } => Reach::Pattern {
            pattern: song.patterns,
            bodies: cell_bodies(n, song.channels),
        },
        Edit::Delpat => Reach::LastPattern,
        _ => Reach::Song,
    }
}

/// What an edit of an instrument touches.
fn instrument_reach(song: SongSizes, e: &Edit) -> Reach
    requires group { group_of e.now ≡ Group.Instruments }
    ensures { (m : Module) → song ≡ song_sizes m → result ≡ reach_of m e.now }
{
    match *e {
        Edit::Newins => Reach::Bare {
            at: song.instruments,
        },
        Edit::Clearins { i } => Reach::Bare { at: place(i) },
        Edit::Insname { i, .. }
        | Edit::Map { i, .. }
        | Edit::Env { i, .. }
        | Edit::Point { i, .. }
        | Edit::Vib { i, .. }
        | Edit::Fade { i, .. } => Reach::Instrument { at: place(i) },
        _ => Reach::Song,
    }
}

/// What an edit of samples touches.
fn sample_reach<S: SizeView>(view: &mut S, e: &Edit) -> Reach
    requires group { group_of e.now ≡ Group.Samples }
    ensures narrows { (m : Module) → S.may_show view.new m → S.may_show view.old m }
    ensures answer { (m : Module) → S.may_show view.new m → result ≡ reach_of m e.now }
    ensures same { S.same view.old view.new }
{
    match *e {
        Edit::Newsmp { i } => Reach::Sample {
            at: place(i),
            sample: view.sample(i, 0).samples,
        },
        Edit::Delsmp { i } => Reach::LastSample { at: place(i) },
        Edit::Smpname { i, s, .. } | Edit::Smp { i, s, .. } | Edit::Loop { i, s, .. } => {
            Reach::Sample {
                at: place(i),
                sample: s,
            }
        }
        _ => Reach::Song,
    }
}

/// All frames from one on, in a sample that had so many frames and now has so many.
fn frames_from(i: u8, s: u8, from: u32, before: u32, now: u32) -> Reach
    ensures { result ≡ frames_from i s from before now }
{
    Reach::Frames {
        at: place(i),
        sample: s,
        first: from / 1024,
        last: thousands(now),
        gone: thousands(before),
    }
}

/// The frames from one up to another, which stay as many.
fn frames_between(i: u8, s: u8, from: u32, to: u32) -> Reach
    ensures { result ≡ frames_between i s from to }
{
    if from == to {
        return Reach::Sample {
            at: place(i),
            sample: s,
        };
    }
    Reach::Frames {
        at: place(i),
        sample: s,
        first: from / 1024,
        last: thousands(to),
        gone: thousands(to),
    }
}

/// What an edit of frames touches.
fn frames_reach<S: SizeView>(view: &mut S, e: &Edit) -> Reach
    requires group { group_of e.now ≡ Group.Frames }
    requires givable { IsGivable e.now }
    ensures narrows { (m : Module) → S.may_show view.new m → S.may_show view.old m }
    ensures answer { (m : Module) → S.may_show view.new m → result ≡ reach_of m e.now }
    ensures same { S.same view.old view.new }
{
    match e {
        Edit::Cut { i, s, from, to } => {
            let frames = view.sample(*i, *s).frames;
            let now = frames.saturating_sub(to.saturating_sub(*from));
            frames_from(*i, *s, *from, frames, now)
        }
        Edit::Paste {
            i,
            s,
            at,
            frames: new,
        } => {
            let frames = view.sample(*i, *s).frames;
            let now = frames + new.as_slice().len() as u32;
            frames_from(*i, *s, *at, frames, now)
        }
        Edit::Reverse { i, s, from, to } | Edit::Scale { i, s, from, to, .. } => {
            frames_between(*i, *s, *from, *to)
        }
        Edit::Bits { i, s, .. } => {
            let frames = view.sample(*i, *s).frames;
            frames_from(*i, *s, 0, frames, frames)
        }
        _ => Reach::Song,
    }
}

/// The parts that an edit touches of the song that a view shows, where it isn't refused. It takes
/// no memory.
pub fn reach_of<S: SizeView>(view: &mut S, e: &Edit) -> Reach
    requires givable { IsGivable e.now }
    ensures narrows { (m : Module) → S.may_show view.new m → S.may_show view.old m }
    ensures answer { (m : Module) → S.may_show view.new m → result ≡ reach_of m e.now }
    ensures same { S.same view.old view.new }
{
    let song = view.song();
    match group_of(e) {
        Group::Patterns => pattern_reach(view, song, e),
        Group::Song => song_reach(song, e),
        Group::Instruments => instrument_reach(song, e),
        Group::Samples => sample_reach(view, e),
        Group::Frames => frames_reach(view, e),
    }
}

/// How many segments an edit that reaches so far fills.
pub fn needed(reach: Reach) -> u64
    ensures { result ≡ needed reach }
{
    match reach {
        Reach::Song | Reach::LastPattern => 1,
        Reach::Cell { .. } | Reach::Sample { .. } => 3,
        Reach::Pattern { bodies, .. } => u64::from(bodies) + 2,
        Reach::Instrument { .. } | Reach::Bare { .. } | Reach::LastSample { .. } => 2,
        Reach::Frames { first, last, .. } => {
            let indexes = thousands(last).saturating_sub(first / 1024);
            3 + u64::from(indexes) + u64::from(last.saturating_sub(first))
        }
    }
}
