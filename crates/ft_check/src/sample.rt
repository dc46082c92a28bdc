//! Edits of samples and their frames, done in place.

ghost use Rattle.std.specs.Prelude.{◌≡◌, ◌≤◌, ◌<◌, false, All, FitsSigned, length, slice_get, OnOk, OnErr};
ghost use Rattle.std.specs.Int.{w8};
ghost use Rattle.ft_types.specs.Edits.{IsGivable};
ghost use Rattle.ft_types.specs.Valid.{IsValid, IsValidInstrument, IsValidSample};
ghost use Rattle.ft_edits.specs.Allowed.{Allows};
ghost use Rattle.ft_edits.specs.Changes.{sample_changed};
ghost use Rattle.ft_edits.specs.Edited.{edited};
ghost use Rattle.ft_edits.specs.Faults.{sample_length, frames_at};
ghost use Rattle.ft_edits.specs.Groups.{group_of};
ghost use Rattle.ft_edits.specs.Samples.{with_sample, with_loop, with_frames, refitted};
ghost use Rattle.ft_check.specs.Changes.{sample_in_changed, frames_changed, SuitsFrames};

use crate::frames::{cut, paste, scale, set_width, turn};
use crate::instrument::change_instrument;
use ft_edits::Group;
use ft_types::{Edit, Frames, Instrument, Module, NoMemory, Sample};
use std::alloc::Global;
use std::mem;

/// Sets the loop.
fn set_loop(sample: &mut Sample, kind: u8, start: u32, len: u32)
    ensures { sample.new ≡ with_loop kind start len sample.old }
{
    sample.loop_kind = kind;
    sample.loop_start = if kind == 0 { 0 } else { start };
    sample.loop_len = if kind == 0 { 0 } else { len };
}

/// Brings the loop into the frames.
fn refit(sample: &mut Sample)
    ensures { sample.new ≡ refitted sample.old }
{
    let frames = sample.frames.len();
    let start = frames.min(sample.loop_start as usize);
    let len = (frames - start).min(sample.loop_len as usize);
    let kind = if len == 0 { 0 } else { sample.loop_kind };
    set_loop(sample, kind, start as u32, len as u32);
}

/// Changes the frames of a sample.
fn change_frames(alloc: Global, sample: &mut Sample, e: &Edit) -> Result<(), NoMemory>
    requires valid { IsValidSample sample.old }
    requires there { SuitsFrames (length sample.old.frames) e.now }
    ensures ok { OnOk result
        (sample.new ≡ with_frames (frames_changed sample.old.wide e.now) sample.old) }
    ensures err { OnErr result (sample.new ≡ sample.old) }
{
    let wide = sample.wide;
    let mut frames = mem::replace(&mut sample.frames, Frames::new(alloc)).into_vec();
    let done = change_vec(&mut frames, wide, e);
    sample.frames = Frames::from_vec(frames);
    done
}

/// Changes the frames of a sample of 8 bits, or of 16.
fn change_vec(frames: &mut Vec<i16>, wide: bool, e: &Edit) -> Result<(), NoMemory>
    requires there { SuitsFrames (length frames.old.items) e.now }
    requires narrow { wide ≡ false → All (FitsSigned w8) frames.old.items }
    ensures ok { OnOk result (frames.new.items ≡ frames_changed wide e.now frames.old.items) }
    ensures err { OnErr result (frames.new.items ≡ frames.old.items) }
{
    match e {
        Edit::Cut { from, to, .. } => cut(frames, *from as usize, *to as usize),
        Edit::Paste {
            at,
            frames: new,
            ..
        } => paste(frames, *at as usize, new.as_slice())?,
        Edit::Reverse { from, to, .. } => turn(frames, *from as usize, *to as usize),
        Edit::Scale { from, to, n, d, .. } => {
            scale(frames, wide, *from as usize, *to as usize, *n, *d);
        }
        Edit::Bits { b, .. } => set_width(frames, wide, *b),
        _ => {}
    }
    Ok(())
}

/// Changes a sample.
fn change(alloc: Global, sample: &mut Sample, e: &Edit) -> Result<(), NoMemory>
    requires valid { IsValidSample sample.old }
    requires there { SuitsFrames (length sample.old.frames) e.now }
    ensures ok { OnOk result (sample.new ≡ sample_changed e.now sample.old) }
    ensures err { OnErr result (sample.new ≡ sample.old) }
{
    match *e {
        Edit::Smpname { name, .. } => sample.name = name,
        Edit::Smp {
            vol,
            fine,
            rel,
            pan,
            ..
        } => {
            sample.volume = vol;
            sample.finetune = fine;
            sample.relative = rel;
            sample.panning = pan;
        }
        Edit::Loop {
            kind,
            start,
            len,
            ..
        } => set_loop(sample, kind, start, len),
        Edit::Cut { .. } | Edit::Paste { .. } => {
            change_frames(alloc, sample, e)?;
            refit(sample);
        }
        Edit::Reverse { .. } | Edit::Scale { .. } => change_frames(alloc, sample, e)?,
        Edit::Bits { b, .. } => {
            change_frames(alloc, sample, e)?;
            sample.wide = b == 16;
        }
        _ => {}
    }
    Ok(())
}

/// Changes a sample of an instrument.
fn change_in(alloc: Global, instrument: &mut Instrument, s: u8, e: &Edit) -> Result<(), NoMemory>
    requires valid { IsValidInstrument instrument.old }
    requires there { SuitsFrames (sample_length (slice_get instrument.old.samples s)) e.now }
    ensures ok { OnOk result
        (instrument.new ≡ sample_in_changed s (sample_changed e.now) instrument.old) }
    ensures err { OnErr result (instrument.new ≡ instrument.old) }
{
    match instrument.samples.get_mut(usize::from(s)) {
        Some(sample) => change(alloc, sample, e),
        None => Ok(()),
    }
}

/// Changes a sample of the song.
#[inline(never)]
fn change_sample(alloc: Global, m: &mut Module, i: u8, s: u8, e: &Edit) -> Result<(), NoMemory>
    requires valid { IsValid m.old }
    requires some { 0 < i }
    requires there { SuitsFrames (frames_at m.old i s) e.now }
    ensures ok { OnOk result (m.new ≡ with_sample i s (sample_changed e.now) m.old) }
    ensures err { OnErr result (m.new ≡ m.old) }
{
    match m.instruments.get_mut(usize::from(i) - 1) {
        Some(instrument) => change_in(alloc, instrument, s, e),
        None => Ok(()),
    }
}

/// Does an edit of samples.
pub(crate) fn do_sample_edit(alloc: Global, m: &mut Module, e: &Edit) -> Result<(), NoMemory>
    requires group { group_of e.now ≡ Group.Samples }
    requires valid { IsValid m.old }
    requires there { Allows m.old e.now }
    ensures ok { OnOk result (m.new ≡ edited m.old e.now) }
    ensures err { OnErr result (m.new ≡ m.old) }
{
    match *e {
        Edit::Newsmp { i } | Edit::Delsmp { i } => change_instrument(alloc, m, i, e),
        Edit::Smpname { i, s, .. } | Edit::Smp { i, s, .. } | Edit::Loop { i, s, .. } => {
            change_sample(alloc, m, i, s, e)
        }
        _ => Ok(()),
    }
}

/// Does an edit of the frames of a sample.
pub(crate) fn do_frame_edit(alloc: Global, m: &mut Module, e: &Edit) -> Result<(), NoMemory>
    requires group { group_of e.now ≡ Group.Frames }
    requires valid { IsValid m.old }
    requires there { Allows m.old e.now }
    requires givable { IsGivable e.now }
    ensures ok { OnOk result (m.new ≡ edited m.old e.now) }
    ensures err { OnErr result (m.new ≡ m.old) }
{
    match *e {
        Edit::Cut { i, s, .. }
        | Edit::Paste { i, s, .. }
        | Edit::Reverse { i, s, .. }
        | Edit::Scale { i, s, .. }
        | Edit::Bits { i, s, .. } => change_sample(alloc, m, i, s, e),
        _ => Ok(()),
    }
}
