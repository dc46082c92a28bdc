//! Edits of an instrument, done in place.

ghost use Rattle.std.specs.Prelude.{◌≡◌, ◌≤◌, ◌<◌, ◌+◌, [], set, length, OnOk, OnErr};
ghost use Rattle.ft_types.specs.Valid.{IsValid, IsValidInstrument, IsValidEnvelope};
ghost use Rattle.ft_edits.specs.Instruments.{with_instrument, zero_envelope, named_only, with_map, with_envelope};
ghost use Rattle.ft_edits.specs.Samples.{new_sample, with_new_sample, without_sample};
ghost use Rattle.ft_edits.specs.Lists.{without_last};
ghost use Rattle.ft_edits.specs.Allowed.{Allows};
ghost use Rattle.ft_edits.specs.Changes.{envelope_changed, instrument_changed};
ghost use Rattle.ft_edits.specs.Edited.{edited};
ghost use Rattle.ft_edits.specs.Groups.{group_of};
ghost use Rattle.ft_check.specs.Changes.{SuitsInstrument};

use ft_edits::Group;
use ft_types::{
    Edit, Envelope, Frames, Instrument, Module, NoMemory, Point, Sample, Samples, Vibrato,
};
use std::alloc::Global;

/// An envelope that is all 0.
const ZERO_ENVELOPE: Envelope = Envelope {
    points: [Point { x: 0, y: 0 }; 12],
    count: 0,
    sustain: 0,
    loop_start: 0,
    loop_end: 0,
    flags: 0,
};

/// An instrument that says nothing but its name. No memory is taken.
pub(crate) fn named_only(alloc: Global, name: [u8; 22]) -> Instrument
    ensures { result ≡ named_only name }
{
    Instrument {
        name,
        map: [0; 96],
        volume: ZERO_ENVELOPE,
        panning: ZERO_ENVELOPE,
        vibrato: Vibrato {
            kind: 0,
            sweep: 0,
            depth: 0,
            rate: 0,
        },
        fadeout: 0,
        samples: Samples::new(alloc),
    }
}

/// A sample without frames. No memory is taken.
fn new_sample(alloc: Global) -> Sample
    ensures { result ≡ new_sample }
{
    Sample {
        name: [0; 22],
        volume: 64,
        finetune: 0,
        relative: 0,
        panning: 128,
        wide: false,
        loop_kind: 0,
        loop_start: 0,
        loop_len: 0,
        frames: Frames::new(alloc),
    }
}

/// Changes an envelope.
fn change_envelope(envelope: &mut Envelope, e: &Edit)
    requires valid { IsValidEnvelope envelope.old }
    requires there { SuitsInstrument e.now }
    ensures { envelope.new ≡ envelope_changed e.now envelope.old }
{
    match *e {
        Edit::Env {
            count,
            sus,
            ls,
            le,
            flags,
            ..
        } => {
            envelope.count = count;
            envelope.sustain = sus;
            envelope.loop_start = ls;
            envelope.loop_end = le;
            envelope.flags = flags;
        }
        Edit::Point { k, x, y, .. } => {
            envelope.points[k as usize] = Point { x, y: u16::from(y) };
        }
        _ => {}
    }
}

/// Takes the last sample out, and with the only one all but the name.
fn remove_sample(alloc: Global, instrument: &mut Instrument)
    ensures { instrument.new ≡ without_sample instrument.old }
{
    if instrument.samples.len() <= 1 {
        *instrument = named_only(alloc, instrument.name);
        return;
    }
    let last = instrument.samples.len() - 1;
    let _gone = instrument.samples.remove(last);
}

/// Changes an instrument.
fn change(alloc: Global, instrument: &mut Instrument, e: &Edit) -> Result<(), NoMemory>
    requires valid { IsValidInstrument instrument.old }
    requires there { SuitsInstrument e.now }
    ensures ok { OnOk result (instrument.new ≡ instrument_changed e.now instrument.old) }
    ensures err { OnErr result (instrument.new ≡ instrument.old) }
{
    match *e {
        Edit::Clearins { .. } => *instrument = named_only(alloc, [0; 22]),
        Edit::Insname { name, .. } => instrument.name = name,
        Edit::Map { n, k, .. } => instrument.map[n as usize] = k,
        Edit::Env { w, .. } | Edit::Point { w, .. } => {
            if w == 0 {
                change_envelope(&mut instrument.volume, e);
            } else {
                change_envelope(&mut instrument.panning, e);
            }
        }
        Edit::Vib {
            kind,
            sweep,
            depth,
            rate,
            ..
        } => instrument.vibrato = Vibrato {
            kind,
            sweep,
            depth,
            rate,
        },
        Edit::Fade { n, .. } => instrument.fadeout = n,
        Edit::Newsmp { .. } => instrument.samples.push(new_sample(alloc))?,
        Edit::Delsmp { .. } => remove_sample(alloc, instrument),
        _ => {}
    }
    Ok(())
}

/// Changes an instrument of the song; they count from 1.
#[inline(never)]
pub(crate) fn change_instrument(
    alloc: Global,
    m: &mut Module,
    i: u8,
    e: &Edit,
) -> Result<(), NoMemory>
    requires valid { IsValid m.old }
    requires there { SuitsInstrument e.now }
    ensures ok { OnOk result (m.new ≡ with_instrument i (instrument_changed e.now) m.old) }
    ensures err { OnErr result (m.new ≡ m.old) }
{
    match m.instruments.get_mut(usize::from(i).saturating_sub(1)) {
        Some(instrument) => change(alloc, instrument, e),
        None => Ok(()),
    }
}

/// Does an edit of an instrument.
pub(crate) fn do_instrument_edit(alloc: Global, m: &mut Module, e: &Edit) -> Result<(), NoMemory>
    requires group { group_of e.now ≡ Group.Instruments }
    requires valid { IsValid m.old }
    requires there { Allows m.old e.now }
    ensures ok { OnOk result (m.new ≡ edited m.old e.now) }
    ensures err { OnErr result (m.new ≡ m.old) }
{
    match *e {
        Edit::Newins => m.instruments.push(named_only(alloc, [0; 22])),
        Edit::Clearins { i }
        | Edit::Insname { i, .. }
        | Edit::Map { i, .. }
        | Edit::Env { i, .. }
        | Edit::Point { i, .. }
        | Edit::Vib { i, .. }
        | Edit::Fade { i, .. } => change_instrument(alloc, m, i, e),
        _ => Ok(()),
    }
}
