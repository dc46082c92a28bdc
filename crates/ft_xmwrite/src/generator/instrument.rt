//! Instruments of a generated song.

ghost use Rattle.std.specs.Prelude.{◌≡◌, [], ◌∷◌, IfOk};
ghost use Rattle.ft_xmwrite.specs.Generate.{drawn_frame, drawn_sample, drawn_instrument, drawn};

use crate::generator::draws::Draws;
use ft_format::{NO_ENVELOPE, NO_VIBRATO};
use ft_types::{Frames, Instrument, Instruments, NoMemory, Sample, Samples};
use std::alloc::Global;

/// Frames of a sample.
const FRAMES: u32 = 16_384;

const INSTRUMENTS: usize = 16;

#[tactic(auto, unfolding(crate::specs::Generate::drawn_frame))]
fn frame(draws: &mut Draws) -> i16
    ensures value { result ≡ (drawn_frame draws.old).0 }
    ensures state { draws.new ≡ (drawn_frame draws.old).1 }
{
    (draws.draw(65536) as i32 - 32768) as i16
}

fn frames(alloc: Global, draws: &mut Draws) -> Result<Vec<i16>, NoMemory>
    ensures value { IfOk result (λ frames. frames.items ≡ (drawn 16384 drawn_frame draws.old).0) }
    ensures state { IfOk result (λ _. draws.new ≡ (drawn 16384 drawn_frame draws.old).1) }
{
    let mut frames = Vec::with_capacity(alloc, FRAMES as usize)?;
    for _ in 0..FRAMES {
        frames.push_reserved(frame(draws));
    }
    Ok(frames)
}

#[tactic(auto, unfolding(crate::specs::Generate::drawn_sample))]
fn sample(alloc: Global, draws: &mut Draws) -> Result<Sample, NoMemory>
    ensures value { IfOk result (λ sample. sample ≡ (drawn_sample draws.old).0) }
    ensures state { IfOk result (λ _. draws.new ≡ (drawn_sample draws.old).1) }
{
    let panning = draws.draw(256) as u8;
    let frames = frames(alloc, draws)?;
    Ok(Sample {
        name: [0; 22],
        volume: 32,
        finetune: 0,
        relative: 0,
        panning,
        wide: true,
        loop_kind: 1,
        loop_start: 0,
        loop_len: FRAMES,
        frames: Frames::from_vec(frames),
    })
}

/// The list of one sample.
fn only(alloc: Global, sample: Sample) -> Result<Samples, NoMemory>
    ensures { IfOk result (λ samples. samples ≡ sample ∷ []) }
{
    let mut samples = Vec::with_capacity(alloc, 1)?;
    samples.push_reserved(sample);
    Ok(Samples::from_vec(samples))
}

#[tactic(auto, unfolding(crate::specs::Generate::drawn_instrument))]
fn instrument(alloc: Global, draws: &mut Draws) -> Result<Instrument, NoMemory>
    ensures value { IfOk result (λ instrument. instrument ≡ (drawn_instrument draws.old).0) }
    ensures state { IfOk result (λ _. draws.new ≡ (drawn_instrument draws.old).1) }
{
    let sample = sample(alloc, draws)?;
    let samples = only(alloc, sample)?;
    Ok(Instrument {
        name: [0; 22],
        map: [0; 96],
        volume: NO_ENVELOPE,
        panning: NO_ENVELOPE,
        vibrato: NO_VIBRATO,
        fadeout: 0,
        samples,
    })
}

/// All instruments of a song.
pub fn instruments(alloc: Global, draws: &mut Draws) -> Result<Instruments, NoMemory>
    ensures { IfOk result (λ instruments. instruments ≡ (drawn 16 drawn_instrument draws.old).0) }
{
    let mut instruments = Vec::with_capacity(alloc, INSTRUMENTS)?;
    for _ in 0..INSTRUMENTS {
        let instrument = instrument(alloc, draws)?;
        instruments.push_reserved(instrument);
    }
    Ok(Instruments::from_vec(instruments))
}
