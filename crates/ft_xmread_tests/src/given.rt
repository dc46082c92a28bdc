//! Modules that differ from the module of the song of one note.

use ft_songs::{STILL, instrument_of, instrument_with, one_note_module, pattern_of, sample_of};
use ft_types::{Cell, Envelope, Instrument, Items, Module, Point, Sample, Vibrato};
use std::alloc::{AllocError, Global};

/// How a module differs from that of the song of one note.
#[derive(Clone, Copy)]
pub enum Given<'a> {
    /// Not at all.
    Same,
    /// Its tempo.
    Tempo(u8),
    /// Its BPM.
    Bpm(u8),
    /// Whether periods are linear.
    Linear(bool),
    /// Its orders, and the restart.
    Orders(&'a [u8], u16),
    /// The rows of its pattern, and the five bytes of the first cell.
    First(u16, [u8; 5]),
    /// The frames of its sample.
    Frames(&'a [i16]),
    /// Kind, start and length of the loop of its sample.
    Narrow(u8, u32, u32),
    /// The same, of three wide frames.
    Wide(u8, u32, u32),
    /// Volume, finetune, panning and relative note of its sample.
    Numbers(u8, i8, u8, i8),
    /// Map, envelopes, vibrato and fadeout of its instrument, brought into range.
    Head,
    /// Its instrument has no samples.
    Bare,
    /// A second instrument, without samples.
    SecondBare,
    /// A second sample, of two frames.
    TwoSamples,
}

/// The module of the song of one note with another instrument.
fn with_instrument(alloc: Global, instrument: Instrument) -> Result<Module, AllocError> {
    Ok(Module {
        instruments: Items::from_vec(vec![in alloc; instrument]?),
        ..one_note_module(alloc)?
    })
}

/// The module with another sample.
fn with_sample(alloc: Global, sample: Sample) -> Result<Module, AllocError> {
    let instrument = instrument_of(alloc, sample)?;
    with_instrument(alloc, instrument)
}

/// The module with another pattern.
fn with_first(alloc: Global, rows: u16, bytes: [u8; 5]) -> Result<Module, AllocError> {
    let [note, instrument, volume, effect, parameter] = bytes;
    let first = Cell {
        note,
        instrument,
        volume,
        effect,
        parameter,
    };
    let pattern = pattern_of(alloc, rows, first)?;
    Ok(Module {
        patterns: Items::from_vec(vec![in alloc; pattern]?),
        ..one_note_module(alloc)?
    })
}

/// The module with other orders.
fn with_orders(alloc: Global, orders: &[u8], restart: u16) -> Result<Module, AllocError> {
    Ok(Module {
        orders: Items::from_vec(orders.to_vec(alloc)?),
        restart,
        ..one_note_module(alloc)?
    })
}

/// The module with a loop in its four frames, or in three wide ones.
fn with_loop(
    alloc: Global,
    wide: bool,
    kind: u8,
    start: u32,
    len: u32,
) -> Result<Module, AllocError> {
    let frames: &[i16] = if wide {
        &[1000, -32768, 32767]
    } else {
        &[64, 64, 64, 64]
    };
    let sample = Sample {
        wide,
        loop_kind: kind,
        loop_start: start,
        loop_len: len,
        ..sample_of(alloc, frames)?
    };
    with_sample(alloc, sample)
}

/// The module whose instrument has two samples.
fn with_two(alloc: Global) -> Result<Module, AllocError> {
    let first = sample_of(alloc, &[64, 64, 64, 64])?;
    let second = sample_of(alloc, &[5, -1])?;
    with_instrument(alloc, instrument_with(vec![in alloc; first, second]?))
}

/// The module with a second instrument, without samples.
fn with_bare(alloc: Global) -> Result<Module, AllocError> {
    let sample = sample_of(alloc, &[64, 64, 64, 64])?;
    let first = instrument_of(alloc, sample)?;
    let second = Instrument {
        name: *b"no sample.............",
        ..instrument_with(Vec::new(alloc))
    };
    Ok(Module {
        instruments: Items::from_vec(vec![in alloc; first, second]?),
        ..one_note_module(alloc)?
    })
}

/// A note map of which four notes are given.
fn map_of_head() -> [u8; 96] {
    let mut map = [0; 96];
    (map[0], map[1], map[2], map[95]) = (3, 15, 15, 15);
    map
}

/// A volume envelope at the ends of its ranges.
fn volume_of_head() -> Envelope {
    let mut points = [Point { x: 0, y: 0 }; 12];
    points[0] = Point { x: 1, y: 64 };
    points[1] = Point { x: 258, y: 64 };
    points[11] = Point { x: 7, y: 64 };
    Envelope {
        points,
        count: 12,
        sustain: 11,
        loop_start: 11,
        loop_end: 5,
        flags: 7,
    }
}

/// A panning envelope.
fn panning_of_head() -> Envelope {
    let mut points = [Point { x: 0, y: 0 }; 12];
    points[0] = Point { x: 9, y: 33 };
    Envelope {
        points,
        count: 12,
        sustain: 11,
        loop_start: 1,
        loop_end: 10,
        flags: 2,
    }
}

/// The module whose instrument has a head with other numbers.
fn with_head(alloc: Global) -> Result<Module, AllocError> {
    let sample = sample_of(alloc, &[64, 64, 64, 64])?;
    let instrument = Instrument {
        map: map_of_head(),
        volume: volume_of_head(),
        panning: panning_of_head(),
        vibrato: Vibrato {
            sweep: 255,
            depth: 15,
            rate: 63,
            ..STILL
        },
        fadeout: 0x1234,
        ..instrument_of(alloc, sample)?
    };
    with_instrument(alloc, instrument)
}

/// The module with other numbers in its sample.
fn with_numbers(
    alloc: Global,
    volume: u8,
    finetune: i8,
    panning: u8,
    relative: i8,
) -> Result<Module, AllocError> {
    let sample = Sample {
        volume,
        finetune,
        panning,
        relative,
        ..sample_of(alloc, &[64, 64, 64, 64])?
    };
    with_sample(alloc, sample)
}

/// The module that differs so.
pub fn module_of(alloc: Global, given: Given) -> Result<Module, AllocError> {
    match given {
        Given::Same => one_note_module(alloc),
        Given::Tempo(tempo) => Ok(Module {
            tempo,
            ..one_note_module(alloc)?
        }),
        Given::Bpm(bpm) => Ok(Module {
            bpm,
            ..one_note_module(alloc)?
        }),
        Given::Linear(linear) => Ok(Module {
            linear,
            ..one_note_module(alloc)?
        }),
        Given::Orders(orders, restart) => with_orders(alloc, orders, restart),
        Given::First(rows, bytes) => with_first(alloc, rows, bytes),
        Given::Frames(frames) => {
            let sample = sample_of(alloc, frames)?;
            with_sample(alloc, sample)
        }
        Given::Narrow(kind, start, len) => with_loop(alloc, false, kind, start, len),
        Given::Wide(kind, start, len) => with_loop(alloc, true, kind, start, len),
        Given::Numbers(volume, finetune, panning, relative) => {
            with_numbers(alloc, volume, finetune, panning, relative)
        }
        Given::Head => with_head(alloc),
        Given::Bare => with_instrument(alloc, instrument_with(Vec::new(alloc))),
        Given::SecondBare => with_bare(alloc),
        Given::TwoSamples => with_two(alloc),
    }
}
