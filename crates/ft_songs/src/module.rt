//! Modules and their parts.

use crate::part::{INSTRUMENT, NAME, SAMPLE, TRACKER};
use ft_types::{Cell, Envelope, Instrument, Items, Module, Pattern, Point, Sample, Vibrato};
use std::alloc::{AllocError, Global};

/// A cell of five 0 bytes.
pub const EMPTY: Cell = Cell {
    note: 0,
    instrument: 0,
    volume: 0,
    effect: 0,
    parameter: 0,
};

/// C-4 of instrument 1.
pub const NOTE: Cell = Cell {
    note: 49,
    instrument: 1,
    ..EMPTY
};

/// An envelope that says nothing.
pub const FLAT: Envelope = Envelope {
    points: [Point { x: 0, y: 0 }; 12],
    count: 0,
    sustain: 0,
    loop_start: 0,
    loop_end: 0,
    flags: 0,
};

/// No automatic vibrato.
pub const STILL: Vibrato = Vibrato {
    kind: 0,
    sweep: 0,
    depth: 0,
    rate: 0,
};

/// A pattern of that many rows and two channels, with this first cell and empty ones behind it.
pub fn pattern_of(alloc: Global, rows: u16, first: Cell) -> Result<Pattern, AllocError> {
    let mut cells = vec![in alloc; EMPTY; 2 * usize::from(rows)]?;
    if let Some(cell) = cells.get_mut(0) {
        *cell = first;
    }
    Ok(Pattern {
        rows,
        cells: Items::from_vec(cells),
    })
}

/// A narrow sample of these frames at full volume, without a loop.
pub fn sample_of(alloc: Global, frames: &[i16]) -> Result<Sample, AllocError> {
    Ok(Sample {
        name: *SAMPLE,
        volume: 64,
        finetune: 0,
        relative: 0,
        panning: 128,
        wide: false,
        loop_kind: 0,
        loop_start: 0,
        loop_len: 0,
        frames: Items::from_vec(frames.to_vec(alloc)?),
    })
}

/// An instrument with map, envelopes, vibrato and fadeout all 0.
pub fn instrument_with(samples: Vec<Sample>) -> Instrument {
    Instrument {
        name: *INSTRUMENT,
        map: [0; 96],
        volume: FLAT,
        panning: FLAT,
        vibrato: STILL,
        fadeout: 0,
        samples: Items::from_vec(samples),
    }
}

/// An instrument of one sample.
pub fn instrument_of(alloc: Global, sample: Sample) -> Result<Instrument, AllocError> {
    Ok(instrument_with(vec![in alloc; sample]?))
}

/// The module of `silent_song`.
pub fn silent_module(alloc: Global) -> Result<Module, AllocError> {
    Ok(Module {
        name: *NAME,
        tracker: *TRACKER,
        restart: 0,
        channels: 2,
        linear: true,
        tempo: 6,
        bpm: 125,
        orders: Items::from_vec(vec![in alloc; 0]?),
        patterns: Items::new(alloc),
        instruments: Items::new(alloc),
    })
}

/// The module of `one_note_song`.
pub fn one_note_module(alloc: Global) -> Result<Module, AllocError> {
    let pattern = pattern_of(alloc, 64, NOTE)?;
    let sample = sample_of(alloc, &[64, 64, 64, 64])?;
    let instrument = instrument_of(alloc, sample)?;
    Ok(Module {
        patterns: Items::from_vec(vec![in alloc; pattern]?),
        instruments: Items::from_vec(vec![in alloc; instrument]?),
        ..silent_module(alloc)?
    })
}
