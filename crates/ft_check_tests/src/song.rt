//! The song that is edited.

use ft_types::{
    Cell, Envelope, Frames, Instrument, Items, Module, Pattern, Point, Sample, Vibrato,
};
use std::alloc::{AllocError, Global};

/// A note of the song's one instrument.
pub const NOTE: Cell = Cell {
    note: 49,
    instrument: 1,
    volume: 0,
    effect: 0,
    parameter: 0,
};

const OFF: Envelope = Envelope {
    points: [Point { x: 0, y: 0 }; 12],
    count: 0,
    sustain: 0,
    loop_start: 0,
    loop_end: 0,
    flags: 0,
};

/// An instrument with a sample of the frames 64, 32, 16, 8, which turns over the last two.
fn instrument(alloc: Global) -> Result<Instrument, AllocError> {
    let sample = Sample {
        name: [0; 22],
        volume: 64,
        finetune: 0,
        relative: 0,
        panning: 128,
        wide: false,
        loop_kind: 1,
        loop_start: 2,
        loop_len: 2,
        frames: Frames::from_vec(vec![in alloc; 64, 32, 16, 8]?),
    };
    Ok(Instrument {
        name: [0; 22],
        map: [0; 96],
        volume: OFF,
        panning: OFF,
        vibrato: Vibrato {
            kind: 0,
            sweep: 0,
            depth: 0,
            rate: 0,
        },
        fadeout: 0,
        samples: Items::from_vec(vec![in alloc; sample]?),
    })
}

/// Two channels, two orders, a pattern of 64 rows that begins with a note, and the instrument.
pub fn song(alloc: Global) -> Result<Module, AllocError> {
    let mut cells = vec![in alloc; Cell::EMPTY; 128]?;
    if let Some(first) = cells.get_mut(0) {
        *first = NOTE;
    }
    let pattern = Pattern {
        rows: 64,
        cells: Items::from_vec(cells),
    };
    Ok(Module {
        name: [0; 20],
        tracker: [0; 20],
        restart: 1,
        channels: 2,
        linear: true,
        tempo: 6,
        bpm: 125,
        orders: Items::from_vec(vec![in alloc; 0, 0]?),
        patterns: Items::from_vec(vec![in alloc; pattern]?),
        instruments: Items::from_vec(vec![in alloc; instrument(alloc)?]?),
    })
}
