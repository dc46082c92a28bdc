//! Songs of a shape.

use ft_songs::{EMPTY, instrument_of, sample_of, silent_module};
use ft_types::{Instrument, Items, Module, Pattern};
use std::alloc::{AllocError, Global};

/// How much a song has of everything.
#[derive(Clone, Copy)]
pub struct Shape {
    pub channels: u8,
    /// Patterns, and the rows of each.
    pub patterns: u16,
    pub rows: u16,
    /// Instruments of one sample, and the frames of each sample.
    pub instruments: u8,
    pub frames: u32,
}

fn patterns_of(alloc: Global, shape: Shape) -> Result<Vec<Pattern>, AllocError> {
    let mut patterns = Vec::new(alloc);
    for _ in 0..shape.patterns {
        let cells = vec![in alloc; EMPTY; usize::from(shape.rows) * usize::from(shape.channels)]?;
        patterns.push(Pattern {
            rows: shape.rows,
            cells: Items::from_vec(cells),
        })?;
    }
    Ok(patterns)
}

fn instruments_of(alloc: Global, shape: Shape) -> Result<Vec<Instrument>, AllocError> {
    let frames = vec![in alloc; 5i16; shape.frames as usize]?;
    let mut instruments = Vec::new(alloc);
    for _ in 0..shape.instruments {
        instruments.push(instrument_of(alloc, sample_of(alloc, frames.as_slice())?)?)?;
    }
    Ok(instruments)
}

/// A song of this shape, with empty cells.
pub fn song_of(alloc: Global, shape: Shape) -> Result<Module, AllocError> {
    let patterns = patterns_of(alloc, shape)?;
    let instruments = instruments_of(alloc, shape)?;
    let mut song = silent_module(alloc)?;
    song.channels = shape.channels;
    song.patterns = Items::from_vec(patterns);
    song.instruments = Items::from_vec(instruments);
    Ok(song)
}
