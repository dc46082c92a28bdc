//! Songs of one pattern and one sample, with the cells of a table.

use ft_songs::{EMPTY, FLAT, instrument_of, one_note_module, sample_of};
use ft_types::{Cell, Envelope, Instrument, Items, Module, Pattern, Sample};
use std::alloc::{AllocError, Global};

/// A row, and the note, instrument, volume, effect and parameter of its cell.
pub type At = (u16, u8, u8, u8, u8, u8);

/// What a song has besides its cells. Each of its orders names a pattern; only pattern 0 is stored.
#[derive(Clone, Copy)]
pub struct Song {
    /// The order table.
    pub orders: &'static [u8],
    /// Restart position.
    pub restart: u16,
    /// Rows of the pattern.
    pub rows: u16,
    /// Ticks per row.
    pub tempo: u8,
    /// Beats per minute.
    pub bpm: u8,
    /// Whether periods are linear.
    pub linear: bool,
    /// Frames of the sample.
    pub frames: u16,
    /// The sample's finetune and its relative note.
    pub tuned: (i8, i8),
    /// Flags of the volume envelope, which has one point.
    pub envelope: u8,
    /// The cells of the first channel.
    pub cells: &'static [At],
    /// The cells of the second channel.
    pub beside: &'static [At],
}

/// The song of one note without its cell: tempo 6, BPM 125, linear periods, a sample of four frames
/// at full volume and in the middle.
pub const SONG: Song = Song {
    orders: &[0],
    restart: 0,
    rows: 64,
    tempo: 6,
    bpm: 125,
    linear: true,
    frames: 4,
    tuned: (0, 0),
    envelope: 0,
    cells: &[],
    beside: &[],
};

/// One tick a row, so that there is no later tick.
pub const ONE_TICK: Song = Song { tempo: 1, ..SONG };

/// Two ticks a row.
pub const TWO_TICKS: Song = Song { tempo: 2, ..SONG };

/// Three ticks a row.
pub const THREE_TICKS: Song = Song { tempo: 3, ..SONG };

/// Puts cells into a channel of two.
fn put_cells(cells: &mut [Cell], channel: u8, named: &[At]) {
    for (row, note, instrument, volume, effect, parameter) in named.iter() {
        if let Some(cell) = cells.get_mut(2 * usize::from(*row) + usize::from(channel)) {
            *cell = Cell {
                note: *note,
                instrument: *instrument,
                volume: *volume,
                effect: *effect,
                parameter: *parameter,
            };
        }
    }
}

/// The pattern of a song.
fn pattern_of(alloc: Global, song: &Song) -> Result<Pattern, AllocError> {
    let mut cells = vec![in alloc; EMPTY; 2 * usize::from(song.rows)]?;
    put_cells(&mut cells, 0, song.cells);
    put_cells(&mut cells, 1, song.beside);
    Ok(Pattern {
        rows: song.rows,
        cells: Items::from_vec(cells),
    })
}

/// The instrument of a song.
fn voiced(alloc: Global, song: &Song) -> Result<Instrument, AllocError> {
    let frames = vec![in alloc; 64; usize::from(song.frames)]?;
    let sample = Sample {
        finetune: song.tuned.0,
        relative: song.tuned.1,
        ..sample_of(alloc, &frames)?
    };
    let volume = Envelope {
        count: 1,
        flags: song.envelope,
        ..FLAT
    };
    Ok(Instrument {
        volume,
        ..instrument_of(alloc, sample)?
    })
}

/// The module of a song.
pub fn module_of(alloc: Global, song: &Song) -> Result<Module, AllocError> {
    let pattern = pattern_of(alloc, song)?;
    let instrument = voiced(alloc, song)?;
    let orders = song.orders.to_vec(alloc)?;
    Ok(Module {
        restart: song.restart,
        tempo: song.tempo,
        bpm: song.bpm,
        linear: song.linear,
        orders: Items::from_vec(orders),
        patterns: Items::from_vec(vec![in alloc; pattern]?),
        instruments: Items::from_vec(vec![in alloc; instrument]?),
        ..one_note_module(alloc)?
    })
}
