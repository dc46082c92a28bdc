//! Generated songs. The numbers here were worked out from the rule, outside of this program.

use ft_types::{Cell, Instrument, Module, Pattern, Sample, blocks, valid};
use ft_xmwrite::generate;
use std::alloc::{AllocError, Global};
use std::test::Fail;

/// A number, a pattern and a cell of its song, and the five bytes of that cell.
static CELLS: [(u32, usize, usize, [u8; 5]); 9] = [
    (7, 0, 0, [35, 13, 56, 1, 20]),
    (7, 0, 1, [0, 0, 0, 0, 0]),
    (7, 0, 2, [68, 4, 69, 0, 172]),
    (7, 0, 5, [58, 8, 17, 4, 202]),
    (7, 0, 8, [33, 5, 52, 1, 6]),
    (7, 39, 509, [56, 9, 49, 10, 150]),
    (7, 39, 511, [0, 0, 0, 0, 0]),
    (0, 0, 0, [0, 0, 0, 0, 0]),
    (0, 0, 1, [69, 10, 31, 4, 254]),
];

/// An instrument of the song of 7; panning, first and last frame of its sample.
static SAMPLES: [(usize, u8, i16, i16); 3] = [
    (0, 142, -30928, -16467),
    (1, 57, 26840, 8515),
    (15, 210, 461, -3094),
];

/// The song of a number.
fn song(alloc: Global, number: u32) -> Result<Module, AllocError> {
    generate(alloc, number).map_err(|_| AllocError)
}

/// Whether the names and numbers of a generated song are those of each.
fn has_header(song: &Module) -> bool {
    song.name == *b"generated\0\0\0\0\0\0\0\0\0\0\0"
        && song.tracker == *b"xmstudio\0\0\0\0\0\0\0\0\0\0\0\0"
        && (song.tempo, song.bpm, song.restart, song.channels) == (6, 125, 0, 8)
        && song.linear
        && song.orders.len() == 40
        && song.orders.get(39).copied() == Some(39)
}

/// Whether a sample has 16,384 wide frames, all of them looped.
fn is_looped(sample: &Sample) -> bool {
    sample.wide
        && (sample.volume, sample.loop_kind) == (32, 1)
        && (sample.loop_start, sample.loop_len) == (0, 16384)
        && sample.frames.len() == 16384
}

/// Whether an instrument has one sample, which is looped.
fn has_sample(instrument: &Instrument) -> bool {
    instrument.samples.len() == 1
        && instrument
            .samples
            .get(0)
            .is_some_and(|sample| is_looped(sample))
}

/// Whether a pattern has 64 rows of 8 channels.
fn has_rows(pattern: &Pattern) -> bool {
    pattern.rows == 64 && pattern.cells.len() == 512
}

/// Whether there are 40 patterns and 16 instruments of these.
fn has_parts(song: &Module) -> bool {
    song.patterns.len() == 40
        && song.instruments.len() == 16
        && song
            .patterns
            .as_slice()
            .iter()
            .all(|pattern| has_rows(pattern))
        && song
            .instruments
            .as_slice()
            .iter()
            .all(|instrument| has_sample(instrument))
}

/// Whether the song of a number is valid, has 425 blocks, its header and its parts.
fn is_whole(alloc: Global, number: u32) -> Result<bool, AllocError> {
    let song = song(alloc, number)?;
    Ok(valid(&song) && blocks(&song) == 425 && has_header(&song) && has_parts(&song))
}

/// Whether a cell of a song has these bytes.
fn has_cell(song: &Module, pattern: usize, cell: usize, bytes: [u8; 5]) -> bool {
    let [note, instrument, volume, effect, parameter] = bytes;
    let wanted = Cell {
        note,
        instrument,
        volume,
        effect,
        parameter,
    };
    song.patterns
        .get(pattern)
        .is_some_and(|pattern| pattern.cells.get(cell).copied() == Some(wanted))
}

/// The first row of cells that isn't drawn so.
fn first_wrong_cell(alloc: Global) -> Result<Option<usize>, AllocError> {
    for (row, (number, pattern, cell, bytes)) in CELLS.iter().enumerate() {
        let song = song(alloc, *number)?;
        if !has_cell(&song, *pattern, *cell, *bytes) {
            return Ok(Some(row));
        }
    }
    Ok(None)
}

/// Whether a sample has this panning and these first and last frames.
fn has_ends(sample: &Sample, panning: u8, first: i16, last: i16) -> bool {
    sample.panning == panning
        && sample.frames.get(0).copied() == Some(first)
        && sample.frames.get(16383).copied() == Some(last)
}

/// The first row of samples that isn't drawn so.
fn first_wrong_sample(alloc: Global) -> Result<Option<usize>, AllocError> {
    let song = song(alloc, 7)?;
    for (row, (number, panning, first, last)) in SAMPLES.iter().enumerate() {
        let is_drawn = song.instruments.get(*number).is_some_and(|instrument| {
            instrument
                .samples
                .get(0)
                .is_some_and(|sample| has_ends(sample, *panning, *first, *last))
        });
        if !is_drawn {
            return Ok(Some(row));
        }
    }
    Ok(None)
}

#[test]
fn generated_songs_are_valid_and_have_409_blocks(rt: HostRuntime) -> Result<(), Fail> {
    assert!(rt; is_whole(rt.alloc(), 7)?);
    assert!(rt; is_whole(rt.alloc(), 0)?);
    Ok(())
}

#[test]
fn cells_are_drawn_in_order(rt: HostRuntime) -> Result<(), Fail> {
    assert_eq!(rt; first_wrong_cell(rt.alloc())?, None);
    Ok(())
}

#[test]
fn samples_are_drawn_behind_the_cells(rt: HostRuntime) -> Result<(), Fail> {
    assert_eq!(rt; first_wrong_sample(rt.alloc())?, None);
    Ok(())
}
