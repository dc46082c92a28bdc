//! What is written, at the places of the file.

use ft_songs::{NOTE, instrument_of, pattern_of, sample_of, silent_module};
use ft_types::{Cell, Items, Module, Sample, valid};
use ft_xmwrite::write_xm;
use std::alloc::{AllocError, Global};
use std::test::Fail;

/// The songs that are written.
#[derive(Clone, Copy)]
enum Song {
    /// Amiga periods, and neither patterns nor instruments.
    Silent,
    /// One note of one sample of four frames.
    OneNote,
    /// A pattern of one row, of which the first cell has five bytes and none is 0.
    Full,
    /// A wide sample with a ping-pong loop.
    Wide,
}

use Song::{Full, OneNote, Silent, Wide};

/// What no bit of a mask can leave out.
const FULL: Cell = Cell {
    note: 97,
    instrument: 128,
    volume: 0x50,
    effect: 35,
    parameter: 255,
};

/// How many bytes each song has.
static LENGTHS: [(Song, usize); 4] = [(Silent, 336), (OneNote, 782), (Full, 351), (Wide, 647)];

/// A song, a place, and the bytes that are there.
static PIECES: [(Song, usize, &[u8]); 10] = [
    (Silent, 0, b"Extended Module: "),
    (Silent, 37, &[0x1A]),
    (Silent, 58, &[4, 1, 0x14, 1, 0, 0, 1, 0, 0, 0, 2, 0]),
    (Silent, 70, &[0, 0, 0, 0, 0, 0, 6, 0, 125, 0]),
    // One note is a mask and two bytes.
    (
        OneNote,
        336,
        &[9, 0, 0, 0, 0, 64, 0, 130, 0, 0x83, 0x31, 1, 0x80],
    ),
    (
        OneNote,
        738,
        &[4, 0, 0, 0, 0, 0, 0, 0, 0, 0, 0, 0, 64, 0xFE, 0, 128, 12, 0],
    ),
    (OneNote, 778, &[64, 0, 0, 0]),
    // A full cell has no mask.
    (
        Full,
        336,
        &[9, 0, 0, 0, 0, 1, 0, 6, 0, 97, 128, 0x50, 35, 255, 0x80],
    ),
    // The numbers of a wide sample count bytes.
    (
        Wide,
        599,
        &[8, 0, 0, 0, 2, 0, 0, 0, 6, 0, 0, 0, 64, 0xFE, 18, 128],
    ),
    (Wide, 639, &[1, 0, 0xFE, 0xFF, 1, 1, 0, 0x7F]),
];

/// A sample whose finetune is -2 and whose relative note is 12.
fn tuned(alloc: Global, frames: &[i16]) -> Result<Sample, AllocError> {
    Ok(Sample {
        finetune: -2,
        relative: 12,
        ..sample_of(alloc, frames)?
    })
}

/// A song with one instrument of this sample.
fn with_sample(alloc: Global, sample: Sample) -> Result<Module, AllocError> {
    let instrument = instrument_of(alloc, sample)?;
    Ok(Module {
        instruments: Items::from_vec(vec![in alloc; instrument]?),
        ..silent_module(alloc)?
    })
}

/// This song with a pattern of that many rows and this first cell.
fn with_pattern(alloc: Global, song: Module, rows: u16, first: Cell) -> Result<Module, AllocError> {
    let pattern = pattern_of(alloc, rows, first)?;
    Ok(Module {
        patterns: Items::from_vec(vec![in alloc; pattern]?),
        ..song
    })
}

/// The module of a song.
fn module_of(alloc: Global, song: Song) -> Result<Module, AllocError> {
    match song {
        Silent => Ok(Module {
            linear: false,
            ..silent_module(alloc)?
        }),
        OneNote => {
            let sample = tuned(alloc, &[64, 64, 64, 64])?;
            let silent = with_sample(alloc, sample)?;
            with_pattern(alloc, silent, 64, NOTE)
        }
        Full => {
            let silent = silent_module(alloc)?;
            with_pattern(alloc, silent, 1, FULL)
        }
        Wide => {
            let sample = Sample {
                wide: true,
                loop_kind: 2,
                loop_start: 1,
                loop_len: 3,
                ..tuned(alloc, &[1, -1, 256, -32_768])?
            };
            with_sample(alloc, sample)
        }
    }
}

/// The bytes of a song; none where it isn't valid.
fn written(alloc: Global, song: Song) -> Result<Vec<u8>, AllocError> {
    let module = module_of(alloc, song)?;
    if !valid(&module) {
        return Ok(Vec::new(alloc));
    }
    write_xm(alloc, &module).map_err(|_| AllocError)
}

/// The first song whose bytes, or the bytes that it took room for, are otherwise many.
fn first_wrong_length(alloc: Global) -> Result<Option<usize>, AllocError> {
    for (number, (song, len)) in LENGTHS.iter().enumerate() {
        let bytes = written(alloc, *song)?;
        if bytes.len() != *len || bytes.capacity() != *len {
            return Ok(Some(number));
        }
    }
    Ok(None)
}

/// Whether these bytes are at a place.
fn stands(bytes: &[u8], at: usize, piece: &[u8]) -> bool {
    bytes
        .get(at..)
        .is_some_and(|rest| rest.get(..piece.len()) == Some(piece))
}

/// The first piece that isn't at its place.
fn first_wrong_piece(alloc: Global) -> Result<Option<usize>, AllocError> {
    for (number, (song, at, piece)) in PIECES.iter().enumerate() {
        let bytes = written(alloc, *song)?;
        if !stands(&bytes, *at, piece) {
            return Ok(Some(number));
        }
    }
    Ok(None)
}

#[test]
fn each_song_has_its_bytes_and_takes_no_more_room(rt: HostRuntime) -> Result<(), Fail> {
    assert_eq!(rt; first_wrong_length(rt.alloc())?, None);
    Ok(())
}

#[test]
fn each_piece_stands_at_its_place(rt: HostRuntime) -> Result<(), Fail> {
    assert_eq!(rt; first_wrong_piece(rt.alloc())?, None);
    Ok(())
}
