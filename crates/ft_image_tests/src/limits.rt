//! A song with as much of everything as a song can have, and every reader on it.

use crate::placed::image_of;
use ft_image::{
    Image, SliceWords, cell, envelope, frame, head, order, rows, sample_head, sample_root, shape,
};
use ft_songs::{instrument_with, sample_of, silent_module};
use ft_types::{
    Cell, Envelope, Instrument, Items, Module, Pattern, Point, Sample, SampleHead, Shape, SongHead,
    Vibrato,
};
use std::alloc::Global;
use std::test::Fail;

/// The cell of a number in a pattern: it says where it is.
fn cell_of(pattern: u8, number: u16) -> Cell {
    Cell {
        note: (number % 97) as u8,
        instrument: pattern,
        volume: (number / 32 % 256) as u8,
        effect: (number % 32) as u8,
        parameter: 255 - pattern,
    }
}

/// A pattern of 256 rows and 32 channels.
fn full_pattern(alloc: Global, pattern: u8) -> Result<Pattern, Fail> {
    let mut cells = Vec::new(alloc);
    for number in 0..8_192u16 {
        cells.push(cell_of(pattern, number))?;
    }
    Ok(Pattern {
        rows: 256,
        cells: Items::from_vec(cells),
    })
}

/// Twelve points, each with its number.
fn points_of(first: u16) -> [Point; 12] {
    let mut points = [Point { x: 0, y: 0 }; 12];
    for k in 0..12u16 {
        points[usize::from(k)] = Point {
            x: first.saturating_add(k),
            y: k,
        };
    }
    points
}

/// The volume envelope of an instrument.
fn volume_of(instrument: u8) -> Envelope {
    Envelope {
        points: points_of(u16::from(instrument)),
        count: 12,
        sustain: 3,
        loop_start: 2,
        loop_end: 11,
        flags: 7,
    }
}

/// The panning envelope of an instrument.
fn panning_of(instrument: u8) -> Envelope {
    Envelope {
        points: points_of(65_000),
        count: instrument % 13,
        sustain: 11,
        loop_start: 0,
        loop_end: 1,
        flags: 1,
    }
}

/// The automatic vibrato of an instrument.
fn vibrato_of(instrument: u8) -> Vibrato {
    Vibrato {
        kind: instrument % 4,
        sweep: instrument,
        depth: instrument % 16,
        rate: instrument % 64,
    }
}

/// The head of a sample of each instrument.
fn head_of(sample: u8) -> SampleHead {
    let tuning = (sample % 128) as i8;
    SampleHead {
        frames: 2,
        wide: sample % 2 == 1,
        loop_kind: 2,
        loop_start: 0,
        loop_len: 2,
        volume: sample % 65,
        panning: 255 - sample % 16,
        finetune: tuning.saturating_add(-128),
        relative: tuning.saturating_sub(8),
    }
}

/// A sample of an instrument: its first frame is the instrument, its second minus the sample.
fn full_sample(alloc: Global, instrument: u8, number: u8) -> Result<Sample, Fail> {
    let told = head_of(number % 16);
    let frames = [
        i16::from(instrument % 128),
        i16::from(number % 16).saturating_neg(),
    ];
    let sample = sample_of(alloc, &frames)?;
    Ok(Sample {
        wide: told.wide,
        loop_kind: told.loop_kind,
        loop_start: told.loop_start,
        loop_len: told.loop_len,
        volume: told.volume,
        panning: told.panning,
        finetune: told.finetune,
        relative: told.relative,
        ..sample
    })
}

/// An instrument of 16 samples, of which note n has the one of number n mod 16.
fn full_instrument(alloc: Global, number: u8) -> Result<Instrument, Fail> {
    let mut samples = Vec::new(alloc);
    for sample in 0..16u8 {
        samples.push(full_sample(alloc, number, sample)?)?;
    }
    let mut map = [0; 96];
    for note in 0..96u8 {
        map[usize::from(note)] = note % 16;
    }
    Ok(Instrument {
        map,
        volume: volume_of(number),
        panning: panning_of(number),
        vibrato: vibrato_of(number),
        fadeout: u16::from(number) * 250,
        ..instrument_with(samples)
    })
}

/// 256 orders, 32 channels, 256 patterns of 256 rows, 128 instruments of 16 samples.
fn full_song(alloc: Global) -> Result<Module, Fail> {
    let mut orders = Vec::new(alloc);
    let mut patterns = Vec::new(alloc);
    for pattern in 0..256u16 {
        let pattern = (pattern % 256) as u8;
        orders.push(255 - pattern)?;
        patterns.push(full_pattern(alloc, pattern)?)?;
    }
    let mut instruments = Vec::new(alloc);
    for number in 1..129u8 {
        instruments.push(full_instrument(alloc, number)?)?;
    }
    let mut song = silent_module(alloc)?;
    song.channels = 32;
    song.restart = 255;
    song.tempo = 31;
    song.bpm = 255;
    song.orders = Items::from_vec(orders);
    song.patterns = Items::from_vec(patterns);
    song.instruments = Items::from_vec(instruments);
    Ok(song)
}

/// Pattern, row, channel, and the note there.
static CELLS: [(u8, u16, u8, u8); 6] = [
    (0, 0, 0, 0),
    (0, 0, 31, 31),
    (1, 3, 0, 96),
    (1, 3, 1, 0),
    (128, 100, 7, 6),
    (255, 255, 31, 43),
];

/// Whether each row of `CELLS` is read, and nothing past the rows.
fn reads_cells(words: &[u64]) -> bool {
    let mut view = SliceWords { words };
    for (pattern, row, channel, note) in CELLS.iter() {
        let right = Cell {
            note: *note,
            instrument: *pattern,
            volume: (*row % 256) as u8,
            effect: *channel,
            parameter: 255 - *pattern,
        };
        if cell(&mut view, 0, *pattern, *row, *channel) != right {
            return false;
        }
    }
    rows(&mut view, 0, 255) == 256 && cell(&mut view, 0, 255, 256, 31).parameter == 0
}

/// Instrument, note, and the root of the sample; the instruments' roots are 49 apart from 8,449 on.
static ROOTS: [(u8, u8, Option<u16>); 7] = [
    (0, 5, None),
    (1, 0, Some(8_450)),
    (1, 15, Some(8_495)),
    (1, 16, Some(8_450)),
    (2, 95, Some(8_544)),
    (128, 95, Some(14_718)),
    (129, 0, None),
];

/// Whether each row of `ROOTS` is read.
fn reads_roots(words: &[u64]) -> bool {
    let mut view = SliceWords { words };
    for (instrument, note, root) in ROOTS.iter() {
        if *note < 96 && sample_root(&mut view, 0, *instrument, *note) != *root {
            return false;
        }
    }
    true
}

/// Whether the head and the orders are read.
fn reads_song(words: &[u64]) -> bool {
    let mut view = SliceWords { words };
    let told = SongHead {
        length: 256,
        restart: 255,
        tempo: 31,
        bpm: 255,
        linear: true,
    };
    head(&mut view, 0) == told
        && order(&mut view, 0, 0) == 255
        && order(&mut view, 0, 200) == 55
        && order(&mut view, 0, 255) == 0
}

/// Whether envelopes and shape of an instrument are read.
fn reads_instrument(words: &[u64], number: u8) -> bool {
    let mut view = SliceWords { words };
    let told = Shape {
        vibrato: vibrato_of(number),
        fadeout: u16::from(number) * 250,
    };
    envelope(&mut view, 0, number, 0) == Some(volume_of(number))
        && envelope(&mut view, 0, number, 1) == Some(panning_of(number))
        && shape(&mut view, 0, number) == Some(told)
}

/// Whether head and frames of the sample of a root are those of an instrument's sample.
fn reads_sample(words: &[u64], root: u16, instrument: i16, number: u8) -> bool {
    let mut view = SliceWords { words };
    sample_head(&mut view, root) == head_of(number)
        && frame(&mut view, root, 0) == instrument
        && frame(&mut view, root, 1) == i16::from(number).saturating_neg()
}

/// What an image of the full song is: its words, its root, and whether each group of readers is
/// right.
fn reads_all(image: &Image) -> (usize, u16, bool, bool) {
    let words = image.words();
    let song = reads_song(words) && reads_cells(words) && reads_roots(words);
    let parts = reads_instrument(words, 1)
        && reads_instrument(words, 128)
        && reads_sample(words, 8_450, 1, 0)
        && reads_sample(words, 14_718, 0, 15);
    (words.len(), image.root(), song, parts)
}

#[test]
fn every_reader_reads_a_song_of_all_limits(rt: HostRuntime) -> Result<(), Fail> {
    let song = full_song(rt.alloc())?;
    let told = match image_of(rt.alloc(), &song) {
        Some(image) => reads_all(&image),
        None => (0, 1, false, false),
    };
    assert_eq!(rt; told, (14_721 * 256, 0, true, true));
    Ok(())
}
