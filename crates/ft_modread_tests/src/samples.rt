//! Samples: their numbers, loops and data, and what else is in a song.

use crate::given::one_note_mod_with;
use ft_modread::read_mod;
use ft_songs::Splice;
use ft_types::{Instrument, Module, Sample};
use std::alloc::{AllocError, Global};
use std::test::Fail;

/// The fourth byte from a place on of sample 1's header, which begins at 20: the length in pairs, the
/// loop's start and its length in pairs; and the loop that comes of them: kind, start, length.
static LOOPS: [(u8, u8, u8, (u8, u32, u32)); 19] = [
    (4, 0, 0, (0, 0, 0)),
    (4, 0, 1, (0, 0, 0)),
    (4, 2, 1, (0, 0, 0)),
    (4, 0, 2, (1, 0, 4)),
    (4, 1, 2, (1, 2, 4)),
    (4, 2, 2, (1, 4, 4)),
    (4, 0, 4, (1, 0, 8)),
    // past the end
    (4, 3, 2, (1, 6, 2)),
    (4, 0, 5, (1, 0, 8)),
    (4, 1, 255, (1, 2, 6)),
    (4, 4, 2, (0, 0, 0)),
    (4, 5, 2, (0, 0, 0)),
    (4, 255, 255, (0, 0, 0)),
    (1, 0, 1, (0, 0, 0)),
    (1, 0, 2, (1, 0, 2)),
    (1, 1, 2, (0, 0, 0)),
    (2, 1, 2, (1, 2, 2)),
    (2, 1, 1, (0, 0, 0)),
    (128, 100, 28, (1, 200, 56)),
];

/// Finetune bytes and volumes, and what comes of them.
static NUMBERS: [(u8, i8, u8, u8); 20] = [
    (0, 0, 0, 0),
    (1, 16, 1, 1),
    (2, 32, 32, 32),
    (3, 48, 63, 63),
    (4, 64, 64, 64),
    (5, 80, 65, 64),
    (6, 96, 128, 64),
    (7, 112, 255, 64),
    (8, -128, 64, 64),
    (9, -112, 64, 64),
    (10, -96, 64, 64),
    (11, -80, 64, 64),
    (12, -64, 64, 64),
    (13, -48, 64, 64),
    (14, -32, 64, 64),
    (15, -16, 64, 64),
    (16, 0, 64, 64),
    (0xF7, 112, 64, 64),
    (0xF8, -128, 64, 64),
    (255, -16, 64, 64),
];

/// Data behind the pattern for a sample of two pairs, and its four frames. What is missing is 0, and
/// what is too much isn't read.
static DATA: [(&[u8], [i16; 4]); 8] = [
    (&[64, 64, 64, 64], [64, 64, 64, 64]),
    (&[1, 2, 3, 4], [1, 2, 3, 4]),
    (&[127, 128, 255, 0], [127, -128, -1, 0]),
    (&[64, 64, 64], [64, 64, 64, 0]),
    (&[64, 64], [64, 64, 0, 0]),
    (&[64], [64, 0, 0, 0]),
    (&[], [0, 0, 0, 0]),
    (&[1, 2, 3, 4, 5, 6], [1, 2, 3, 4]),
];

/// The song of the module of one note with other bytes.
fn song_with(alloc: Global, changes: &[Splice]) -> Result<Option<Module>, AllocError> {
    let module = one_note_mod_with(alloc, changes)?;
    Ok(read_mod(alloc, &module).ok())
}

/// The one sample of an instrument of a song.
fn sample_of(song: &Module, instrument: usize) -> Option<&Sample> {
    song.instruments.get(instrument)?.samples.get(0)
}

/// Whether the first sample has a loop of these numbers.
fn is_looped(song: &Module, wanted: (u8, u32, u32)) -> bool {
    sample_of(song, 0).is_some_and(|sample| {
        (sample.loop_kind, sample.loop_start, sample.loop_len) == wanted
    })
}

/// The first loop that becomes another.
fn first_wrong_loop(alloc: Global) -> Result<Option<usize>, AllocError> {
    for (number, (length, start, span, wanted)) in LOOPS.iter().enumerate() {
        let change = Splice {
            from: 42,
            to: 50,
            bytes: &[0, *length, 0, 64, 0, *start, 0, *span],
        };
        let song = song_with(alloc, &[change])?;
        if !song.is_some_and(|song| is_looped(&song, *wanted)) {
            return Ok(Some(number));
        }
    }
    Ok(None)
}

#[test]
fn loops_are_brought_into_their_samples(rt: HostRuntime) -> Result<(), Fail> {
    assert!(rt; first_wrong_loop(rt.alloc())?.is_none());
    Ok(())
}

/// Whether the first sample has these numbers.
fn has_numbers(song: &Module, finetune: i8, volume: u8) -> bool {
    sample_of(song, 0).is_some_and(|sample| {
        (sample.finetune, sample.volume) == (finetune, volume)
            && (sample.relative, sample.panning, sample.wide) == (0, 128, false)
    })
}

/// The first row whose numbers become others.
fn first_wrong_numbers(alloc: Global) -> Result<Option<usize>, AllocError> {
    for (number, (fine, finetune, loud, volume)) in NUMBERS.iter().enumerate() {
        let change = Splice {
            from: 44,
            to: 46,
            bytes: &[*fine, *loud],
        };
        let song = song_with(alloc, &[change])?;
        if !song.is_some_and(|song| has_numbers(&song, *finetune, *volume)) {
            return Ok(Some(number));
        }
    }
    Ok(None)
}

#[test]
fn finetune_is_signed_and_volume_at_most_64(rt: HostRuntime) -> Result<(), Fail> {
    assert!(rt; first_wrong_numbers(rt.alloc())?.is_none());
    Ok(())
}

/// The first row whose data gives other frames.
fn first_wrong_data(alloc: Global) -> Result<Option<usize>, AllocError> {
    for (number, (data, frames)) in DATA.iter().enumerate() {
        let change = Splice {
            from: 2108,
            to: 2112,
            bytes: data,
        };
        let song = song_with(alloc, &[change])?;
        let same = song.is_some_and(|song| {
            sample_of(&song, 0).is_some_and(|sample| sample.frames.as_slice() == frames.as_slice())
        });
        if !same {
            return Ok(Some(number));
        }
    }
    Ok(None)
}

#[test]
fn missing_data_is_0_and_more_is_skipped(rt: HostRuntime) -> Result<(), Fail> {
    assert!(rt; first_wrong_data(rt.alloc())?.is_none());
    Ok(())
}

/// Whether an instrument says nothing but its name and samples.
fn is_bare(instrument: &Instrument, name: &[u8; 22], samples: usize) -> bool {
    instrument.name == *name
        && instrument.map == [0; 96]
        && (instrument.volume.count, instrument.volume.flags) == (0, 0)
        && (instrument.panning.count, instrument.panning.flags) == (0, 0)
        && instrument.vibrato.depth == 0
        && instrument.fadeout == 0
        && instrument.samples.len() == samples
}

/// Whether the song has the names, the second sample behind the first, and 31 instruments, of which
/// those without length have no samples.
fn is_named(song: &Module) -> bool {
    song.name == *b"a module to test it!"
        && song.tracker == *b"M.K.\0\0\0\0\0\0\0\0\0\0\0\0\0\0\0\0"
        && (song.channels, song.linear, song.tempo, song.bpm) == (4, false, 6, 125)
        && song.instruments.len() == 31
        && song
            .instruments
            .get(0)
            .is_some_and(|it| is_bare(it, b"the first of 31 sample", 1))
        && song
            .instruments
            .get(1)
            .is_some_and(|it| is_bare(it, &[0; 22], 0))
        && song
            .instruments
            .get(30)
            .is_some_and(|it| is_bare(it, b"the last of 31 samples", 1))
        && sample_of(song, 0).is_some_and(|it| it.name == *b"the first of 31 sample")
        && sample_of(song, 30).is_some_and(|it| it.frames.as_slice() == [5, 6].as_slice())
}

/// Whether each name is where it belongs.
fn names_are_kept(alloc: Global) -> Result<bool, AllocError> {
    let changes = [
        Splice {
            from: 0,
            to: 20,
            bytes: b"a module to test it!",
        },
        Splice {
            from: 20,
            to: 42,
            bytes: b"the first of 31 sample",
        },
        Splice {
            from: 920,
            to: 946,
            bytes: b"the last of 31 samples\0\x01\0\x40",
        },
        Splice {
            from: 2112,
            to: 2112,
            bytes: &[5, 6],
        },
    ];
    let song = song_with(alloc, &changes)?;
    Ok(song.is_some_and(|song| is_named(&song)))
}

#[test]
fn names_are_kept_and_data_follows_data(rt: HostRuntime) -> Result<(), Fail> {
    assert!(rt; names_are_kept(rt.alloc())?);
    Ok(())
}
