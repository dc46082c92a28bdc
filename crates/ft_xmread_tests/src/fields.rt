//! Each field of the song of one note.

use ft_songs::{EMPTY, FLAT, NOTE, one_note_song};
use ft_types::{Instrument, Module, Pattern, Sample};
use ft_xmread::read_xm;
use std::alloc::{AllocError, Global};
use std::test::Fail;

/// Whether the names and numbers of a song are those.
fn has_header(song: &Module) -> bool {
    song.name == *b"a song to test with "
        && song.tracker == *b"made without tracker"
        && (song.restart, song.channels, song.linear) == (0, 2, true)
        && (song.tempo, song.bpm) == (6, 125)
        && song.orders.as_slice() == [0].as_slice()
}

/// Whether a pattern has its rows, its note, and empty cells behind it.
fn has_note(pattern: &Pattern) -> bool {
    pattern.rows == 64
        && pattern.cells.len() == 128
        && pattern.cells.get(0).copied() == Some(NOTE)
        && pattern
            .cells
            .as_slice()
            .iter()
            .skip(1)
            .all(|cell| *cell == EMPTY)
}

/// Whether an instrument says nothing but its name, and has one sample.
fn is_flat(instrument: &Instrument) -> bool {
    instrument.name == *b"one instrument........"
        && instrument.map == [0; 96]
        && instrument.volume == FLAT
        && instrument.panning == FLAT
        && instrument.fadeout == 0
        && instrument.samples.len() == 1
}

/// Whether a sample has its numbers and frames.
fn has_frames(sample: &Sample) -> bool {
    sample.name == *b"one sample............"
        && (sample.volume, sample.panning, sample.wide) == (64, 128, false)
        && (sample.finetune, sample.relative) == (0, 0)
        && (sample.loop_kind, sample.loop_start, sample.loop_len) == (0, 0, 0)
        && sample.frames.as_slice() == [64, 64, 64, 64].as_slice()
}

/// Whether a song has these parts, one of each.
fn has_parts(song: &Module) -> bool {
    song.patterns.len() == 1
        && song.instruments.len() == 1
        && song
            .patterns
            .get(0)
            .is_some_and(|pattern| has_note(pattern))
        && song.instruments.get(0).is_some_and(|instrument| {
            is_flat(instrument)
                && instrument
                    .samples
                    .get(0)
                    .is_some_and(|sample| has_frames(sample))
        })
}

/// The bytes of the song of one note, and whether its header and its parts are read.
fn one_note(alloc: Global) -> Result<(usize, bool, bool), AllocError> {
    let bytes = one_note_song(alloc)?;
    let Ok(song) = read_xm(alloc, &bytes) else {
        return Ok((bytes.len(), false, false));
    };
    Ok((bytes.len(), has_header(&song), has_parts(&song)))
}

#[test]
fn the_song_of_one_note_has_782_bytes_and_gives_each_field(rt: HostRuntime) -> Result<(), Fail> {
    assert!(rt; one_note(rt.alloc())? == (782, true, true));
    Ok(())
}
