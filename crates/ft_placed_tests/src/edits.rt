//! Lines of a script on the words of two songs.

use ft_image::{SliceWords, place};
use ft_lines::read_edit;
use ft_placed::{dropped_at, drops, fault_in, reach_in};
use ft_songs::{instrument_of, one_note_module, sample_of};
use ft_types::{Items, Module, blocks, valid};
use std::alloc::{AllocError, Global};
use std::test::Fail;

/// What an edit drops; nothing where it is refused.
type Row = (&'static [u8], &'static [u16]);

/// On a song of two channels, with one pattern of 64 rows and one sample of four frames: song root
/// 0, pattern root 1, its body 2, instrument root 3, sample root 4, index 5, body 6.
static SMALL: [Row; 29] = [
    (b"cell 0 0 0 49 1 0 0 0", &[0, 1, 2]),
    (b"cell 0 63 1 49 1 0 0 0", &[0, 1, 2]),
    (b"cell 1 0 0 49 1 0 0 0", &[]),
    (b"cell 0 64 0 49 1 0 0 0", &[]),
    (b"cell 0 0 2 49 1 0 0 0", &[]),
    (b"rows 0 256", &[0, 1, 2]),
    (b"insrow 0 64", &[]),
    (b"copy 0 0 0 1 1 0 1 1", &[0, 1, 2]),
    (b"order 0 7", &[0]),
    (b"order 1 7", &[]),
    (b"delpat", &[0, 1, 2]),
    (b"newpat 1", &[0]),
    (b"newins", &[0]),
    (b"clearins 1", &[0, 3, 4, 5, 6]),
    (b"clearins 2", &[]),
    (b"insname 1 41", &[0, 3]),
    (b"newsmp 1", &[0, 3]),
    (b"newsmp 2", &[]),
    (b"delsmp 1", &[0, 3, 4, 5, 6]),
    (b"smpname 1 0 41", &[0, 3, 4]),
    (b"smpname 1 1 41", &[]),
    (b"loop 1 0 1 0 4", &[0, 3, 4]),
    (b"loop 1 0 1 1 4", &[]),
    (b"paste 1 0 4 0001", &[0, 3, 4, 5, 6]),
    (b"paste 1 0 5 0001", &[]),
    (b"cut 1 0 0 4", &[0, 3, 4, 5, 6]),
    (b"cut 1 0 0 5", &[]),
    (b"reverse 1 0 2 2", &[0, 3, 4]),
    (b"bits 1 0 16", &[0, 3, 4, 5, 6]),
];

/// On the same song with 2,500 frames in its sample, whose bodies are 6, 7 and 8.
static LONG: [Row; 10] = [
    (b"cut 1 0 0 100", &[0, 3, 4, 5, 6, 7, 8]),
    (b"cut 1 0 1024 2500", &[0, 3, 4, 5, 7, 8]),
    (b"cut 1 0 2048 2048", &[0, 3, 4, 5, 8]),
    (b"cut 1 0 2500 2501", &[]),
    (b"paste 1 0 2048 0001", &[0, 3, 4, 5, 8]),
    (b"reverse 1 0 1024 1025", &[0, 3, 4, 5, 7]),
    (b"scale 1 0 1023 1025 1 2", &[0, 3, 4, 5, 6, 7]),
    (b"scale 1 0 2048 2048 1 2", &[0, 3, 4]),
    (b"delsmp 1", &[0, 3, 4, 5, 6, 7, 8]),
    (b"clearins 1", &[0, 3, 4, 5, 6, 7, 8]),
];

/// The frames of the longer sample.
static FRAMES: [i16; 2500] = [1; 2500];

/// Whether these are the segments that the edit of a line drops, of the song in these words.
fn drops_these(alloc: Global, words: &[u64], line: &[u8], want: &[u16]) -> bool {
    let Ok(Some(timed)) = read_edit(alloc, line) else {
        return false;
    };
    let mut view = SliceWords { words };
    if fault_in(&mut view, 0, &timed.edit).is_some() {
        return want.is_empty();
    }
    let reach = reach_in(&mut view, 0, &timed.edit);
    let count = drops(&mut view, 0, reach);
    for k in 0..count {
        if dropped_at(&mut view, 0, reach, k) != want.get(k as usize).copied() {
            return false;
        }
    }
    count as usize == want.len() && dropped_at(&mut view, 0, reach, count).is_none()
}

/// The line of a table that drops others, or its length.
fn dropped_by(alloc: Global, song: &Module, rows: &[Row]) -> usize {
    if !valid(song) || blocks(song) > 65_535 {
        return rows.len() + 1;
    }
    let Ok(image) = place(alloc, song) else {
        return rows.len() + 1;
    };
    for (at, (line, want)) in rows.iter().enumerate() {
        if !drops_these(alloc, image.words(), line, want) {
            return at;
        }
    }
    rows.len()
}

/// The small song with these frames in its sample.
fn longer(alloc: Global) -> Result<Module, AllocError> {
    let instrument = instrument_of(alloc, sample_of(alloc, &FRAMES)?)?;
    Ok(Module {
        instruments: Items::from_vec(vec![in alloc; instrument]?),
        ..one_note_module(alloc)?
    })
}

#[test]
fn each_kind_drops_what_it_touches(rt: HostRuntime) -> Result<(), Fail> {
    let song = one_note_module(rt.alloc())?;
    assert!(rt; dropped_by(rt.alloc(), &song, &SMALL) == SMALL.len());
    Ok(())
}

#[test]
fn frames_drop_the_bodies_that_change(rt: HostRuntime) -> Result<(), Fail> {
    let song = longer(rt.alloc())?;
    assert!(rt; dropped_by(rt.alloc(), &song, &LONG) == LONG.len());
    Ok(())
}
