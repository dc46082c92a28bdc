//! The frames of a body after an edit, by lines of a script.

use ft_image::{Image, SliceWords, place};
use ft_lines::read_edit;
use ft_placed::sample_id;
use ft_smpedit::read_body;
use ft_songs::{instrument_of, one_note_module, sample_of};
use ft_types::{Edit, Items, Module, blocks, valid};
use std::alloc::{AllocError, Global};
use std::test::Fail;

/// The frames of a sample of 8 bits.
static FEW: [i16; 8] = [10, 20, -30, 40, 50, -60, 70, 80];

/// An edit of it, and the frames that it has then; 0 follows.
static SMALL: [(&[u8], &[i16]); 13] = [
    (b"cut 1 0 2 5", &[10, 20, -60, 70, 80]),
    (b"cut 1 0 0 8", &[]),
    (b"cut 1 0 3 3", &[10, 20, -30, 40, 50, -60, 70, 80]),
    (
        b"paste 1 0 0 00010002",
        &[1, 2, 10, 20, -30, 40, 50, -60, 70, 80],
    ),
    (
        b"paste 1 0 3 ff80",
        &[10, 20, -30, -128, 40, 50, -60, 70, 80],
    ),
    (b"paste 1 0 8 0007", &[10, 20, -30, 40, 50, -60, 70, 80, 7]),
    (b"reverse 1 0 0 8", &[80, 70, -60, 50, 40, -30, 20, 10]),
    (b"reverse 1 0 1 4", &[10, 40, -30, 20, 50, -60, 70, 80]),
    (b"scale 1 0 1 4 1 7", &[10, 2, -5, 5, 50, -60, 70, 80]),
    (
        b"scale 1 0 0 8 -3 1",
        &[-30, -60, 90, -120, -128, 127, -128, -128],
    ),
    (
        b"bits 1 0 16",
        &[2560, 5120, -7680, 10240, 12800, -15360, 17920, 20480],
    ),
    (b"bits 1 0 8", &[10, 20, -30, 40, 50, -60, 70, 80]),
    (b"loop 1 0 1 0 8", &[10, 20, -30, 40, 50, -60, 70, 80]),
];

/// The frames of a sample of 16 bits.
static WIDE_FEW: [i16; 4] = [1000, -1, 255, -257];

/// An edit of it, and the frames that it has then; 0 follows.
static WIDE: [(&[u8], &[i16]); 4] = [
    (b"bits 1 0 8", &[3, -1, 0, -2]),
    (b"bits 1 0 16", &[1000, -1, 255, -257]),
    (b"scale 1 0 0 3 100 1", &[32767, -100, 25500, -257]),
    (b"paste 1 0 1 8000", &[1000, -32768, -1, 255, -257]),
];

/// Edits of a sample of 2,500 frames, of which frame `i` is `i mod 100`: a body, a place in it, and
/// the frame that is there then.
static LONG: [(&[u8], u32, usize, i16); 18] = [
    (b"cut 1 0 0 150", 0, 0, 50),
    (b"cut 1 0 0 150", 1, 0, 74),
    (b"cut 1 0 0 150", 1, 1023, 97),
    (b"cut 1 0 0 150", 2, 301, 99),
    (b"cut 1 0 0 150", 2, 302, 0),
    (b"paste 1 0 1000 0001ffff", 0, 999, 99),
    (b"paste 1 0 1000 0001ffff", 0, 1001, -1),
    (b"paste 1 0 1000 0001ffff", 1, 0, 22),
    (b"paste 1 0 1000 0001ffff", 2, 453, 99),
    (b"paste 1 0 1000 0001ffff", 2, 454, 0),
    (b"reverse 1 0 500 2100", 0, 500, 99),
    (b"reverse 1 0 500 2100", 1, 0, 75),
    (b"reverse 1 0 500 2100", 2, 50, 1),
    (b"reverse 1 0 500 2100", 2, 53, 1),
    (b"bits 1 0 16", 2, 10, 14848),
    (b"scale 1 0 1023 1025 1 2", 0, 1023, 11),
    (b"scale 1 0 1023 1025 1 2", 1, 0, 12),
    (b"scale 1 0 1023 1025 1 2", 1, 1, 25),
];

/// The song of one note with these frames in its sample, of 8 bits, or of 16.
fn song_of(alloc: Global, frames: &[i16], wide: bool) -> Result<Module, AllocError> {
    let mut sample = sample_of(alloc, frames)?;
    sample.wide = wide;
    let instrument = instrument_of(alloc, sample)?;
    Ok(Module {
        instruments: Items::from_vec(vec![in alloc; instrument]?),
        ..one_note_module(alloc)?
    })
}

/// Whether a body has these frames, and 0 behind them.
fn has_frames(body: &[i16; 1024], frames: &[i16]) -> bool {
    for (at, frame) in body.iter().enumerate() {
        if *frame != frames.get(at).copied().unwrap_or(0) {
            return false;
        }
    }
    true
}

/// The body of a number of the first sample in words after an edit, of a sample of that many frames
/// of 8 bits, or of 16.
fn body_of(words: &[u64], count: u32, wide: bool, edit: &Edit, n: u32) -> Option<[i16; 1024]> {
    let mut view = SliceWords { words };
    let sample = sample_id(&mut view, 0, 0, 0)?;
    let mut body = [0; 1024];
    read_body(&mut view, sample, count, wide, edit, n, &mut body);
    Some(body)
}

/// The row of the table whose edit gives other frames, or its length.
fn read(alloc: Global, words: &[u64], count: u32, wide: bool, rows: &[(&[u8], &[i16])]) -> usize {
    for (at, (line, want)) in rows.iter().enumerate() {
        let Ok(Some(timed)) = read_edit(alloc, line) else {
            return at;
        };
        let Some(body) = body_of(words, count, wide, &timed.edit, 0) else {
            return at;
        };
        if !has_frames(&body, want) {
            return at;
        }
    }
    rows.len()
}

/// The row of the table whose edit gives another frame, or its length.
fn look(alloc: Global, words: &[u64], rows: &[(&[u8], u32, usize, i16)]) -> usize {
    for (at, (line, n, place, want)) in rows.iter().enumerate() {
        let Ok(Some(timed)) = read_edit(alloc, line) else {
            return at;
        };
        let Some(body) = body_of(words, 2500, false, &timed.edit, *n) else {
            return at;
        };
        if body.get(*place).copied() != Some(*want) {
            return at;
        }
    }
    rows.len()
}

/// The words of a song of a sample of these frames, of 8 bits, or of 16.
fn image_of(alloc: Global, frames: &[i16], wide: bool) -> Option<Image> {
    let song = song_of(alloc, frames, wide).ok()?;
    if !valid(&song) || blocks(&song) > 65_535 {
        return None;
    }
    place(alloc, &song).ok()
}

/// The rows of the small table that are as they must be, from the first on.
fn small_rows(alloc: Global) -> usize {
    match image_of(alloc, &FEW, false) {
        Some(image) => read(alloc, image.words(), 8, false, &SMALL),
        None => 0,
    }
}

/// The rows of the table of 16 bits that are as they must be, from the first on.
fn wide_rows(alloc: Global) -> usize {
    match image_of(alloc, &WIDE_FEW, true) {
        Some(image) => read(alloc, image.words(), 4, true, &WIDE),
        None => 0,
    }
}

/// The rows of the long table that are as they must be, from the first on.
fn long_rows(alloc: Global) -> usize {
    let mut frames = [0; 2500];
    for (at, frame) in frames.iter_mut().enumerate() {
        *frame = (at % 100) as i16;
    }
    match image_of(alloc, &frames, false) {
        Some(image) => look(alloc, image.words(), &LONG),
        None => 0,
    }
}

#[test]
fn a_body_has_the_frames_of_the_edited_sample(rt: HostRuntime) -> Result<(), Fail> {
    assert!(rt; small_rows(rt.alloc()) == SMALL.len());
    assert!(rt; wide_rows(rt.alloc()) == WIDE.len());
    Ok(())
}

#[test]
fn each_body_of_a_longer_sample_has_its_frames(rt: HostRuntime) -> Result<(), Fail> {
    assert!(rt; long_rows(rt.alloc()) == LONG.len());
    Ok(())
}
