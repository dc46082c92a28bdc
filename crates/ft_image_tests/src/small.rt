//! A song of seven segments, word by word, and a second image behind it.

use crate::placed::{image_of, song_of};
use ft_image::{
    SliceWords, cell, envelope, frame, head, order, rows, sample_head, sample_root, shape,
};
use ft_songs::{EMPTY, FLAT, NOTE, STILL};
use ft_types::{Shape, SongHead};
use std::alloc::Global;
use std::test::Fail;

/// Segment, place and word: the song root, pattern root, pattern body, instrument root, sample
/// root, index and sample body.
static WORDS: [(usize, usize, u64); 25] = [
    (0, 0, 0x7D06_0102_0000_0001),
    (0, 1, 0x0000_0000_0001_0001),
    (0, 2, 0x7420_676E_6F73_2061),
    (0, 4, 0x0000_0000_2068_7469),
    (0, 8, 0),
    (0, 40, 1),
    (0, 103, 0),
    (0, 104, 3),
    (1, 0, 64),
    (1, 1, 2),
    (1, 2, 0),
    (2, 0, 0x0131),
    (2, 1, 0),
    (3, 0, 1),
    (3, 3, 0x7473_6E69_2065_6E6F),
    (3, 30, 4),
    (4, 0, 400),
    (4, 1, 0x8040_0000_0000_0000),
    (4, 3, 0x706D_6173_2065_6E6F),
    (4, 16, 5),
    (5, 0, 6),
    (5, 1, 0),
    (6, 0, 0x0040_0040_FFC0_0040),
    (6, 99, 0x0040_0040_FFC0_0040),
    (6, 100, 0),
];

/// Where ids are in those segments.
static IDS: [(usize, usize); 6] = [(0, 40), (0, 104), (1, 1), (3, 30), (4, 16), (5, 0)];

/// The words of a song of 400 frames, which go 64, -64, 64, 64 again and again.
fn small_words(alloc: Global) -> Result<Vec<u64>, Fail> {
    let mut frames = Vec::new(alloc);
    for _ in 0..100 {
        frames.extend_from_slice(&[64, -64, 64, 64])?;
    }
    let song = song_of(alloc, &frames)?;
    match image_of(alloc, &song) {
        Some(image) => Ok(image.words().to_vec(alloc)?),
        None => Ok(Vec::new(alloc)),
    }
}

/// How many of the rows of `WORDS` the words have.
fn right_words(words: &[u64]) -> usize {
    let mut right = 0usize;
    for (segment, place, word) in WORDS.iter() {
        if words.get(*segment * 256 + *place) == Some(word) {
            right = right.saturating_add(1);
        }
    }
    right
}

/// Those words, and behind them the same with 7 added to each id.
fn two_images(alloc: Global) -> Result<Vec<u64>, Fail> {
    let first = small_words(alloc)?;
    let mut words = small_words(alloc)?;
    words.extend_from_slice(&first)?;
    for (segment, place) in IDS.iter() {
        if let Some(word) = words.get_mut((7 + *segment) * 256 + *place) {
            *word = word.saturating_add(7);
        }
    }
    Ok(words)
}

/// Whether the song of a root, whose sample has another root, is the small one.
fn is_small(words: &[u64], root: u16, sample: u16) -> bool {
    let mut view = SliceWords { words };
    let told = SongHead {
        length: 1,
        restart: 0,
        tempo: 6,
        bpm: 125,
        linear: true,
    };
    head(&mut view, root) == told
        && order(&mut view, root, 0) == 0
        && sample_root(&mut view, root, 1, 48) == Some(sample)
        && sample_root(&mut view, root, 2, 48) == None
}

/// Whether rows and cells of a root are those of the small song, also where it has none.
fn has_small_cells(words: &[u64], root: u16) -> bool {
    let mut view = SliceWords { words };
    rows(&mut view, root, 0) == 64
        && rows(&mut view, root, 1) == 64
        && cell(&mut view, root, 0, 0, 0) == NOTE
        && cell(&mut view, root, 0, 64, 0) == EMPTY
        && cell(&mut view, root, 1, 0, 0) == EMPTY
}

/// Whether the instruments of a root are those of the small song.
fn has_small_instruments(words: &[u64], root: u16) -> bool {
    let mut view = SliceWords { words };
    let still = Shape {
        vibrato: STILL,
        fadeout: 0,
    };
    envelope(&mut view, root, 1, 0) == Some(FLAT)
        && envelope(&mut view, root, 0, 0) == None
        && shape(&mut view, root, 1) == Some(still)
        && shape(&mut view, root, 2) == None
}

/// Whether the sample of a root is the small song's.
fn is_small_sample(words: &[u64], sample: u16) -> bool {
    let mut view = SliceWords { words };
    sample_head(&mut view, sample).frames == 400
        && frame(&mut view, sample, 1) == -64
        && frame(&mut view, sample, 398) == 64
        && frame(&mut view, sample, 397) == -64
}

#[test]
fn a_song_of_seven_segments_has_1_792_words_from_root_0(rt: HostRuntime) -> Result<(), Fail> {
    let words = small_words(rt.alloc())?;
    assert_eq!(rt; words.len(), 1_792);
    assert_eq!(rt; right_words(&words), 25);
    Ok(())
}

#[test]
fn two_images_in_one_pool_show_the_same_song(rt: HostRuntime) -> Result<(), Fail> {
    let words = two_images(rt.alloc())?;
    assert!(rt; is_small(&words, 0, 4) && is_small(&words, 7, 11));
    assert!(rt; has_small_cells(&words, 7) && has_small_instruments(&words, 7));
    assert!(rt; is_small_sample(&words, 4) && is_small_sample(&words, 11));
    Ok(())
}
