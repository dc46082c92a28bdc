//! Samples of which one index can't name all bodies, or almost can't.

use crate::placed::{image_of, song_of};
use ft_image::{Image, SliceWords, frame, sample_head};
use std::alloc::Global;
use std::test::Fail;

/// Frames, segments of the song, a place, and the frame there.
static SAMPLES: [(u32, usize, u32, i16); 6] = [
    (983_041, 967, 983_040, -60),
    (983_041, 967, 982_999, 99),
    (1_049_600, 1_032, 1_049_599, 99),
    (1_049_600, 1_032, 1_048_576, 76),
    (1_049_600, 1_032, 1_048_575, 75),
    (1_049_600, 1_032, 1_023, -77),
];

/// The image of a song whose sample has that many frames: from -100 up to 99, again and again.
fn large_image(alloc: Global, frames: u32) -> Result<Option<Image>, Fail> {
    let mut all = Vec::new(alloc);
    for place in 0..frames {
        all.push((place % 200) as i16 - 100)?;
    }
    let song = song_of(alloc, &all)?;
    Ok(image_of(alloc, &song))
}

/// Whether the words are those of that many segments, and the sample of root 4 has that many frames
/// and such a frame.
fn is_right(words: &[u64], row: (u32, usize, u32, i16)) -> bool {
    let mut view = SliceWords { words };
    words.len() % 256 == 0
        && words.len() / 256 == row.1
        && sample_head(&mut view, 4).frames == row.0
        && frame(&mut view, 4, row.2) == row.3
}

/// How many rows of `SAMPLES` are right.
fn right_samples(alloc: Global) -> Result<u32, Fail> {
    let mut right = 0u32;
    for row in SAMPLES.iter() {
        if let Some(image) = large_image(alloc, row.0)? {
            if is_right(image.words(), *row) {
                right = right.saturating_add(1);
            }
        }
    }
    Ok(right)
}

#[test]
fn long_samples_have_several_indexes_and_each_frame(rt: HostRuntime) -> Result<(), Fail> {
    assert_eq!(rt; right_samples(rt.alloc())?, 6);
    Ok(())
}
