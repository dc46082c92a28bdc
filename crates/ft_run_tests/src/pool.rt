//! Songs in pools of that many segments.

use crate::runs::{End, end_of, is_refused};
use ft_run::Status;
use ft_songs::{Head, header, pattern};
use std::alloc::{AllocError, Global};
use std::test::Fail;

/// A song of patterns alone: one segment for itself and two for each of them.
const PATTERNS: Head<'static> = Head {
    orders: &[0],
    restart: 0,
    tempo: 6,
    bpm: 125,
    channels: 1,
    patterns: 32,
    instruments: 0,
};

/// A song of 65 blocks: 32 patterns of 64 empty rows.
fn small_song(alloc: Global) -> Result<Vec<u8>, AllocError> {
    let mut song = header(alloc, PATTERNS)?;
    for _ in 0..32 {
        song.extend_from_slice(&pattern(alloc, &[(0, 0); 64])?)?;
    }
    Ok(song)
}

fn too_small(need: u32, segments: u16) -> Status {
    Status::PoolSmall { need, segments }
}

/// Words that the song of 65 blocks is too large for, and the segments of their pool.
static SMALL: [(&str, u16); 2] = [
    ("step s w l --segments=64", 64),
    ("step s w l --segments 64 --rate=8000 --seconds=1", 64),
];

#[test]
fn a_pool_that_is_too_small_is_told_and_nothing_is_written(rt: HostRuntime) -> Result<(), Fail> {
    let song = small_song(rt.alloc())?;
    for (text, segments) in SMALL.iter() {
        let told = too_small(65, *segments);
        assert!(rt; is_refused(rt.alloc(), text, &song, told), "{text}");
    }
    Ok(())
}

/// Whether the words end so on a song, with that many bytes of sound and no ledger.
fn ends_so(alloc: Global, text: &str, song: &[u8], status: Status, wav: u64) -> bool {
    match end_of(alloc, text, song) {
        Ok(
            End {
                status: found,
                wav: bytes,
                ledger,
                ..
            },
        ) => found == status && bytes == wav && ledger == 0,
        Err(_) => false,
    }
}

/// Words whose pool has just room for it, or much.
static ENOUGH: [&str; 2] = [
    "step s w l --rate=8000 --seconds=1 --segments=65",
    "step s w l --rate=8000 --seconds=1",
];

#[test]
fn a_pool_of_just_enough_segments_is_played_from(rt: HostRuntime) -> Result<(), Fail> {
    let song = small_song(rt.alloc())?;
    for text in ENOUGH.iter() {
        assert!(rt;
            ends_so(rt.alloc(), text, &song, Status::Done, 32_044),
            "{text}"
        );
    }
    Ok(())
}
