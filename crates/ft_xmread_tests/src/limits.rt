//! As many parts as the format has room for.

use ft_songs::{Splice, bare_instrument, changed, one_note_with};
use ft_xmread::read_xm;
use std::alloc::{AllocError, Global};
use std::test::Fail;

/// How many instruments are read of the song of one note with 127 more, all without samples.
fn instruments_read(alloc: Global) -> Result<Option<usize>, AllocError> {
    let count = Splice {
        from: 72,
        to: 74,
        bytes: &[128, 0],
    };
    let mut song = one_note_with(alloc, &[count])?;
    let bare = bare_instrument(alloc, 29)?;
    for _ in 0..127 {
        song.extend_from_slice(&bare)?;
    }
    Ok(
        read_xm(alloc, &song)
            .ok()
            .map(|song| song.instruments.len()),
    )
}

/// How many patterns are read of the song of one note with 255 more, all empty, and the rows of the
/// last.
fn patterns_read(alloc: Global) -> Result<Option<(usize, u16)>, AllocError> {
    let count = Splice {
        from: 70,
        to: 72,
        bytes: &[0, 1],
    };
    let song = one_note_with(alloc, &[count])?;
    let patterns = [9, 0, 0, 0, 0, 0, 1, 0, 0].repeat(alloc, 255)?;
    let more = Splice {
        from: 475,
        to: 475,
        bytes: &patterns,
    };
    let song = changed(alloc, &song, &[more])?;
    Ok(
        read_xm(alloc, &song).ok().map(|song| {
            (
                song.patterns.len(),
                song.patterns.get(255).map_or(0, |pattern| pattern.rows),
            )
        }),
    )
}

#[test]
fn as_many_as_the_limits_say_are_read(rt: HostRuntime) -> Result<(), Fail> {
    assert_eq!(rt; instruments_read(rt.alloc())?, Some(128));
    assert!(rt; patterns_read(rt.alloc())? == Some((256, 256)));
    Ok(())
}
