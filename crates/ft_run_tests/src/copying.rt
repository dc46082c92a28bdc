//! Songs that are copied: whatever their spelling, the canonical bytes come out.

use crate::runs::{SURE, is_refused, outcome_of};
use ft_run::{SongFault, Status};
use ft_songs::{Splice, bare_instrument, one_note_song, one_note_with};
use ft_xmread::XmFault;
use std::alloc::{AllocError, Global};
use std::test::Fail;

/// Changes of the song of one note, and the changes of its copy. Amiga periods are copied as they
/// are; a cell that is spelled whole, and not behind a mask, is masked again.
static COPIES: [(&[Splice], &[Splice]); 3] = [
    (&[], &[]),
    (
        &[Splice {
            from: 74,
            to: 75,
            bytes: &[0],
        }],
        &[Splice {
            from: 74,
            to: 75,
            bytes: &[0],
        }],
    ),
    (
        &[
            Splice {
                from: 345,
                to: 348,
                bytes: &[0x31, 1, 0, 0, 0],
            },
            Splice {
                from: 343,
                to: 344,
                bytes: &[132],
            },
        ],
        &[],
    ),
];

/// Whether a song with the first changes is copied as one with the others.
fn is_copied(alloc: Global, from: &[Splice], to: &[Splice]) -> Result<bool, AllocError> {
    let outcome = outcome_of(alloc, "copy song out", &one_note_with(alloc, from)?, SURE)?;
    let wanted = one_note_with(alloc, to)?;
    Ok(
        outcome.status == Status::Done
            && outcome.wav.bytes() == wanted.as_slice()
            && outcome.ledger.bytes().is_empty(),
    )
}

#[test]
fn songs_are_copied_as_their_canonical_bytes(rt: HostRuntime) {
    for (n, (from, to)) in COPIES.iter().enumerate() {
        assert!(rt; is_copied(rt.alloc(), from, to) == Ok(true), "copy {n}");
    }
}

/// The song of one note, and an instrument without samples whose head has this size.
fn with_bare_instrument(alloc: Global, size: u8) -> Result<Vec<u8>, AllocError> {
    let more = Splice {
        from: 72,
        to: 73,
        bytes: &[2],
    };
    let mut song = one_note_with(alloc, &[more])?;
    let bare = bare_instrument(alloc, size)?;
    song.extend_from_slice(&bare)?;
    Ok(song)
}

/// The size of the copy of such a song, and of the head of its last instrument.
fn copied_sizes(alloc: Global, size: u8) -> Result<(usize, Option<u8>), AllocError> {
    let song = with_bare_instrument(alloc, size)?;
    let outcome = outcome_of(alloc, "copy song out", &song, SURE)?;
    Ok((
        outcome.wav.bytes().len(),
        outcome.wav.bytes().get(782).copied(),
    ))
}

#[test]
fn heads_of_any_size_are_copied_as_the_same(rt: HostRuntime) {
    for size in [29, 33] {
        assert!(rt;
            copied_sizes(rt.alloc(), size) == Ok((811, Some(29))),
            "{size}"
        );
    }
}

#[test]
fn a_refused_song_is_not_copied(rt: HostRuntime) -> Result<(), Fail> {
    let mut song = one_note_song(rt.alloc())?;
    song.truncate(400);
    let short = Status::Song(SongFault::Xm(XmFault::Short { at: 345, need: 130 }));
    assert!(rt; is_refused(rt.alloc(), "copy song out", &song, short));
    Ok(())
}
