//! Songs that are refused: nothing is written, not even an empty piece.

use crate::runs::{SECOND, end_of, is_refused};
use ft_run::{SongFault, Status};
use ft_songs::{one_note_song, silent_song};
use ft_xmread::XmFault;
use std::alloc::{AllocError, Global};
use std::test::Fail;

/// The fields of the song of 336 bytes: where each begins, and its bytes.
static FIELDS: [(u64, u32); 15] = [
    (0, 17),
    (17, 20),
    (37, 1),
    (38, 20),
    (58, 2),
    (60, 4),
    (64, 2),
    (66, 2),
    (68, 2),
    (70, 2),
    (72, 2),
    (74, 2),
    (76, 2),
    (78, 2),
    (80, 256),
];

/// The fault of a file that was cut after that many bytes of the silent song.
fn short_of(len: u64) -> Status {
    match FIELDS
        .iter()
        .find(|(at, need)| len < at.saturating_add(u64::from(*need)))
    {
        Some((at, need)) => fault(XmFault::Short {
            at: *at,
            need: *need,
        }),
        None => Status::Done,
    }
}

fn fault(fault: XmFault) -> Status {
    Status::Song(SongFault::Xm(fault))
}

/// Whether the front of a song of that many bytes is refused so.
fn is_cut(alloc: Global, song: &[u8], len: usize, status: Status) -> bool {
    match song.get(..len) {
        Some(front) => is_refused(alloc, SECOND, front, status),
        None => false,
    }
}

#[test]
fn each_shorter_file_ends_within_a_field(rt: HostRuntime) -> Result<(), Fail> {
    let song = silent_song(rt.alloc())?;
    for len in 0..336u16 {
        let short = short_of(u64::from(len));
        assert!(rt;
            is_cut(rt.alloc(), &song, usize::from(len), short),
            "cut to {len}"
        );
    }
    Ok(())
}

/// The fields that the song of one note lacks where it is cut.
static CUTS: [(usize, XmFault); 4] = [
    (0, XmFault::Short { at: 0, need: 17 }),
    (59, XmFault::Short { at: 58, need: 2 }),
    (400, XmFault::Short { at: 345, need: 130 }),
    (780, XmFault::Short { at: 778, need: 4 }),
];

#[test]
fn a_cut_song_tells_the_field_that_it_lacks(rt: HostRuntime) -> Result<(), Fail> {
    let song = one_note_song(rt.alloc())?;
    for (len, short) in CUTS.iter() {
        assert!(rt;
            is_cut(rt.alloc(), &song, *len, fault(*short)),
            "cut to {len}"
        );
    }
    Ok(())
}

/// Other bytes at places of the song of one note, each of which makes another form of song: Amiga
/// periods, a key off, a volume byte that sets none, an effect, an envelope that is on, vibrato, a
/// loop, wide frames.
static FORMS: [&[(usize, u8)]; 8] = [
    &[(74, 0)],
    &[(346, 97)],
    &[(345, 0x86)],
    &[(345, 0x8A)],
    &[(708, 1)],
    &[(712, 1)],
    &[(746, 2), (752, 1)],
    &[(752, 16)],
];

/// The song of one note with other bytes at these places.
fn with_bytes(alloc: Global, places: &[(usize, u8)]) -> Result<Vec<u8>, AllocError> {
    let mut song = one_note_song(alloc)?;
    for (at, byte) in places {
        if let Some(place) = song.get_mut(*at) {
            *place = *byte;
        }
    }
    Ok(song)
}

/// Whether the song with these bytes is played to its end.
fn is_played_with(alloc: Global, places: &[(usize, u8)]) -> Result<bool, AllocError> {
    let end = end_of(alloc, SECOND, &with_bytes(alloc, places)?)?;
    Ok(end.status == Status::Done && end.wav == 32_044)
}

#[test]
fn each_form_of_song_is_played(rt: HostRuntime) {
    for places in FORMS.iter() {
        assert!(rt;
            is_played_with(rt.alloc(), places) == Ok(true),
            "{places:?}"
        );
    }
}

/// The song of one note with the byte at this place raised by 1.
fn raised(alloc: Global, at: usize) -> Result<Vec<u8>, AllocError> {
    let mut song = one_note_song(alloc)?;
    if let Some(byte) = song.get_mut(at) {
        *byte = byte.wrapping_add(1);
    }
    Ok(song)
}

/// Whether it is played to its end, or refused before anything is written, as no module just where
/// its identification is changed.
fn ends_well(alloc: Global, at: usize) -> Result<bool, AllocError> {
    let end = end_of(alloc, SECOND, &raised(alloc, at)?)?;
    Ok(match end.status {
        Status::Done => end.wav == 32_044,
        Status::Song(SongFault::Xm(XmFault::NotXm { at: found })) => {
            found == at as u64 && end.calls == 0
        }
        Status::Song(_) => end.calls == 0,
        _ => false,
    })
}

#[test]
fn each_changed_byte_is_refused_or_played(rt: HostRuntime) {
    for at in 0..782 {
        assert!(rt; ends_well(rt.alloc(), at) == Ok(true), "byte {at}");
    }
}
