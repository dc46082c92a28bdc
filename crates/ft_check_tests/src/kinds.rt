//! What each kind of edit makes of the song: its canonical bytes at some places.

use crate::lines::{Answer, answered};
use crate::song::song;
use ft_types::{Module, valid};
use ft_xmwrite::write_xm;
use std::alloc::{AllocError, Global};
use std::test::Fail;

/// Bytes at a place of the file. The header ends at 336, the pattern's data begin at 345, the
/// instrument at 475, its sample's header at 738 and the frames at 778.
type At = (usize, &'static [u8]);

/// An empty cell, and the note of the first cell, as they are written.
const E: u8 = 0x80;

/// Edits of patterns and of the song, each of the song of before.
static SONG: [(&[u8], &[At]); 24] = [
    (
        b"cell 0 1 1 97 2 3 4 5",
        &[(343, &[134, 0]), (350, &[97, 2, 3, 4, 5, E])],
    ),
    (b"cell 0 0 0 0 0 0 0 0", &[(343, &[0, 0])]),
    (b"rows 0 1", &[(341, &[1, 0, 4, 0])]),
    (b"rows 0 256", &[(341, &[0, 1, 2, 2])]),
    (b"insrow 0 0", &[(341, &[64, 0, 130, 0, E, E, 0x83, 49, 1])]),
    (b"delrow 0 0", &[(341, &[64, 0, 0, 0])]),
    (b"delrow 0 63", &[(341, &[64, 0, 130, 0, 0x83, 49, 1])]),
    (b"clear 0 0 0 1 1", &[(341, &[64, 0, 0, 0])]),
    (b"clear 0 0 1 64 1", &[(341, &[64, 0, 130, 0, 0x83, 49, 1])]),
    (b"transpose 0 0 0 64 2 47", &[(345, &[0x83, 96, 1])]),
    (b"transpose 0 0 0 64 2 48", &[(345, &[0x83, 49, 1])]),
    (b"transpose 0 0 0 1 1 -48", &[(345, &[0x83, 1, 1])]),
    (b"transpose 0 0 0 1 1 -49", &[(345, &[0x83, 49, 1])]),
    (
        b"copy 0 0 0 1 1 0 1 1",
        &[(345, &[0x83, 49, 1, E, E, 0x83, 49, 1])],
    ),
    (b"order 1 255", &[(80, &[0, 255, 0])]),
    (b"insorder 2 7", &[(64, &[3, 0, 1, 0]), (80, &[0, 0, 7])]),
    (b"insorder 0 7", &[(64, &[3, 0, 1, 0]), (80, &[7, 0, 0])]),
    (b"delorder 0", &[(64, &[1, 0, 0, 0])]),
    (b"restart 0", &[(66, &[0, 0])]),
    (b"tempo 31", &[(76, &[31, 0])]),
    (b"bpm 255", &[(78, &[255, 0])]),
    (b"title 4d7900ff", &[(17, &[0x4d, 0x79, 0, 0xff, 0])]),
    (
        b"newpat 2",
        &[(70, &[2, 0]), (475, &[9, 0, 0, 0, 0, 2, 0, 0, 0])],
    ),
    (b"delpat", &[(70, &[0, 0]), (336, &[7, 1, 0, 0])]),
];

/// Edits of instruments, samples and frames.
static SAMPLES: [(&[u8], &[At]); 29] = [
    (b"newins", &[(72, &[2, 0]), (782, &[29, 0, 0, 0])]),
    (b"clearins 1", &[(475, &[29, 0, 0, 0]), (502, &[0, 0])]),
    (b"insname 1 6269", &[(479, &[0x62, 0x69, 0])]),
    (b"map 1 95 15", &[(602, &[0, 15])]),
    (
        b"env 1 0 12 11 10 9 7",
        &[(700, &[12, 0, 11, 10, 9, 0, 0, 0, 7, 0])],
    ),
    (
        b"env 1 1 12 11 10 9 7",
        &[(700, &[0, 12, 0, 0, 0, 11, 10, 9, 0, 7])],
    ),
    (b"point 1 0 11 513 64", &[(648, &[1, 2, 64, 0, 0, 0])]),
    (b"point 1 1 0 1 2", &[(650, &[0, 0, 1, 0, 2, 0, 0])]),
    (b"vib 1 3 255 15 63", &[(710, &[3, 255, 15, 63])]),
    (b"fade 1 4660", &[(714, &[0x34, 0x12])]),
    (
        b"newsmp 1",
        &[
            (502, &[2, 0]),
            (778, &[0, 0, 0, 0]),
            (790, &[64, 0, 0, 128]),
        ],
    ),
    (b"delsmp 1", &[(475, &[29, 0, 0, 0]), (502, &[0, 0])]),
    (b"smpname 1 0 6b", &[(756, &[0x6b, 0])]),
    (b"smp 1 0 48 -1 -12 7", &[(750, &[48, 255, 1, 7, 244])]),
    (
        b"loop 1 0 2 1 3",
        &[(742, &[1, 0, 0, 0, 3, 0, 0, 0]), (752, &[2])],
    ),
    (
        b"loop 1 0 0 9 9",
        &[(742, &[0, 0, 0, 0, 0, 0, 0, 0]), (752, &[0])],
    ),
    (
        b"cut 1 0 1 3",
        &[(738, &[2, 0, 0, 0]), (752, &[0]), (778, &[64, 200])],
    ),
    (
        b"cut 1 0 0 1",
        &[(738, &[3, 0, 0, 0, 2, 0, 0, 0, 1, 0, 0, 0]), (752, &[1])],
    ),
    (
        b"cut 1 0 4 4",
        &[(738, &[4, 0, 0, 0]), (778, &[64, 224, 240, 248])],
    ),
    (
        b"paste 1 0 4 ff80",
        &[(738, &[5, 0, 0, 0]), (778, &[64, 224, 240, 248, 120])],
    ),
    (
        b"paste 1 0 0 00010002",
        &[(738, &[6, 0, 0, 0]), (778, &[1, 1, 62, 224, 240, 248])],
    ),
    (
        b"paste 1 0 2 0000",
        &[(738, &[5, 0, 0, 0]), (778, &[64, 224, 224, 16, 248])],
    ),
    (b"reverse 1 0 0 4", &[(778, &[8, 8, 16, 32])]),
    (b"reverse 1 0 1 3", &[(778, &[64, 208, 16, 232])]),
    (b"scale 1 0 0 4 -1 2", &[(778, &[224, 16, 8, 4])]),
    (b"scale 1 0 0 4 3 1", &[(778, &[127, 225, 208, 232])]),
    (b"scale 1 0 1 2 0 1", &[(778, &[64, 192, 16, 248])]),
    (
        b"bits 1 0 8",
        &[(738, &[4, 0, 0, 0]), (778, &[64, 224, 240, 248])],
    ),
    (
        b"bits 1 0 16",
        &[
            (738, &[8, 0, 0, 0, 4, 0, 0, 0, 4, 0, 0, 0]),
            (752, &[0x11]),
            (778, &[0, 64, 0, 224, 0, 240, 0, 248]),
        ],
    ),
];

/// Whether a file has these bytes at a place.
fn has(file: &[u8], at: &At) -> bool {
    match file.get(at.0..) {
        Some(rest) => rest.starts_with(at.1),
        None => false,
    }
}

/// Whether the canonical bytes of a valid song are these at some places.
fn shows(alloc: Global, song: &Module, places: &[At]) -> bool {
    if !valid(song) {
        return false;
    }
    match write_xm(alloc, song) {
        Ok(file) => places.iter().all(|at| has(&file, at)),
        Err(_) => false,
    }
}

/// Whether the edit of a line is done on the song, and makes these bytes of it.
fn makes(alloc: Global, row: &(&[u8], &[At])) -> Result<bool, AllocError> {
    let mut song = song(alloc)?;
    Ok(answered(alloc, &mut song, row.0) == Answer::Done && shows(alloc, &song, row.1))
}

#[test]
fn edits_of_patterns_and_songs_make_these_bytes(rt: HostRuntime) -> Result<(), Fail> {
    for row in SONG.iter() {
        assert!(rt; makes(rt.alloc(), row)?, "{:?}", row.0);
    }
    Ok(())
}

#[test]
fn edits_of_samples_make_these_bytes(rt: HostRuntime) -> Result<(), Fail> {
    for row in SAMPLES.iter() {
        assert!(rt; makes(rt.alloc(), row)?, "{:?}", row.0);
    }
    Ok(())
}
