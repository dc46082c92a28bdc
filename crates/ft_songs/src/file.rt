//! Whole files.

use crate::part::{Head, header, instrument};
use std::alloc::{AllocError, Global};

/// The header of a sample of four frames, at full volume and without a loop: 40 bytes.
pub const SAMPLE_HEADER: &[u8; 40] =
    b"\x04\0\0\0\0\0\0\0\0\0\0\0\x40\0\0\x80\0\0one sample............";

/// One order and two channels, at tempo 6 and BPM 125.
const SILENT: Head = Head {
    orders: &[0],
    restart: 0,
    tempo: 6,
    bpm: 125,
    channels: 2,
    patterns: 0,
    instruments: 0,
};

/// A song of one order and two channels, with linear periods, tempo 6 and BPM 125, and without
/// patterns and instruments: 336 bytes.
pub fn silent_song(alloc: Global) -> Result<Vec<u8>, AllocError> {
    header(alloc, SILENT)
}

/// A song of one note, C-4 of instrument 1 in the first row of the first of two channels, and of
/// one sample of four frames: 782 bytes. The pattern is from 336, its cells from 345, the
/// instrument from 475, the header of its sample from 738 and the data from 778 to 782.
pub fn one_note_song(alloc: Global) -> Result<Vec<u8>, AllocError> {
    let head = Head {
        patterns: 1,
        instruments: 1,
        ..SILENT
    };
    let mut song = header(alloc, head)?;
    song.extend_from_slice(&[9, 0, 0, 0, 0, 64, 0, 130, 0, 0x83, 49, 1])?;
    song.extend_from_slice(&[0x80; 127])?;
    let part = instrument(alloc, 4, 0, 0)?;
    song.extend_from_slice(&part)?;
    Ok(song)
}
