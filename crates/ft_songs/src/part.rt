//! Parts of files: a header, a pattern, an instrument.

use std::alloc::{AllocError, Global};

/// The module name of each song here.
pub const NAME: &[u8; 20] = b"a song to test with ";

/// The tracker name of each song here.
pub const TRACKER: &[u8; 20] = b"made without tracker";

/// The instrument name of each instrument with samples.
pub const INSTRUMENT: &[u8; 22] = b"one instrument........";

/// The sample name of each sample.
pub const SAMPLE: &[u8; 22] = b"one sample............";

/// What is in the header of a song.
#[derive(Clone, Copy)]
pub struct Head<'a> {
    /// The orders; as many as the song is long, at most 255.
    pub orders: &'a [u8],
    /// Restart position.
    pub restart: u8,
    /// Default tempo.
    pub tempo: u8,
    /// Default BPM.
    pub bpm: u8,
    /// Number of channels.
    pub channels: u8,
    /// Number of patterns.
    pub patterns: u16,
    /// Number of instruments.
    pub instruments: u8,
}

/// Bytes 0 to 63: the identification, the names, the version and the header's size.
fn titles(alloc: Global) -> Result<Vec<u8>, AllocError> {
    let mut song = b"Extended Module: ".to_vec(alloc)?;
    song.extend_from_slice(NAME)?;
    song.extend_from_slice(&[0x1A])?;
    song.extend_from_slice(TRACKER)?;
    song.extend_from_slice(&[4, 1, 20, 1, 0, 0])?;
    Ok(song)
}

/// The header of a song with linear periods, and an order table of 256 bytes: 336 bytes.
pub fn header(alloc: Global, head: Head) -> Result<Vec<u8>, AllocError> {
    let mut song = titles(alloc)?;
    let length = u8::try_from(head.orders.len()).unwrap_or(0);
    song.extend_from_slice(&[length, 0, head.restart, 0, head.channels, 0])?;
    song.extend_from_slice(&head.patterns.to_le_bytes())?;
    song.extend_from_slice(&[head.instruments, 0, 1, 0, head.tempo, 0, head.bpm, 0])?;
    song.extend_from_slice(head.orders)?;
    song.resize(336, 0)?;
    Ok(song)
}

/// The cells of one channel, from the note and the instrument of each row.
fn cells(alloc: Global, rows: &[(u8, u8)]) -> Result<Vec<u8>, AllocError> {
    let mut cells = Vec::new(alloc);
    for (note, instrument) in rows {
        match (*note, *instrument) {
            (0, 0) => cells.push(0x80)?,
            (note, 0) => cells.extend_from_slice(&[0x81, note])?,
            (0, instrument) => cells.extend_from_slice(&[0x82, instrument])?,
            (note, instrument) => cells.extend_from_slice(&[0x83, note, instrument])?,
        }
    }
    Ok(cells)
}

/// A pattern of one channel, from the note and the instrument of each of its rows. One of empty
/// cells has no data.
pub fn pattern(alloc: Global, rows: &[(u8, u8)]) -> Result<Vec<u8>, AllocError> {
    let mut cells = cells(alloc, rows)?;
    if cells.len() == rows.len() {
        cells.clear();
    }
    let mut pattern = [9, 0, 0, 0, 0].to_vec(alloc)?;
    pattern.extend_from_slice(&u16::try_from(rows.len()).unwrap_or(0).to_le_bytes())?;
    pattern.extend_from_slice(&u16::try_from(cells.len()).unwrap_or(0).to_le_bytes())?;
    pattern.extend_from_slice(&cells)?;
    Ok(pattern)
}

/// The head of an instrument of one sample, whose note map has this sample for each note, and
/// whose envelopes, vibrato and fadeout are 0: 263 bytes.
fn instrument_head(alloc: Global, map: u8) -> Result<Vec<u8>, AllocError> {
    let mut part = [7, 1, 0, 0].to_vec(alloc)?;
    part.extend_from_slice(INSTRUMENT)?;
    part.extend_from_slice(&[0, 1, 0, 40, 0, 0, 0])?;
    part.extend_from_slice(&[map; 96])?;
    part.extend_from_slice(&[0; 134])?;
    Ok(part)
}

/// An instrument of one sample at full volume without a loop, whose frames are all 64. `map` is the
/// sample of each note, `relative` the sample's relative note, in two's complement.
pub fn instrument(
    alloc: Global,
    frames: u32,
    map: u8,
    relative: u8,
) -> Result<Vec<u8>, AllocError> {
    let mut part = instrument_head(alloc, map)?;
    part.extend_from_slice(&frames.to_le_bytes())?;
    part.extend_from_slice(&[0, 0, 0, 0, 0, 0, 0, 0, 64, 0, 0, 128, relative, 0])?;
    part.extend_from_slice(SAMPLE)?;
    for frame in 0..frames {
        part.push(if frame == 0 { 64 } else { 0 })?;
    }
    Ok(part)
}

/// An instrument without samples: a head of this size, at least 29, whose bytes past the 29th
/// are 0xEE.
pub fn bare_instrument(alloc: Global, size: u8) -> Result<Vec<u8>, AllocError> {
    let mut part = [size, 0, 0, 0].to_vec(alloc)?;
    part.extend_from_slice(b"no sample.............\0\0\0")?;
    part.resize(usize::from(size), 0xEE)?;
    Ok(part)
}
