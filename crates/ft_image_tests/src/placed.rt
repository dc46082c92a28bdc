//! Songs that are placed.

use ft_image::{Image, place};
use ft_songs::{NOTE, instrument_of, pattern_of, sample_of, silent_module};
use ft_types::{Items, Module, blocks, valid};
use std::alloc::Global;
use std::test::Fail;

/// The image of a song, where it is valid and has at most 65,535 blocks.
pub fn image_of(alloc: Global, song: &Module) -> Option<Image> {
    if !valid(song) || blocks(song) > 65_535 {
        return None;
    }
    place(alloc, song).ok()
}

/// A song of a pattern with a note in its first cell, and of a sample of these frames.
pub fn song_of(alloc: Global, frames: &[i16]) -> Result<Module, Fail> {
    let pattern = pattern_of(alloc, 64, NOTE)?;
    let instrument = instrument_of(alloc, sample_of(alloc, frames)?)?;
    let mut song = silent_module(alloc)?;
    song.patterns = Items::from_vec(vec![in alloc; pattern]?);
    song.instruments = Items::from_vec(vec![in alloc; instrument]?);
    Ok(song)
}
