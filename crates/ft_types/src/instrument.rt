//! Instruments: note map, envelopes, automatic vibrato and samples.

use crate::items::Items;
use crate::sample::Samples;

/// The instruments of a song, in order; cells name them from 1.
pub type Instruments = Items<Instrument>;

/// An instrument. One without samples has map, envelopes, vibrato and fadeout all 0.
#[derive(Debug, Drop)]
pub struct Instrument {
    /// Instrument name: raw bytes.
    pub name: [u8; 22],
    /// Sample number for each of the notes C-0 to B-7, 0 to 15.
    pub map: [u8; 96],
    /// Volume envelope.
    pub volume: Envelope,
    /// Panning envelope.
    pub panning: Envelope,
    /// Automatic vibrato.
    pub vibrato: Vibrato,
    /// Volume fadeout per tick after a key off, of 32,768.
    pub fadeout: u16,
    /// At most 16 samples, counted from 0.
    pub samples: Samples,
}

/// A point of an envelope.
#[derive(Clone, Copy, Debug, PartialEq, Eq)]
pub struct Point {
    /// Tick, counted from the start of the note.
    pub x: u16,
    /// Value, 0 to 64.
    pub y: u16,
}

/// An envelope of up to twelve points.
#[derive(Clone, Copy, Debug, PartialEq, Eq)]
pub struct Envelope {
    /// All twelve points, those past `count` too.
    pub points: [Point; 12],
    /// Number of points in use, 0 to 12.
    pub count: u8,
    /// Sustain point, 0 to 11.
    pub sustain: u8,
    /// Loop start point, 0 to 11.
    pub loop_start: u8,
    /// Loop end point, 0 to 11.
    pub loop_end: u8,
    /// Bit 0: on. Bit 1: sustain. Bit 2: loop.
    pub flags: u8,
}

/// The automatic vibrato of an instrument.
#[derive(Clone, Copy, Debug, PartialEq, Eq)]
pub struct Vibrato {
    /// 0 sine, 1 square, 2 ramp down, 3 ramp up.
    pub kind: u8,
    /// Ticks until the full depth; 0 is at once.
    pub sweep: u8,
    /// Depth, 0 to 15.
    pub depth: u8,
    /// Rate, 0 to 63.
    pub rate: u8,
}

/// What an instrument does to each tick of a voice, beside its envelopes.
#[derive(Clone, Copy, Debug, PartialEq, Eq)]
pub struct Shape {
    /// Automatic vibrato.
    pub vibrato: Vibrato,
    /// Volume fadeout per tick after a key off, of 32,768.
    pub fadeout: u16,
}
