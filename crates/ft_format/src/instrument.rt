//! The fields of an instrument.

use ft_types::{Envelope, Vibrato};

/// The head of an instrument, bytes 0 to 28.
#[derive(Clone, Copy)]
pub struct InstrumentHead {
    /// The bytes of the head, at least 29; with samples at least 241.
    pub size: u32,
    /// Instrument name: raw bytes.
    pub name: [u8; 22],
    /// 0 as written; any value is read.
    pub kind: u8,
    /// At most 16.
    pub samples: u16,
}

/// The points at which an envelope stays or turns, each counted from 0. Those past the last are read
/// as 11.
#[derive(Clone, Copy)]
pub struct Turns {
    /// Where it stays until a key off.
    pub sustain: u8,
    /// Where it goes back to.
    pub loop_start: u8,
    /// Where it goes back from.
    pub loop_end: u8,
}

/// The same byte of both envelopes.
#[derive(Clone, Copy)]
pub struct Pair {
    /// That of the volume envelope.
    pub volume: u8,
    /// That of the panning envelope.
    pub panning: u8,
}

/// What two envelopes say behind their points, 10 bytes.
#[derive(Clone, Copy)]
pub struct Shapes {
    /// How many points count; more than 12 are read as 12.
    pub counts: Pair,
    /// The turns of the volume envelope.
    pub volume: Turns,
    /// The turns of the panning envelope.
    pub panning: Turns,
    /// Bit 0: on. Bit 1: sustain. Bit 2: loop. Others are dropped.
    pub flags: Pair,
}

/// The two envelopes, 106 bytes.
#[derive(Clone, Copy)]
pub struct Envelopes {
    /// Volume envelope.
    pub volume: Envelope,
    /// Panning envelope.
    pub panning: Envelope,
}

/// Bytes 29 to 240 of the head of an instrument with samples.
#[derive(Clone, Copy)]
pub struct Extra {
    /// 40 as written; any value is read, and sample headers always have 40 bytes.
    pub header_size: u32,
    /// Sample number for each of the notes C-0 to B-7.
    pub map: [u8; 96],
    /// Both envelopes.
    pub envelopes: Envelopes,
    /// Automatic vibrato.
    pub vibrato: Vibrato,
    /// Volume fadeout per tick after a key off, of 32,768.
    pub fadeout: u16,
}
