//! The state between two ticks.

use arrayvec::ArrayVec;
use ft_types::{Cell, Voice};

/// Where a song is, and what holds for all its channels.
#[derive(Clone, Copy, Debug, Default, PartialEq, Eq)]
pub struct Control {
    /// Order position, 0 to 255 while a row is played; up to 256 between two rows.
    pub pos: u16,
    /// Row in the pattern, 0 to 255 while it is played; up to 256 between two rows.
    pub row: u16,
    /// Tick in the row, from 0; it runs on through a pattern delay.
    pub tick: u16,
    /// Ticks per row, 1 to 31 (effect F); 0 before the first tick.
    pub tempo: u8,
    /// Beats per minute, 32 to 255 (effect F): a tick lasts 2.5 seconds divided by it; 0 before
    /// the first tick.
    pub bpm: u8,
    /// BPM of the tick before; 0 before the first tick.
    pub last_bpm: u8,
    /// Global volume, 0 to 64 (effects G and H).
    pub global: u8,
    /// Rest of the last division of frames per tick: 0, or below twice the BPM of the tick before.
    pub carry: u32,
    /// How often the row is repeated by a pattern delay, 0 to 15 (effect EE).
    pub delay: u8,
    /// Order position of a pending jump (effect B).
    pub jump: Option<u8>,
    /// Row of a pending pattern break, 0 to 63 (effect D).
    pub to_row: Option<u8>,
    /// Channel of a pending way back to its loop row (effect E6).
    pub back: Option<u8>,
}

/// What one channel remembers.
#[derive(Clone, Copy, Debug, PartialEq, Eq)]
pub struct Channel {
    /// The cell of the row.
    pub cell: Cell,
    /// Instrument number, from 1; 0 for none.
    pub instrument: u8,
    /// Volume, 0 to 64.
    pub vol: u8,
    /// Panning, 0 left to 255 right.
    pub pan: u8,
    /// Period, 1 to 31,999; 0 for none.
    pub period: u16,
    /// Period that a tone portamento goes to (effects 3 and 5), 1 to 31,999; 0 for none.
    pub target: u16,
    /// Position in the vibrato's wave (effects 4 and 6), 0 to 63.
    pub vib_pos: u8,
    /// Kind of the vibrato's wave (effect E4), 0 to 7: by 4 it is sine, ramp down or square; from 4
    /// on it isn't begun anew by a note.
    pub vib_kind: u8,
    /// How far the vibrato's wave goes in a tick, 0 to 15.
    pub vib_speed: u8,
    /// How far a vibrato goes, 0 to 15: of the wave, which goes to 255, that many parts of 32 are added
    /// to the period.
    pub vib_depth: u8,
    /// Position in the tremolo's wave (effect 7), 0 to 63.
    pub trem_pos: u8,
    /// Kind of the tremolo's wave (effect E7), 0 to 7, as that of the vibrato.
    pub trem_kind: u8,
    /// How far the tremolo's wave goes in a tick, 0 to 15.
    pub trem_speed: u8,
    /// How far a tremolo goes, 0 to 15: of the wave, which goes to 255, that many parts of 64 are added
    /// to the volume.
    pub trem_depth: u8,
    /// Speed of a tone portamento (effects 3 and 5): the period moves by four times as much in a tick.
    pub tone_speed: u8,
    /// Whether a tone portamento is heard in semitones (effect E3).
    pub glissando: bool,
    /// Whether a key off came since the note.
    pub released: bool,
    /// Fade, of 32,768; it falls by the instrument's fadeout in each tick after a key off.
    pub fade: u16,
    /// Position in the volume envelope, in ticks.
    pub vol_env: u16,
    /// Position in the panning envelope, in ticks.
    pub pan_env: u16,
    /// Position of the instrument's automatic vibrato, 0 to 255.
    pub auto_pos: u8,
    /// Age of the automatic vibrato, in ticks, at most 65,535.
    pub auto_age: u16,
    /// Ticks since the last retrigger (effect R).
    pub retrigger: u8,
    /// Ticks since the last turn of a tremor (effect T).
    pub tremor: u8,
    /// First row of a pattern loop (effect E6).
    pub loop_row: u8,
    /// How often a pattern loop is still to be played (effect E6), 0 to 15.
    pub loop_count: u8,
    /// Memories of the effects 1, 2, 9, A, E1, E2, EA, EB, H, P, R (x, y), T, X1, X2.
    pub memory: [u8; 15],
    /// The voice that sounds, while a tick is made; none between ticks.
    pub voice: Option<Voice>,
    /// What a vibrato adds to the period that is heard in this tick.
    pub vib_off: i16,
    /// What a tremolo adds to the volume that is heard in this tick.
    pub trem_off: i16,
    /// Semitones of an arpeggio (effect 0) in this tick, 0 to 15.
    pub arp: u8,
    /// Whether a tone portamento moved the period in this tick.
    pub gliding: bool,
    /// Whether a tremor mutes the channel in this tick.
    pub muted: bool,
}

/// Where a tick was, and how many frames it has.
#[derive(Clone, Copy, Debug, Default, PartialEq, Eq)]
pub struct Place {
    /// Order position, 0 to 255.
    pub order: u16,
    /// Row in the pattern, 0 to 255.
    pub row: u16,
    /// Tick in the row, from 0.
    pub tick: u16,
    /// Frames of the tick, at most 3,750.
    pub frames: u32,
}

/// The state of a song between two ticks. The first `used` channels are the song's.
#[derive(Drop)]
pub struct SongState {
    /// Where the song is.
    pub control: Control,
    /// Number of channels, 1 to 32.
    pub used: u8,
    /// What the channels remember; those past the song's are as they were at first.
    pub channels: [Channel; 32],
    /// The sounding voices, in ascending order of their channels. While a tick is made each is in
    /// its channel.
    pub voices: ArrayVec<Voice, 32>,
}
