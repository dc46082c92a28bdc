//! Playing a song tick by tick, and what is compared after each.

ghost use Rattle.std.specs.Prelude.{◌≡◌, ◌≤◌, length};
ghost use Rattle.ft_types.specs.Valid.{IsValid};
ghost use Rattle.ft_replay.specs.Range.{IsSongInRange};

use crate::song::{Song, module_of};
use ft_replay::{Channel, Control, Place, SongState};
use ft_tick::tick_state;
use ft_types::{Module, ModuleView, SongView, valid};
use std::alloc::{AllocError, Global};

/// A number of a state after a tick; those of a channel are the first channel's.
#[derive(Clone, Copy)]
pub enum What {
    Instrument,
    Period,
    Target,
    Volume,
    Panning,
    Arpeggio,
    VibratoOffset,
    VibratoPosition,
    VibratoSpeed,
    VibratoDepth,
    TremoloOffset,
    TremoloSpeed,
    TremoloDepth,
    Gliding,
    Glissando,
    Released,
    Fade,
    EnvelopePosition,
    Retrigger,
    Muted,
    LoopRow,
    LoopCount,
    Memory(u8),
    /// Whole frames of the voice's position; -1 where no voice sounds.
    Frame,
    Global,
    Tempo,
    Bpm,
    Frames,
}

/// A row of a table: a song, and numbers after its ticks 0, `every`, twice `every` and so on.
#[derive(Clone, Copy)]
pub struct Row {
    /// What the row shows.
    pub name: &'static str,
    /// The song.
    pub song: Song,
    /// Frames a second, 8,000 to 48,000.
    pub rate: u32,
    /// From each tick that is compared to the next.
    pub every: u8,
    /// Which number.
    pub what: What,
    /// The numbers.
    pub values: &'static [i32],
}

/// A number of a channel.
fn of_channel(channel: &Channel, what: What) -> i32 {
    match what {
        What::Instrument => i32::from(channel.instrument),
        What::Period => i32::from(channel.period),
        What::Target => i32::from(channel.target),
        What::Volume => i32::from(channel.vol),
        What::Panning => i32::from(channel.pan),
        What::Released => i32::from(channel.released),
        What::Fade => i32::from(channel.fade),
        What::EnvelopePosition => i32::from(channel.vol_env),
        What::Retrigger => i32::from(channel.retrigger),
        What::LoopRow => i32::from(channel.loop_row),
        What::LoopCount => i32::from(channel.loop_count),
        What::Memory(k) => i32::from(channel.memory[usize::from(k % 15)]),
        _ => of_swings(channel, what),
    }
}

/// A number of what swings on a channel.
fn of_swings(channel: &Channel, what: What) -> i32 {
    match what {
        What::Arpeggio => i32::from(channel.arp),
        What::VibratoOffset => i32::from(channel.vib_off),
        What::VibratoPosition => i32::from(channel.vib_pos),
        What::VibratoSpeed => i32::from(channel.vib_speed),
        What::VibratoDepth => i32::from(channel.vib_depth),
        What::TremoloOffset => i32::from(channel.trem_off),
        What::TremoloSpeed => i32::from(channel.trem_speed),
        What::TremoloDepth => i32::from(channel.trem_depth),
        What::Gliding => i32::from(channel.gliding),
        What::Glissando => i32::from(channel.glissando),
        _ => i32::from(channel.muted),
    }
}

/// Whole frames of the position of the first channel's voice.
fn frame_of(state: &SongState) -> i32 {
    match state.voices.as_slice().first() {
        Some(voice) if voice.channel == 0 => i32::try_from(voice.pos >> 32).unwrap_or(-2),
        _ => -1,
    }
}

/// A number of a state after a tick.
fn value_of(state: &SongState, at: Place, what: What) -> i32 {
    match what {
        What::Frame => frame_of(state),
        What::Global => i32::from(state.control.global),
        What::Tempo => i32::from(state.control.tempo),
        What::Bpm => i32::from(state.control.bpm),
        What::Frames => i32::try_from(at.frames).unwrap_or(-2),
        _ => of_channel(&state.channels[0], what),
    }
}

/// Plays that many ticks.
pub fn skip<V: SongView>(view: &mut V, state: &mut SongState, rate: u32, ticks: u8)
    requires wide { state.old.used ≡ length (V.holds view.old) }
    requires low { 8000 ≤ rate }
    requires high { rate ≤ 48000 }
    requires range { IsSongInRange state.old }
    ensures wide { state.new.used ≡ length (V.holds view.new) }
    ensures range { IsSongInRange state.new }
{
    for _done in 0..ticks {
        tick_state(view, state, rate);
    }
}

/// Whether the ticks of a state give the numbers of a row.
fn plays_on<V: SongView>(view: &mut V, state: &mut SongState, rate: u32, row: &Row) -> bool
    requires wide { state.old.used ≡ length (V.holds view.old) }
    requires low { 8000 ≤ rate }
    requires high { rate ≤ 48000 }
    requires range { IsSongInRange state.old }
{
    for value in row.values.iter() {
        let at = tick_state(view, state, rate);
        if value_of(state, at, row.what) != *value {
            return false;
        }
        skip(view, state, rate, row.every.saturating_sub(1));
    }
    true
}

/// Whether a song gives the numbers of a row from its beginning.
fn plays(song: &Module, row: &Row) -> bool
    requires { IsValid song.now }
{
    let mut view = ModuleView::new(song);
    let mut state = SongState::first(song.channels);
    plays_on(&mut view, &mut state, row.rate.clamp(8000, 48000), row)
}

/// Whether the song of a row gives its numbers.
fn shows(alloc: Global, row: &Row) -> Result<bool, AllocError> {
    let song = module_of(alloc, &row.song)?;
    if !valid(&song) {
        return Ok(false);
    }
    Ok(plays(&song, row))
}

/// The name of the first row whose song doesn't give its numbers.
pub fn first_wrong(alloc: Global, rows: &[Row]) -> Result<Option<&'static str>, AllocError> {
    for row in rows {
        if !shows(alloc, row)? {
            return Ok(Some(row.name));
        }
    }
    Ok(None)
}

/// A row of the song of one note.
pub const ROW: Row = Row {
    name: "",
    song: crate::song::SONG,
    rate: 8000,
    every: 1,
    what: What::Period,
    values: &[],
};
