//! What is read of a module by numbers.

ghost use Rattle.std.specs.Prelude.{◌≡◌, ◌≤◌, ◌<◌, ℕ, [], None, IfSome, length};
ghost use Rattle.std.specs.Option.{option_copied};
ghost use Rattle.ft_types.specs.Valid.{IsValid, IsValidCell, IsValidEnvelope, IsValidShape, IsValidHead};
ghost use Rattle.ft_types.specs.Views.{order_at, rows_at, cell_at, instrument_at, envelope_in, shape_in, number_in, sample_in, sample_of, head_of_owned};
ghost use Rattle.ft_types.specs.ModuleViews.{owned_in, words_kept};

use crate::instrument::{Envelope, Instrument, Shape};
use crate::kept::Kept;
use crate::module::Module;
use crate::pattern::Cell;
use crate::sample::Sample;
use crate::voice::SampleHead;
use crate::words::Words;

/// The number of the pattern at an order position; 0 past the orders.
pub fn order(song: &Module, pos: u16) -> u8
    ensures { result ≡ order_at song.now pos }
{
    match song.orders.get(usize::from(pos)) {
        Some(order) => *order,
        None => 0,
    }
}

/// The rows of the pattern of a number; 64 where it isn't stored.
pub fn rows(song: &Module, pattern: u8) -> u16
    requires { IsValid song.now }
    ensures value { result ≡ rows_at song.now pattern }
    ensures some { 1 ≤ result }
    ensures few { result ≤ 256 }
{
    match song.patterns.get(usize::from(pattern)) {
        Some(found) => found.rows,
        None => 64,
    }
}

/// The cell of a row and a channel.
pub fn cell(song: &Module, pattern: u8, row: u16, channel: u8) -> Cell
    requires { IsValid song.now }
    ensures value { result ≡ cell_at song.now pattern row channel }
    ensures range { IsValidCell result }
{
    let Some(found) = song.patterns.get(usize::from(pattern)) else {
        return Cell::EMPTY;
    };
    if row >= found.rows {
        return Cell::EMPTY;
    }
    let at = usize::from(row) * usize::from(song.channels) + usize::from(channel);
    match found.cells.get(at) {
        Some(cell) => *cell,
        None => Cell::EMPTY,
    }
}

/// The instrument of a number; they count from 1.
fn instrument(song: &Module, number: u8) -> Option<&Instrument>
    ensures { option_copied result ≡ instrument_at song.now number }
{
    if number == 0 {
        return None;
    }
    song.instruments.get(usize::from(number) - 1)
}

/// An envelope of an instrument: that of the volume, or that of the panning.
pub fn envelope(song: &Module, number: u8, which: u8) -> Option<Envelope>
    requires { IsValid song.now }
    ensures value { result ≡ envelope_in (instrument_at song.now number) which }
    ensures range { IfSome result IsValidEnvelope }
{
    let found = instrument(song, number)?;
    if which == 0 {
        return Some(found.volume);
    }
    Some(found.panning)
}

/// The automatic vibrato and the fadeout of an instrument.
pub fn shape(song: &Module, number: u8) -> Option<Shape>
    requires { IsValid song.now }
    ensures value { result ≡ shape_in (instrument_at song.now number) }
    ensures range { IfSome result IsValidShape }
{
    let found = instrument(song, number)?;
    Some(Shape {
        vibrato: found.vibrato,
        fadeout: found.fadeout,
    })
}

/// The number of the sample that the note map gives a note, from 0.
pub fn number(song: &Module, number: u8, note: u8) -> u8
    requires valid { IsValid song.now }
    requires note { note < 96 }
    ensures { result ≡ number_in (instrument_at song.now number) note }
{
    match instrument(song, number) {
        Some(found) => found.map[usize::from(note)],
        None => 0,
    }
}

/// The sample of an instrument, by its number.
fn sample(song: &Module, number: u8, sample: u8) -> Option<&Sample>
    ensures { option_copied result ≡ sample_in (instrument_at song.now number) sample }
{
    match instrument(song, number) {
        Some(found) => found.samples.get(usize::from(sample)),
        None => None,
    }
}

/// What a channel keeps of a sample, where there is one with frames.
pub fn keep<'a>(song: &'a Module, number: u8, sample_number: u8) -> Option<Kept<'a>>
    requires { IsValid song.now }
    ensures owned { (version : ℕ) → owned_in version result
        ≡ sample_of version song.now number sample_number }
    ensures fresh { words_kept result ≡ [] }
{
    let found = sample(song, number, sample_number)?;
    if found.frames.len() == 0 {
        return None;
    }
    Some(Kept {
        instrument: number,
        number: sample_number,
        sample: found,
        frames: found.frames.as_slice(),
        words: Words::none(),
    })
}

/// The head of the sample that a channel keeps.
pub fn head(kept: Option<Kept>) -> Option<SampleHead>
    ensures value { result ≡ head_of_owned (owned_in 0 kept.entry) }
    ensures range { IfSome result IsValidHead }
{
    let kept = kept?;
    let sample = kept.sample;
    Some(SampleHead {
        frames: sample.frames.len() as u32,
        wide: sample.wide,
        loop_kind: sample.loop_kind,
        loop_start: sample.loop_start,
        loop_len: sample.loop_len,
        volume: sample.volume,
        panning: sample.panning,
        finetune: sample.finetune,
        relative: sample.relative,
    })
}
