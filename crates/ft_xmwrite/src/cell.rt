//! The cells of a pattern.

ghost use Rattle.std.specs.Prelude.{◌≡◌, ◌≤◌, ◌*◌, ◌++◌, length, nat_lt, if◌then◌else◌, OnOk};
ghost use Rattle.std.specs.List.{list_all};
ghost use Rattle.ft_format.specs.declared.layout.TheConstants.{MASK};
ghost use Rattle.ft_format.specs.Fields.{byte_if_text};
ghost use Rattle.ft_format.specs.Pattern.{note_text, raw_cell_text};
ghost use Rattle.ft_format.specs.Canon.{bytes_of_cell, is_set, mask_of, is_empty_cell, raw_cell_of, cell_bytes};

use crate::bytes::put_byte;
use ft_format::{
    EFFECT_BIT, INSTRUMENT_BIT, MASK, NOTE_BIT, PARAMETER_BIT, RawCell, VOLUME_BIT, has,
};
use ft_types::{Cell, NoMemory};

/// This bit of a mask where the byte isn't 0, else none.
fn bit_if(value: u8, bit: u8) -> u8
    ensures { result ≡ bit * (if is_set value then 1 else 0) }
{
    if value == 0 { 0 } else { bit }
}

/// The mask of a cell: a bit for each byte that isn't 0.
fn mask_of(cell: &Cell) -> u8
    ensures value { result ≡ mask_of (bytes_of_cell cell.now) }
    ensures few { result ≤ 31 }
{
    bit_if(cell.note, NOTE_BIT)
        + bit_if(cell.instrument, INSTRUMENT_BIT)
        + bit_if(cell.volume, VOLUME_BIT)
        + bit_if(cell.effect, EFFECT_BIT)
        + bit_if(cell.parameter, PARAMETER_BIT)
}

/// Whether none of the five bytes is 0.
fn is_full(cell: &Cell) -> bool
    ensures { result ≡ list_all is_set (bytes_of_cell cell.now) }
{
    cell.note != 0
        && cell.instrument != 0
        && cell.volume != 0
        && cell.effect != 0
        && cell.parameter != 0
}

/// Whether all five bytes are 0.
pub fn is_empty(cell: &Cell) -> bool
    ensures { result ≡ is_empty_cell cell.now }
{
    cell.note == 0
        && cell.instrument == 0
        && cell.volume == 0
        && cell.effect == 0
        && cell.parameter == 0
}

/// A cell as it is spelled: its five bytes where none is 0, else a mask and the bytes that aren't 0.
fn raw_cell_of(cell: &Cell) -> RawCell
    ensures { result ≡ raw_cell_of cell.now }
{
    let first = if is_full(cell) {
        cell.note
    } else {
        MASK + mask_of(cell)
    };
    RawCell { first, cell: *cell }
}

/// 1 for a byte that follows, 0 for one that doesn't.
fn len_if(follows: bool, _value: u8) -> u16
    ensures value { result ≡ length (byte_if_text follows _value) }
    ensures few { result ≤ 1 }
{
    if follows { 1 } else { 0 }
}

/// The bytes that the note takes behind the first byte.
fn note_len(raw: RawCell) -> u16
    ensures value { result ≡ length (note_text (nat_lt raw.first MASK) raw.first raw.cell.note) }
    ensures few { result ≤ 1 }
{
    if raw.first < MASK {
        return 0;
    }
    len_if(raw.first % 2 == NOTE_BIT, raw.cell.note)
}

/// The bytes that a cell takes as it is spelled.
#[tactic(auto, unfolding(ft_format::specs::Pattern::raw_cell_text))]
fn raw_cell_len(raw: RawCell) -> u16
    ensures value { result ≡ length (raw_cell_text raw) }
    ensures few { result ≤ 6 }
{
    1 + note_len(raw)
        + len_if(has(raw.first, INSTRUMENT_BIT), raw.cell.instrument)
        + len_if(has(raw.first, VOLUME_BIT), raw.cell.volume)
        + len_if(has(raw.first, EFFECT_BIT), raw.cell.effect)
        + len_if(has(raw.first, PARAMETER_BIT), raw.cell.parameter)
}

/// The number of bytes that a cell takes, 1 to 6.
pub fn cell_len(cell: &Cell) -> u16
    ensures value { result ≡ length (cell_bytes cell.now) }
    ensures few { result ≤ 6 }
{
    raw_cell_len(raw_cell_of(cell))
}

/// A byte that may be left out.
fn put_if(bytes: &mut Vec<u8>, follows: bool, value: u8) -> Result<(), NoMemory>
    ensures { OnOk result (bytes.new.items ≡ bytes.old.items ++ byte_if_text follows value) }
{
    if follows {
        return put_byte(bytes, value);
    }
    Ok(())
}

/// The note behind the first byte, which may be the note itself.
fn put_note(bytes: &mut Vec<u8>, raw: RawCell) -> Result<(), NoMemory>
    ensures { OnOk result (bytes.new.items ≡ bytes.old.items
        ++ note_text (nat_lt raw.first MASK) raw.first raw.cell.note) }
{
    if raw.first < MASK {
        return Ok(());
    }
    put_if(bytes, raw.first % 2 == NOTE_BIT, raw.cell.note)
}

/// A cell as it is spelled.
#[tactic(auto, unfolding(ft_format::specs::Pattern::raw_cell_text))]
fn put_raw_cell(bytes: &mut Vec<u8>, raw: RawCell) -> Result<(), NoMemory>
    ensures { OnOk result (bytes.new.items ≡ bytes.old.items ++ raw_cell_text raw) }
{
    put_byte(bytes, raw.first)?;
    put_note(bytes, raw)?;
    put_if(bytes, has(raw.first, INSTRUMENT_BIT), raw.cell.instrument)?;
    put_if(bytes, has(raw.first, VOLUME_BIT), raw.cell.volume)?;
    put_if(bytes, has(raw.first, EFFECT_BIT), raw.cell.effect)?;
    put_if(bytes, has(raw.first, PARAMETER_BIT), raw.cell.parameter)
}

/// A cell.
pub fn put_cell(bytes: &mut Vec<u8>, cell: &Cell) -> Result<(), NoMemory>
    ensures { OnOk result (bytes.new.items ≡ bytes.old.items ++ cell_bytes cell.now) }
{
    put_raw_cell(bytes, raw_cell_of(cell))
}
