//! The cells of a pattern.

ghost use Rattle.std.specs.Prelude.{◌≡◌, nat_le, if◌then◌else◌};
ghost use Rattle.ft_format.specs.declared.limits.TheConstants.{KEY_OFF};
ghost use Rattle.ft_xmread.specs.Reader.{FileReads, byte_if};
ghost use Rattle.ft_xmread.specs.Pattern.{note_spelled_at, overrun, raw_cell_at, cell_spelled_at};

use crate::fault::XmFault;
use crate::reader::Reader;
use ft_format::{
    EFFECT_BIT, EMPTY_CELL, INSTRUMENT_BIT, KEY_OFF, MASK, NOTE_BIT, PARAMETER_BIT, RawCell,
    VOLUME_BIT, has,
};
use ft_types::Cell;

/// The next byte where the first byte says that it follows, else 0.
fn byte_if(reader: &mut Reader, follows: bool) -> Result<u8, XmFault>
    ensures { FileReads (λ x. x) result reader.new (byte_if follows reader.old) }
{
    if follows {
        return reader.byte();
    }
    Ok(0)
}

/// The note: a first byte below `MASK` is the note itself.
fn read_note(reader: &mut Reader, first: u8) -> Result<u8, XmFault>
    ensures { FileReads (λ x. x) result reader.new (note_spelled_at first reader.old) }
{
    if first < MASK {
        return Ok(first);
    }
    byte_if(reader, first % 2 == NOTE_BIT)
}

/// A cell as the file spells it.
#[tactic(auto, unfolding(crate::specs::Pattern::raw_cell_at))]
fn read_raw_cell(reader: &mut Reader) -> Result<RawCell, XmFault>
    ensures { FileReads (λ x. x) result reader.new (raw_cell_at reader.old) }
{
    let first = reader.byte()?;
    if first == MASK {
        return Ok(RawCell {
            first,
            cell: EMPTY_CELL,
        });
    }
    let note = read_note(reader, first)?;
    let instrument = byte_if(reader, has(first, INSTRUMENT_BIT))?;
    let volume = byte_if(reader, has(first, VOLUME_BIT))?;
    let effect = byte_if(reader, has(first, EFFECT_BIT))?;
    let parameter = byte_if(reader, has(first, PARAMETER_BIT))?;
    let cell = Cell {
        note,
        instrument,
        volume,
        effect,
        parameter,
    };
    Ok(RawCell { first, cell })
}

/// The note of a cell; one past the key off is none.
fn note_of(note: u8) -> u8
    ensures { result ≡ (if nat_le note KEY_OFF then note else 0) }
{
    if note <= KEY_OFF { note } else { 0 }
}

/// This fault of a cell's bytes, where a missing byte is one past the data.
fn overrun(pattern: u16, at: u64, fault: XmFault) -> XmFault
    ensures { result ≡ overrun pattern at fault }
{
    match fault {
        XmFault::Short { .. } => XmFault::CellOverrun { pattern, at },
        fault => fault,
    }
}

/// The next cell in the data of a pattern.
#[tactic(auto, unfolding(crate::specs::Pattern::cell_spelled_at))]
pub fn read_cell(reader: &mut Reader, pattern: u16) -> Result<Cell, XmFault>
    ensures { FileReads (λ x. x) result reader.new (cell_spelled_at pattern reader.old) }
{
    let at = reader.place();
    match read_raw_cell(reader) {
        Ok(raw) => Ok(Cell {
            note: note_of(raw.cell.note),
            ..raw.cell
        }),
        Err(fault) => Err(overrun(pattern, at, fault)),
    }
}
