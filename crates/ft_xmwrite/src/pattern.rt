//! Patterns.

ghost use Rattle.std.specs.Prelude.{◌≡◌, ◌≤◌, ◌++◌, length, flat_map, OnOk};
ghost use Rattle.std.specs.List.{list_all};
ghost use Rattle.ft_types.specs.Valid.{IsValid};
ghost use Rattle.ft_format.specs.Pattern.{raw_cell_text, pattern_head_text};
ghost use Rattle.ft_format.specs.Canon.{is_empty_cell, cell_bytes, raw_cells_of, raw_pattern_of, pattern_bytes};

use crate::bytes::{put_byte, put_u16, put_u32};
use crate::cell::{cell_len, is_empty, put_cell};
use ft_format::{PACKING, PATTERN_HEAD, PatternHead, canonical_parts, canonical_sizes};
use ft_types::{Cell, Module, NoMemory, Pattern};

/// Whether all cells are empty.
fn are_empty(cells: &[Cell]) -> bool
    ensures { result ≡ list_all is_empty_cell cells.now }
{
    cells.iter().all(is_empty)
}

/// The number of bytes of these cells, one after the other.
fn len_of_cells(cells: &[Cell]) -> u16
    requires { length cells.now ≤ 8192 }
    ensures { result ≡ length (flat_map cell_bytes cells.now) }
{
    let mut len = 0;
    for cell in cells {
        len += cell_len(cell);
    }
    len
}

/// The number of bytes of a pattern's data: 0 where all cells are empty.
fn data_len(cells: &[Cell]) -> u16
    requires { length cells.now ≤ 8192 }
    ensures { result ≡ length (flat_map raw_cell_text (raw_cells_of cells.now)) }
{
    canonical_parts();
    if are_empty(cells) {
        return 0;
    }
    len_of_cells(cells)
}

/// Cells, one after the other.
fn put_cells(bytes: &mut Vec<u8>, cells: &[Cell]) -> Result<(), NoMemory>
    ensures { OnOk result (bytes.new.items ≡ bytes.old.items ++ flat_map cell_bytes cells.now) }
{
    for cell in cells {
        put_cell(bytes, cell)?;
    }
    Ok(())
}

/// The data of a pattern: none where all cells are empty.
fn put_data(bytes: &mut Vec<u8>, cells: &[Cell]) -> Result<(), NoMemory>
    ensures { OnOk result (bytes.new.items ≡ bytes.old.items
        ++ flat_map raw_cell_text (raw_cells_of cells.now)) }
{
    canonical_parts();
    if are_empty(cells) {
        return Ok(());
    }
    put_cells(bytes, cells)
}

/// The head of a pattern.
fn head_of(pattern: &Pattern) -> PatternHead
    requires { length pattern.now.cells ≤ 8192 }
    ensures { result ≡ (raw_pattern_of pattern.now).head }
{
    PatternHead {
        size: PATTERN_HEAD,
        rows: pattern.rows,
        packed: data_len(pattern.cells.as_slice()),
    }
}

/// A head, 9 bytes: its own size, the packing, the rows and the bytes of the data.
fn put_head(bytes: &mut Vec<u8>, head: PatternHead) -> Result<(), NoMemory>
    ensures { OnOk result (bytes.new.items ≡ bytes.old.items ++ pattern_head_text head) }
{
    put_u32(bytes, head.size)?;
    put_byte(bytes, PACKING)?;
    put_u16(bytes, head.rows)?;
    put_u16(bytes, head.packed)
}

/// A pattern: its head, and its data.
#[tactic(auto, unfolding(ft_format::specs::Pattern::pattern_text))]
fn put_pattern(bytes: &mut Vec<u8>, pattern: &Pattern) -> Result<(), NoMemory>
    requires { length pattern.now.cells ≤ 8192 }
    ensures { OnOk result (bytes.new.items ≡ bytes.old.items ++ pattern_bytes pattern.now) }
{
    put_head(bytes, head_of(pattern))?;
    put_data(bytes, pattern.cells.as_slice())
}

/// The number of bytes of a pattern.
fn pattern_len(pattern: &Pattern) -> usize
    requires { length pattern.now.cells ≤ 8192 }
    ensures value { result ≡ length (pattern_bytes pattern.now) }
    ensures few { result ≤ 65544 }
{
    canonical_sizes();
    PATTERN_HEAD as usize + usize::from(data_len(pattern.cells.as_slice()))
}

/// The number of bytes of a song's patterns.
pub fn patterns_len(song: &Module) -> usize
    requires { IsValid song.now }
    ensures value { result ≡ length (flat_map pattern_bytes song.now.patterns) }
    ensures few { result ≤ 16779264 }
{
    let mut len = 0;
    for pattern in song.patterns.as_slice() {
        len += pattern_len(pattern);
    }
    len
}

/// The patterns of a song, one after the other.
pub fn put_patterns(bytes: &mut Vec<u8>, song: &Module) -> Result<(), NoMemory>
    requires { IsValid song.now }
    ensures { OnOk result (bytes.new.items ≡ bytes.old.items
        ++ flat_map pattern_bytes song.now.patterns) }
{
    for pattern in song.patterns.as_slice() {
        put_pattern(bytes, pattern)?;
    }
    Ok(())
}
