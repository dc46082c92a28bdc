//! Patterns.

ghost use Rattle.std.specs.Prelude.{◌≡◌, ◌≤◌, replicate, IfOk, IfErr};
ghost use Rattle.ft_format.specs.declared.layout.TheConstants.{PATTERN_HEAD, EMPTY_CELL};
ghost use Rattle.ft_format.specs.declared.limits.TheConstants.{MOST_CHANNELS, MOST_ROWS};
ghost use Rattle.ft_format.specs.Pattern.{rows_of};
ghost use Rattle.ft_xmread.specs.Reader.{FileReads, times};
ghost use Rattle.ft_xmread.specs.Pattern.{cell_spelled_at, packing_at, pattern_head_at, cells_spelled_at, pattern_at};

use crate::cell::read_cell;
use crate::fault::XmFault;
use crate::reader::Reader;
use ft_format::{EMPTY_CELL, MOST_ROWS, PACKING, PATTERN_HEAD, PatternHead, ROWS_FOR_NONE};
use ft_types::{Cell, Cells, Pattern};
use std::alloc::Global;

/// The packing, of which one is known.
fn read_packing(reader: &mut Reader, number: u16) -> Result<u8, XmFault>
    ensures { FileReads (λ x. x) result reader.new (packing_at number reader.old) }
{
    let packing = reader.byte()?;
    if packing != PACKING {
        return Err(XmFault::Packing {
            pattern: number,
            found: packing,
        });
    }
    Ok(packing)
}

#[tactic(auto, unfolding(crate::specs::Pattern::pattern_head_at))]
fn read_pattern_head(reader: &mut Reader, number: u16) -> Result<PatternHead, XmFault>
    ensures value { FileReads (λ x. x) result reader.new (pattern_head_at number reader.old) }
    ensures size { IfOk result (λ head. PATTERN_HEAD ≤ head.size) }
    ensures rows { IfOk result (λ head. head.rows ≤ MOST_ROWS) }
{
    let at = reader.place();
    let size = reader.u32()?;
    if size < PATTERN_HEAD {
        return Err(XmFault::Count { at, found: size });
    }
    read_packing(reader, number)?;
    let rows = reader.count(MOST_ROWS)?;
    let packed = reader.u16()?;
    Ok(PatternHead { size, rows, packed })
}

/// As many cells, one after the other.
#[inline(never)]
fn read_cells_in(
    alloc: Global,
    reader: &mut Reader,
    number: u16,
    count: usize,
) -> Result<Vec<Cell>, XmFault>
    ensures { FileReads (λ cells. cells.items) result reader.new
        (times (λ _. cell_spelled_at number) 0 count reader.old) }
{
    let mut cells = Vec::with_capacity(alloc, count)?;
    for _ in 0..count {
        let cell = read_cell(reader, number)?;
        cells.push_reserved(cell);
    }
    Ok(cells)
}

fn empty_cells(alloc: Global, count: usize) -> Result<Vec<Cell>, XmFault>
    ensures value { IfOk result (λ cells. cells.items ≡ replicate count EMPTY_CELL) }
    ensures wanting { IfErr result (λ fault. fault ≡ XmFault.NoMemory) }
{
    let cells = vec![in alloc; EMPTY_CELL; count]?;
    Ok(cells)
}

/// The number of rows; 0 is read as 64.
fn rows_of(head: PatternHead) -> u16
    requires { head.rows ≤ MOST_ROWS }
    ensures value { result ≡ rows_of head }
    ensures few { result ≤ MOST_ROWS }
{
    if head.rows == 0 {
        ROWS_FOR_NONE
    } else {
        head.rows
    }
}

/// The cells of a pattern, and the bytes that they leave of its data. No data is a pattern of
/// empty cells.
#[tactic(auto, unfolding(crate::specs::Pattern::cells_spelled_at))]
fn read_cells<'a>(
    alloc: Global,
    reader: &mut Reader<'a>,
    number: u16,
    count: usize,
    packed: u16,
) -> Result<(Vec<Cell>, &'a [u8]), XmFault>
    ensures { FileReads (λ x. (x.0.items, x.1.now)) result reader.new
        (cells_spelled_at number count packed reader.old) }
{
    if packed == 0 {
        let cells = empty_cells(alloc, count)?;
        return Ok((cells, &[]));
    }
    let mut data = reader.piece(u32::from(packed))?;
    let cells = read_cells_in(alloc, &mut data, number, count)?;
    Ok((cells, data.rest()))
}

/// A pattern; its faults name it by this number.
#[tactic(auto, unfolding(crate::specs::Pattern::pattern_at))]
pub fn read_pattern(
    alloc: Global,
    reader: &mut Reader,
    channels: u16,
    number: u16,
) -> Result<Pattern, XmFault>
    requires { channels ≤ MOST_CHANNELS }
    ensures { FileReads (λ x. x) result reader.new (pattern_at channels number reader.old) }
{
    let head = read_pattern_head(reader, number)?;
    reader.field(head.size - PATTERN_HEAD)?;
    let rows = rows_of(head);
    let count = usize::from(rows) * usize::from(channels);
    let (cells, _surplus) = read_cells(alloc, reader, number, count, head.packed)?;
    Ok(Pattern {
        rows,
        cells: Cells::from_vec(cells),
    })
}

/// As many patterns, one after the other.
pub fn read_patterns(
    alloc: Global,
    reader: &mut Reader,
    channels: u16,
    count: u16,
) -> Result<Vec<Pattern>, XmFault>
    requires { channels ≤ MOST_CHANNELS }
    ensures { FileReads (λ patterns. patterns.items) result reader.new
        (times (pattern_at channels) 0 count reader.old) }
{
    let mut patterns = Vec::with_capacity(alloc, usize::from(count))?;
    for number in 0..count {
        let pattern = read_pattern(alloc, reader, channels, number)?;
        patterns.push(pattern)?;
    }
    Ok(patterns)
}
