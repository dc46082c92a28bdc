//! Changes of a block of cells.

ghost use Rattle.std.specs.Prelude.{◌≡◌, ◌≤◌, ◌<◌, ◌+◌, ◌-◌, ◌*◌, ◌/◌, ◌%◌, ◌&&◌, nat_le, length, map, take, drop, if◌then◌else◌};
ghost use Rattle.ft_types.specs.Views.{empty_cell};
ghost use Rattle.ft_edits.specs.Lists.{each_from};
ghost use Rattle.ft_edits.specs.Patterns.{in_block, is_note_number, moved_cell, moved_note};
ghost use Rattle.ft_edits.specs.Changes.{cell_changed};
ghost use Rattle.ft_cells.specs.Blocks.{blocked, sourced};

use ft_types::{Cell, Edit};

/// `h` rows of `w` channels from row `r` and channel `c`.
#[derive(Clone, Copy)]
pub(crate) struct Block {
    /// First row.
    pub(crate) r: u16,
    /// First channel.
    pub(crate) c: u8,
    /// Rows.
    pub(crate) h: u16,
    /// Channels.
    pub(crate) w: u8,
}

/// Whether a block lies within that many rows and channels.
fn is_within(block: Block, rows: u16, channels: u8) -> bool
    ensures { result ≡ (nat_le (block.r + block.h) rows && nat_le (block.c + block.w) channels) }
{
    u32::from(block.r) + u32::from(block.h) <= u32::from(rows)
        && u16::from(block.c) + u16::from(block.w) <= u16::from(channels)
}

/// Whether a number is a note of 1 to 96.
fn is_note(note: i16) -> bool
    ensures { result ≡ is_note_number note }
{
    0 < note && note <= 96
}

/// A note moved by that many semitones, where it stays one.
fn moved_note(d: i8, note: u8) -> u8
    ensures { result ≡ moved_note d note }
{
    let moved = i16::from(note) + i16::from(d);
    if is_note(i16::from(note)) && is_note(moved) {
        return moved as u8;
    }
    note
}

/// A cell of the block after the edit.
fn changed(e: &Edit, cell: Cell) -> Cell
    ensures { result ≡ cell_changed e.now cell }
{
    match *e {
        Edit::Clear { .. } => Cell::EMPTY,
        Edit::Transpose { d, .. } => Cell {
            note: moved_note(d, cell.note),
            ..cell
        },
        _ => cell,
    }
}

/// Changes each of some cells.
#[tactic(auto, using(std::proofs::lemmas::List::Edits::map_over_more))]
fn change_all(cells: &mut [Cell], e: &Edit)
    ensures { cells.new ≡ map (cell_changed e.now) cells.old }
{
    for cell in cells.iter_mut() {
        *cell = changed(e, *cell);
    }
}

/// Changes the cells of a block.
fn change_cells(cells: &mut [Cell], channels: usize, block: Block, e: &Edit)
    requires wide { block.c + block.w ≤ channels }
    requires long { (block.r + block.h) * channels ≤ length cells.old }
    ensures { cells.new ≡ each_from (λ place cell.
        if in_block block.r block.c block.h block.w (place / channels) (place % channels)
        then cell_changed e.now cell else cell) 0 cells.old }
{
    for i in 0..usize::from(block.h) {
        let at = (usize::from(block.r) + i) * channels + usize::from(block.c);
        change_all(&mut cells[at..at + usize::from(block.w)], e);
    }
}

/// Writes cells: those of the source from a place on.
fn write_part(cells: &mut [Cell], source: &[Cell], from: usize)
    requires { from + length cells.old ≤ length source.now }
    ensures { cells.new ≡ take (length cells.old) (drop from source.now) }
{
    let end = from + cells.len();
    cells.copy_from_slice(&source[from..end]);
}

/// Writes a block: each row of it is a part of a row of the source, which begins at row `r` and
/// channel `c`.
fn paste_cells(cells: &mut [Cell], channels: usize, block: Block, source: &[Cell], r: u16, c: u8)
    requires wide { block.c + block.w ≤ channels }
    requires from { c + block.w ≤ channels }
    requires long { (block.r + block.h) * channels ≤ length cells.old }
    requires whole { (r + block.h) * channels ≤ length source.now }
    ensures { cells.new ≡ each_from (blocked channels block.r block.c block.h block.w
        (sourced channels source.now r c block.r block.c)) 0 cells.old }
{
    let w = usize::from(block.w);
    for i in 0..usize::from(block.h) {
        let at = (usize::from(block.r) + i) * channels + usize::from(block.c);
        let from = (usize::from(r) + i) * channels + usize::from(c);
        write_part(&mut cells[at..at + w], source, from);
    }
}

/// Changes a block of all cells of a pattern, where the pattern has it.
pub(crate) fn change_block(cells: &mut [Cell], rows: u16, channels: u8, block: Block, e: &Edit)
    requires whole { length cells.old ≡ rows * channels }
    ensures { block.r + block.h ≤ rows → block.c + block.w ≤ channels
        → cells.new ≡ each_from (blocked channels block.r block.c block.h block.w
        (λ row channel cell. cell_changed e.now cell)) 0 cells.old }
{
    if is_within(block, rows, channels) {
        change_cells(cells, usize::from(channels), block, e);
    }
}

/// Writes a block of all cells of a pattern, where the pattern and the source have it.
pub(crate) fn paste_block(
    cells: &mut [Cell],
    rows: u16,
    channels: u8,
    block: Block,
    source: &[Cell],
    r: u16,
    c: u8,
)
    requires whole { length cells.old ≡ rows * channels }
    ensures { block.r + block.h ≤ rows → block.c + block.w ≤ channels
        → (r + block.h) * channels ≤ length source.now → c + block.w ≤ channels
        → cells.new ≡ each_from (blocked channels block.r block.c block.h block.w
        (sourced channels source.now r c block.r block.c)) 0 cells.old }
{
    let width = usize::from(channels);
    let end = (usize::from(r) + usize::from(block.h)) * width;
    let narrow = u16::from(c) + u16::from(block.w) <= u16::from(channels);
    if is_within(block, rows, channels) && narrow && end <= source.len() {
        paste_cells(cells, width, block, source, r, c);
    }
}
