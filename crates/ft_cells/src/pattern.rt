//! Edits of a pattern, done in place.

ghost use Rattle.std.specs.Prelude.{◌≡◌, ◌≤◌, ◌<◌, ◌*◌, Some, length, slice_get};
ghost use Rattle.ft_types.specs.declared.module.Module.{Module};
ghost use Rattle.ft_types.specs.Valid.{IsValid};
ghost use Rattle.ft_edits.specs.Allowed.{Allows};
ghost use Rattle.ft_edits.specs.Changes.{pattern_changed, pattern_number};
ghost use Rattle.ft_edits.specs.Faults.{fault_of};
ghost use Rattle.ft_cells.specs.Buffers.{pattern_in, IsSource, KeepsRows};

use crate::block::{Block, change_block, paste_block};
use crate::rows::{fill_up, insert_row, put, remove_row};
use ft_edits::allowed_edits_name_what_is_there;
use ft_types::{Cell, Edit};

/// The number of the pattern that an edit changes, from 0; of a copy that to which it is written.
/// It is 0 for edits that change no pattern.
pub fn pattern_number(e: &Edit) -> u8
    ensures { result ≡ pattern_number e.now }
{
    match *e {
        Edit::Cell { p, .. }
        | Edit::Rows { p, .. }
        | Edit::Insrow { p, .. }
        | Edit::Delrow { p, .. }
        | Edit::Clear { p, .. }
        | Edit::Transpose { p, .. } => p,
        Edit::Copy { q, .. } => q,
        _ => 0,
    }
}

/// Does an edit that keeps the number of rows, on all cells of a pattern, in place and without
/// memory. `cells` are the `rows * channels` cells of the pattern that the edit changes. For a
/// copy, `source` are all cells of the pattern that it is taken from, as they were; no other edit
/// looks at it.
///
/// Whatever song has this pattern, of that many channels: where the song doesn't refuse the edit,
/// the cells are then those that the edit makes. `Edit::Rows` leaves the cells as they are, and so
/// does an edit that changes no pattern.
pub fn change_in_place(cells: &mut [Cell], rows: u16, channels: u8, source: &[Cell], e: &Edit)
    requires whole { length cells.old ≡ rows * channels }
    ensures { (m : Module) → IsValid m → m.channels ≡ channels
        → slice_get m.patterns (pattern_number e.now) ≡ Some (pattern_in rows channels cells.old)
        → IsSource m e.now source.now → Allows m e.now → KeepsRows e.now
        → pattern_in rows channels cells.new
        ≡ pattern_changed m e.now (pattern_in rows channels cells.old) }
{
    let width = usize::from(channels);
    match *e {
        Edit::Cell {
            r,
            c,
            note,
            ins,
            vol,
            eff,
            par,
            ..
        } => {
            let cell = Cell {
                note,
                instrument: ins,
                volume: vol,
                effect: eff,
                parameter: par,
            };
            put(cells, usize::from(r) * width + usize::from(c), cell);
        }
        Edit::Insrow { r, .. } => {
            if r < rows {
                insert_row(cells, usize::from(r) * width, width);
            }
        }
        Edit::Delrow { r, .. } => {
            if r < rows {
                remove_row(cells, usize::from(r) * width, width);
            }
        }
        Edit::Clear { r, c, h, w, .. } | Edit::Transpose { r, c, h, w, .. } => {
            change_block(cells, rows, channels, Block { r, c, h, w }, e);
        }
        Edit::Copy {
            r,
            c,
            h,
            w,
            r2,
            c2,
            ..
        } => {
            let block = Block { r: r2, c: c2, h, w };
            paste_block(cells, rows, channels, block, source, r, c);
        }
        _ => {}
    }
}

/// Does any edit of a pattern, in place and without memory, in a buffer with room for the largest
/// one: 256 rows of 32 channels. `cells` begins with the `rows * channels` cells of the pattern
/// that the edit changes; what stands behind them is anything. For a copy, `source` are all cells
/// of the pattern that it is taken from, as they were; no other edit looks at it.
///
/// The result is the number of rows after the edit. Whatever song has this pattern, of that many
/// channels: where the song doesn't refuse the edit, the buffer then begins with the pattern that
/// the edit makes. In any case the rows that are answered have room in the buffer.
pub fn change_pattern(cells: &mut [Cell], rows: u16, channels: u8, source: &[Cell], e: &Edit) -> u16
    requires room { 8192 ≤ length cells.old }
    requires there { rows * channels ≤ 8192 }
    ensures within { result * channels ≤ 8192 }
    ensures answer { (m : Module) → IsValid m → m.channels ≡ channels
        → slice_get m.patterns (pattern_number e.now) ≡ Some (pattern_in rows channels cells.old)
        → IsSource m e.now source.now → fault_of m e.now ≡ None
        → pattern_in result channels cells.new
        ≡ pattern_changed m e.now (pattern_in rows channels cells.old) }
{
    let width = usize::from(channels);
    let count = usize::from(rows) * width;
    match *e {
        Edit::Rows { n, .. } => {
            let wanted = usize::from(n) * width;
            if wanted <= 8192 {
                fill_up(cells, count, wanted);
                return n;
            }
        }
        _ => {
            allowed_edits_name_what_is_there();
            change_in_place(&mut cells[..count], rows, channels, source, e);
        }
    }
    rows
}
