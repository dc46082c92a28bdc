//! Rows of cells that come and go, and cells that fill up.

ghost use Rattle.std.specs.Prelude.{◌≡◌, ◌≤◌, ◌+◌, ◌-◌, ◌++◌, length, take, drop, replicate, set};
ghost use Rattle.ft_types.specs.Views.{empty_cell};
ghost use Rattle.ft_edits.specs.Patterns.{empty_rows};

use ft_types::Cell;

/// Sets the cell at a place, if there is one.
pub(crate) fn put(cells: &mut [Cell], at: usize, cell: Cell)
    ensures { cells.new ≡ set cells.old at cell }
{
    if at < cells.len() {
        cells[at] = cell;
    }
}

/// Empties some cells.
fn clear(cells: &mut [Cell])
    ensures { cells.new ≡ replicate (length cells.old) empty_cell }
{
    cells.fill(Cell::EMPTY);
}

/// Puts an empty row before all others; the last one drops out.
fn row_first(cells: &mut [Cell], channels: usize)
    requires { channels ≤ length cells.old }
    ensures { cells.new ≡ empty_rows channels 1 ++ take (length cells.old - channels) cells.old }
{
    cells.rotate_right(channels);
    clear(&mut cells[..channels]);
}

/// Takes the first row out; an empty one comes last.
fn row_last(cells: &mut [Cell], channels: usize)
    requires { channels ≤ length cells.old }
    ensures { cells.new ≡ drop channels cells.old ++ empty_rows channels 1 }
{
    cells.rotate_left(channels);
    let kept = cells.len() - channels;
    clear(&mut cells[kept..]);
}

/// Puts an empty row at a place; the last one drops out.
pub(crate) fn insert_row(cells: &mut [Cell], at: usize, channels: usize)
    requires { at + channels ≤ length cells.old }
    ensures { cells.new ≡ take (length cells.old)
        (take at cells.old ++ (empty_rows channels 1 ++ drop at cells.old)) }
{
    row_first(&mut cells[at..], channels);
}

/// Takes the row at a place out; an empty one comes last.
pub(crate) fn remove_row(cells: &mut [Cell], at: usize, channels: usize)
    requires { at + channels ≤ length cells.old }
    ensures { cells.new ≡ take at cells.old
        ++ (drop (at + channels) cells.old ++ empty_rows channels 1) }
{
    row_last(&mut cells[at..], channels);
}

/// Puts empty cells behind the first `count`, so that the first `wanted` are known. Where fewer
/// are wanted than there are, nothing is to be done.
pub(crate) fn fill_up(cells: &mut [Cell], count: usize, wanted: usize)
    requires there { count ≤ length cells.old }
    requires room { wanted ≤ length cells.old }
    ensures { take wanted cells.new
        ≡ take wanted (take count cells.old ++ replicate wanted empty_cell) }
{
    if count < wanted {
        clear(&mut cells[count..wanted]);
    }
}
