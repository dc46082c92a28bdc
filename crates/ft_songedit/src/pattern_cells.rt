//! The cells of a pattern, read from words into a buffer.

ghost use Rattle.std.specs.Prelude.{◌≡◌, ◌≤◌, ◌<◌, ◌+◌, ◌*◌, ℕ, Some, slice_get, slice_index_or};
ghost use Rattle.ft_types.specs.declared.module.Module.{Module};
ghost use Rattle.ft_types.specs.declared.pattern.Pattern.{Pattern};
ghost use Rattle.ft_types.specs.declared.pattern.Cell.{Cell};
ghost use Rattle.ft_types.specs.Blocks.{pieces_of};
ghost use Rattle.ft_types.specs.Valid.{IsValidCell};
ghost use Rattle.ft_types.specs.Views.{empty_cell};
ghost use Rattle.ft_cells.specs.Buffers.{pattern_in};
ghost use Rattle.ft_segments.specs.Packing.{word_at};
ghost use Rattle.ft_segments.specs.Walk.{Placed};
ghost use Rattle.ft_image.specs.Values.{cell_word};
ghost use Rattle.ft_image.specs.Shown.{Shows};
ghost use Rattle.ft_image.specs.Read.{MayShowAll};

use ft_image::{WordView, byte, cell_from, rows};
use ft_placed::body_id;
use ft_types::Cell;

/// The channels of the song of a root.
pub fn channels_of<V: WordView>(view: &mut V, root: u16) -> u8
    ensures narrows { (p : Placed) (s : ℕ) → V.may_show view.new p s → V.may_show view.old p s }
    ensures answer { (p : Placed) (m : Module) → MayShowAll V.may_show view.new p → Shows p m
        → p.root ≡ root → result ≡ m.channels }
    ensures same { V.same view.old view.new }
{
    byte(view.word(root, 0), 4)
}

/// Reads the 256 cells of a body into a buffer, from a place on. The cells before it stay.
fn read_body<V: WordView>(view: &mut V, segment: u16, cells: &mut [Cell; 8192], first: usize)
    requires { first + 256 ≤ 8192 }
    ensures narrows { (p : Placed) (s : ℕ) → V.may_show view.new p s → V.may_show view.old p s }
    ensures read { (p : Placed) → V.may_show view.new p segment → (j : ℕ) (c : Cell) → j < 256
        → IsValidCell c → word_at p.pool segment j ≡ cell_word c
        → slice_index_or cells.new (first + j) empty_cell ≡ c }
    ensures before { (n : ℕ) → n < first → slice_index_or cells.new n empty_cell
        ≡ slice_index_or cells.old n empty_cell }
    ensures same { V.same view.old view.new }
{
    for j in 0..256u16 {
        cells[first + usize::from(j)] = cell_from(view.word(segment, j as u8));
    }
}

/// Reads the cells of a body of a stored pattern, by its number, to their places in a buffer. The
/// cells before them stay.
fn read_numbered_body<V: WordView>(
    view: &mut V,
    root: u16,
    pattern: u8,
    body: u32,
    cells: &mut [Cell; 8192],
)
    requires { body < 32 }
    ensures narrows { (p : Placed) (s : ℕ) → V.may_show view.new p s → V.may_show view.old p s }
    ensures read { (p : Placed) (m : Module) (x : Pattern) → MayShowAll V.may_show view.new p
        → Shows p m → p.root ≡ root → slice_get m.patterns pattern ≡ Some x
        → body < pieces_of (x.rows * m.channels) 256 → (j : ℕ) → j < 256
        → slice_index_or cells.new (body * 256 + j) empty_cell
        ≡ slice_index_or x.cells (body * 256 + j) empty_cell }
    ensures before { (n : ℕ) → n < body * 256 → slice_index_or cells.new n empty_cell
        ≡ slice_index_or cells.old n empty_cell }
    ensures same { V.same view.old view.new }
{
    let Some(segment) = body_id(view, root, u16::from(pattern), body) else {
        return;
    };
    read_body(view, segment, cells, body as usize * 256);
}

/// Reads the cells of a stored pattern to the head of a buffer, row by row, and answers the rows.
/// Whatever the words are, that many rows have room in the buffer.
pub fn read_cells<V: WordView>(
    view: &mut V,
    root: u16,
    pattern: u8,
    channels: u8,
    cells: &mut [Cell; 8192],
) -> u16
    ensures narrows { (p : Placed) (s : ℕ) → V.may_show view.new p s → V.may_show view.old p s }
    ensures within { result * channels ≤ 8192 }
    ensures answer { (p : Placed) (m : Module) (x : Pattern) → MayShowAll V.may_show view.new p
        → Shows p m → p.root ≡ root → channels ≡ m.channels
        → slice_get m.patterns pattern ≡ Some x → pattern_in result channels cells.new ≡ x }
    ensures same { V.same view.old view.new }
{
    let rows = rows(view, root, pattern);
    let count = u32::from(rows) * u32::from(channels);
    if count > 8192 {
        return 0;
    }
    for body in 0..count.div_ceil(256) {
        read_numbered_body(view, root, pattern, body, cells);
    }
    rows
}
