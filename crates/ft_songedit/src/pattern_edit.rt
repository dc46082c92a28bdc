//! A pattern written whole in words, after an edit: its root and its bodies, for the next version.

ghost use Rattle.std.specs.Prelude.{◌≡◌, ◌≤◌, ◌<◌, ◌+◌, ◌*◌, ℕ, List, [], All, Some, None, length, drop, slice_get, slice_index, slice_index_or};
ghost use Rattle.ft_types.specs.declared.module.Module.{Module};
ghost use Rattle.ft_types.specs.declared.pattern.Cell.{Cell};
ghost use Rattle.ft_types.specs.declared.edit.Edit.TheVariants as edits;
ghost use Rattle.ft_types.specs.Views.{empty_cell};
ghost use Rattle.ft_edits.specs.declared.group.Group.TheVariants as groups;
ghost use Rattle.ft_edits.specs.Groups as edit_groups;
ghost use Rattle.ft_edits.specs.Changes as changes;
ghost use Rattle.ft_edits.specs.Faults.{fault_of};
ghost use Rattle.ft_edits.specs.Edited.{edited};
ghost use Rattle.ft_cells.specs.Buffers.{pattern_in, IsSource};
ghost use Rattle.ft_segments.specs.Packing.{word_at};
ghost use Rattle.ft_segments.specs.Walk.{Placed, ids_of};
ghost use Rattle.ft_changes.specs.declared.reach.Reach.TheVariants as reaches;
ghost use Rattle.ft_changes.specs.Reaches.{reach_of};
ghost use Rattle.ft_changes.specs.Ids.{ids_after};
ghost use Rattle.ft_changes.specs.Laws.{named_in};
ghost use Rattle.ft_image.specs.Values as values;
ghost use Rattle.ft_image.specs.Laid.{pattern_root_word};
ghost use Rattle.ft_image.specs.Shown.{Shows};
ghost use Rattle.ft_image.specs.Read.{MayShowAll};
ghost use Rattle.ft_sharing.specs.Written.{AtPlace, PatternIsWritten};

use crate::pattern_cells::{channels_of, read_cells};
use ft_cells::{change_pattern, pattern_number};
use ft_changes::an_edit_changes_what_it_reaches;
use ft_edits::{allowed_edits_name_what_is_there, one_is_changed};
use ft_image::{CellsBody, Content, Fill, WordView, fill_with, ids_word};
use ft_types::{Cell, Edit};

/// The root of a pattern of that many rows, whose bodies are these segments.
#[derive(Drop)]
struct RowsAndBodies<'a> {
    rows: u16,
    bodies: &'a [u16],
}

impl<'a> Content for RowsAndBodies<'a> {
    ghost makes = { λ c p j w. w ≡ pattern_root_word (pattern_in c.rows 0 []) c.bodies.now j };

    fn word<V: WordView>(&self, _view: &mut V, at: u8) -> u64 {
        if at == 0 {
            return u64::from(self.rows);
        }
        if at < 9 {
            return ids_word(self.bodies, at - 1);
        }
        0
    }
}

/// Fills the fresh segments from the third on, 32 at most, with the bodies of a pattern's cells.
fn write_bodies<F: Fill>(words: &mut F, cells: &[Cell], fresh: &[u16])
    requires two { 2 ≤ length fresh.now }
    requires once { (s : ℕ) → named_in s fresh.now ≤ 1 }
    requires may { All (F.may_fill words.old) fresh.now }
    ensures narrows { (p : Placed) (s : ℕ)
        → F.may_show words.new p s → F.may_show words.old p s }
    ensures may { (s : ℕ) → F.may_fill words.old s → F.may_fill words.new s }
    ensures written { (p : Placed) → MayShowAll F.may_show words.new p → (b j : ℕ) → b < 32
        → 2 + b < length fresh.now → j < 256
        → word_at (F.written words.new) (slice_index fresh.now (2 + b)) j
        ≡ values.cell_word (slice_index_or cells.now (b * 256 + j) empty_cell) }
    ensures others { (s j : ℕ) → named_in s fresh.now ≡ 0 → j < 256
        → word_at (F.written words.new) s j ≡ word_at (F.written words.old) s j }
    ensures root { (j : ℕ) → j < 256
        → word_at (F.written words.new) (slice_index fresh.now 0) j
        ≡ word_at (F.written words.old) (slice_index fresh.now 0) j }
    ensures long { length (F.written words.new) ≡ length (F.written words.old) }
    ensures rest { F.rest words.old words.new }
{
    words.fill_law();
    for at in 2..fresh.len().min(34) {
        let content = CellsBody {
            cells,
            first: (at - 2) as u32 * 256,
        };
        fill_with(words, fresh[at], &content);
    }
}

/// Fills fresh segments with a pattern of that many rows: the second with its root, and those from
/// the third on with its bodies.
fn write_rows<F: Fill>(words: &mut F, rows: u16, cells: &[Cell], fresh: &[u16])
    requires two { 2 ≤ length fresh.now }
    requires once { (s : ℕ) → named_in s fresh.now ≤ 1 }
    requires may { All (F.may_fill words.old) fresh.now }
    ensures narrows { (p : Placed) (s : ℕ)
        → F.may_show words.new p s → F.may_show words.old p s }
    ensures may { (s : ℕ) → F.may_fill words.old s → F.may_fill words.new s }
    ensures written { (p : Placed) (b : ℕ) → MayShowAll F.may_show words.new p → b ≤ 32
        → length fresh.now ≡ 2 + b
        → PatternIsWritten (F.written words.new) b (record { rows = rows; cells = cells.now })
        (record { root = slice_index fresh.now 1; bodies = drop 2 fresh.now }) }
    ensures others { (s j : ℕ) → named_in s fresh.now ≡ 0 → j < 256
        → word_at (F.written words.new) s j ≡ word_at (F.written words.old) s j }
    ensures root { (j : ℕ) → j < 256
        → word_at (F.written words.new) (slice_index fresh.now 0) j
        ≡ word_at (F.written words.old) (slice_index fresh.now 0) j }
    ensures long { length (F.written words.new) ≡ length (F.written words.old) }
    ensures rest { F.rest words.old words.new }
{
    words.fill_law();
    write_bodies(words, cells, fresh);
    let (_, bodies) = fresh.split_at(2);
    fill_with(words, fresh[1], &RowsAndBodies { rows, bodies });
}

/// Reads the pattern that an edit changes to the head of a buffer, and changes it there. Answers
/// the rows that it has then.
fn changed_cells<V: WordView>(
    view: &mut V,
    root: u16,
    channels: u8,
    e: &Edit,
    source: &[Cell],
    cells: &mut [Cell; 8192],
) -> u16
    ensures narrows { (p : Placed) (s : ℕ) → V.may_show view.new p s → V.may_show view.old p s }
    ensures within { result * channels ≤ 8192 }
    ensures answer { (p : Placed) (m : Module) → MayShowAll V.may_show view.new p → Shows p m
        → p.root ≡ root → channels ≡ m.channels → edit_groups.group_of e.now ≡ groups.Patterns
        → IsSource m e.now source.now → fault_of m e.now ≡ None
        → changes.pattern_number e.now < length m.patterns
        → slice_get (edited m e.now).patterns (changes.pattern_number e.now)
        ≡ Some (pattern_in result channels cells.new) }
    ensures same { V.same view.old view.new }
{
    one_is_changed();
    let rows = read_cells(view, root, pattern_number(e), channels, cells);
    change_pattern(cells, rows, channels, source, e)
}

/// The same for a copy, which is taken from a pattern as it was.
fn copied_cells<V: WordView>(
    view: &mut V,
    root: u16,
    channels: u8,
    e: &Edit,
    from: u8,
    cells: &mut [Cell; 8192],
) -> u16
    ensures narrows { (p : Placed) (s : ℕ) → V.may_show view.new p s → V.may_show view.old p s }
    ensures within { result * channels ≤ 8192 }
    ensures answer { (p : Placed) (m : Module) (r c h w q r2 c2 : ℕ)
        → MayShowAll V.may_show view.new p → Shows p m → p.root ≡ root
        → channels ≡ m.channels → e.now ≡ edits.Copy from r c h w q r2 c2
        → fault_of m e.now ≡ None
        → slice_get (edited m e.now).patterns q ≡ Some (pattern_in result channels cells.new) }
    ensures same { V.same view.old view.new }
{
    allowed_edits_name_what_is_there();
    let mut source = [Cell::EMPTY; 8192];
    let rows = read_cells(view, root, from, channels, &mut source);
    let count = usize::from(rows) * usize::from(channels);
    changed_cells(view, root, channels, e, &source[..count], cells)
}

/// The rows of a new pattern, where they have room in a buffer.
fn new_rows(rows: u16, channels: u8) -> u16
    ensures within { result * channels ≤ 8192 }
    ensures answer { rows * channels ≤ 8192 → result ≡ rows }
{
    if u32::from(rows) * u32::from(channels) > 8192 {
        return 0;
    }
    rows
}

/// Makes the pattern that an edit changes, or the new one, as it is after the edit, at the head of
/// a buffer that was empty. Answers its rows.
fn edited_cells<V: WordView>(
    view: &mut V,
    root: u16,
    channels: u8,
    e: &Edit,
    cells: &mut [Cell; 8192],
) -> u16
    requires empty { All (λ cell. cell ≡ empty_cell) cells.old }
    ensures narrows { (p : Placed) (s : ℕ) → V.may_show view.new p s → V.may_show view.old p s }
    ensures within { result * channels ≤ 8192 }
    ensures answer { (p : Placed) (m : Module) (k b : ℕ) → MayShowAll V.may_show view.new p
        → Shows p m → p.root ≡ root → channels ≡ m.channels → fault_of m e.now ≡ None
        → reach_of m e.now ≡ reaches.Pattern k b
        → slice_get (edited m e.now).patterns k ≡ Some (pattern_in result channels cells.new) }
    ensures same { V.same view.old view.new }
{
    match *e {
        Edit::Newpat { n } => new_rows(n, channels),
        Edit::Copy { p, .. } => copied_cells(view, root, channels, e, p, cells),
        _ => changed_cells(view, root, channels, e, &[], cells),
    }
}

/// Fills what an edit touches that writes a pattern whole, but for the song root: the second of the
/// fresh segments with the root of the pattern, and those from the third on with its bodies. All
/// other segments stay.
pub fn write_pattern<F: Fill>(words: &mut F, root: u16, e: &Edit, fresh: &[u16])
    requires two { 2 ≤ length fresh.now }
    requires once { (s : ℕ) → named_in s fresh.now ≤ 1 }
    requires may { All (F.may_fill words.old) fresh.now }
    ensures narrows { (p : Placed) (s : ℕ)
        → F.may_show words.new p s → F.may_show words.old p s }
    ensures may { (s : ℕ) → F.may_fill words.old s → F.may_fill words.new s }
    ensures written { (p : Placed) (m : Module) (k b : ℕ) → MayShowAll F.may_show words.new p
        → Shows p m → p.root ≡ root → fault_of m e.now ≡ None
        → reach_of m e.now ≡ reaches.Pattern k b → length fresh.now ≡ 2 + b
        → AtPlace k (PatternIsWritten (F.written words.new) b) (edited m e.now).patterns
        (ids_after (reaches.Pattern k b) fresh.now (ids_of p)).patterns }
    ensures others { (s j : ℕ) → named_in s fresh.now ≡ 0 → j < 256
        → word_at (F.written words.new) s j ≡ word_at (F.written words.old) s j }
    ensures root { (j : ℕ) → j < 256
        → word_at (F.written words.new) (slice_index fresh.now 0) j
        ≡ word_at (F.written words.old) (slice_index fresh.now 0) j }
    ensures long { length (F.written words.new) ≡ length (F.written words.old) }
    ensures rest { F.rest words.old words.new }
{
    words.fill_law();
    an_edit_changes_what_it_reaches();
    let channels = channels_of(words, root);
    let mut cells = [Cell::EMPTY; 8192];
    let rows = edited_cells(words, root, channels, e, &mut cells);
    let count = usize::from(rows) * usize::from(channels);
    write_rows(words, rows, &cells[..count], fresh);
}
