//! Edits of a pattern, done in place.

ghost use Rattle.std.specs.Prelude.{◌≡◌, ◌*◌, ◌++◌, Some, take, replicate, slice_get, IfOk, OnOk, OnErr};
ghost use Rattle.ft_types.specs.declared.module.Module.{Module};
ghost use Rattle.ft_types.specs.Valid.{IsValid, IsValidPattern};
ghost use Rattle.ft_types.specs.Views.{empty_cell};
ghost use Rattle.ft_edits.specs.Patterns.{with_rows};
ghost use Rattle.ft_edits.specs.Allowed.{Allows};
ghost use Rattle.ft_edits.specs.Changes.{pattern_changed, pattern_number};
ghost use Rattle.ft_edits.specs.Edited.{edited};
ghost use Rattle.ft_edits.specs.Groups.{group_of};
ghost use Rattle.ft_cells.specs.Buffers.{cells_at, IsSource};

use ft_cells::{change_in_place, pattern_number};
use ft_edits::{Group, one_is_changed};
use ft_types::{Cell, Cells, Edit, Module, NoMemory, Pattern};
use std::alloc::Global;
use std::mem;

/// Cuts cells, or fills them with empty ones, to that many.
#[tactic(auto, using(crate::proofs::Parts::filled))]
fn fill(cells: &mut Vec<Cell>, count: usize) -> Result<(), NoMemory>
    ensures ok { OnOk result (cells.new.items
        ≡ take count (cells.old.items ++ replicate count empty_cell)) }
    ensures err { OnErr result (cells.new.items ≡ cells.old.items) }
{
    cells.resize(count, Cell::EMPTY)?;
    Ok(())
}

/// Gives a pattern that many rows: it is cut, or filled with empty ones.
fn resize(alloc: Global, pattern: &mut Pattern, channels: u8, n: u16) -> Result<(), NoMemory>
    ensures ok { OnOk result (pattern.new ≡ with_rows channels n pattern.old) }
    ensures err { OnErr result (pattern.new ≡ pattern.old) }
{
    let count = usize::from(n) * usize::from(channels);
    let mut cells = mem::replace(&mut pattern.cells, Cells::new(alloc)).into_vec();
    let done = fill(&mut cells, count);
    pattern.cells = Cells::from_vec(cells);
    done?;
    pattern.rows = n;
    Ok(())
}

/// Changes a pattern in a song of that many channels. A copy is taken from `source`.
fn change(
    alloc: Global,
    pattern: &mut Pattern,
    channels: u8,
    source: &[Cell],
    e: &Edit,
) -> Result<(), NoMemory>
    requires valid { IsValidPattern channels pattern.old }
    ensures ok { (m : Module) → IsValid m → m.channels ≡ channels
        → slice_get m.patterns (pattern_number e.now) ≡ Some pattern.old
        → IsSource m e.now source.now → Allows m e.now
        → OnOk result (pattern.new ≡ pattern_changed m e.now pattern.old) }
    ensures err { OnErr result (pattern.new ≡ pattern.old) }
{
    if let Edit::Rows { n, .. } = *e {
        return resize(alloc, pattern, channels, n);
    }
    let rows = pattern.rows;
    change_in_place(pattern.cells.as_mut_slice(), rows, channels, source, e);
    Ok(())
}

/// The cells of a pattern; none where it isn't stored.
fn cells_of(alloc: Global, m: &Module, p: u8) -> Result<Vec<Cell>, NoMemory>
    ensures { IfOk result (λ cells. cells.items ≡ cells_at m.now p) }
{
    match m.patterns.get(usize::from(p)) {
        Some(pattern) => Ok(Vec::from_slice(alloc, pattern.cells.as_slice())?),
        None => Ok(Vec::new(alloc)),
    }
}

/// The cells from which a copy is taken, as they are; none for other edits.
fn source_of(alloc: Global, m: &Module, e: &Edit) -> Result<Vec<Cell>, NoMemory>
    ensures { IfOk result (λ cells. IsSource m.now e.now cells.items) }
{
    match *e {
        Edit::Copy { p, .. } => cells_of(alloc, m, p),
        _ => Ok(Vec::new(alloc)),
    }
}

/// Does an edit of a pattern.
pub(crate) fn do_pattern_edit(alloc: Global, m: &mut Module, e: &Edit) -> Result<(), NoMemory>
    requires group { group_of e.now ≡ Group.Patterns }
    requires valid { IsValid m.old }
    requires there { Allows m.old e.now }
    ensures ok { OnOk result (m.new ≡ edited m.old e.now) }
    ensures err { OnErr result (m.new ≡ m.old) }
{
    one_is_changed();
    let source = source_of(alloc, m, e)?;
    let channels = m.channels;
    match m.patterns.get_mut(usize::from(pattern_number(e))) {
        Some(pattern) => change(alloc, pattern, channels, source.as_slice(), e),
        None => Ok(()),
    }
}
