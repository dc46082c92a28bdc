//! Patterns.

ghost use Rattle.std.specs.Prelude.{◌≡◌, ◌+◌, ◌*◌, ◌≤◌, length, IfOk};
ghost use Rattle.ft_modread.specs.declared.layout.TheConstants.{PATTERNS_AT, PATTERN, CELLS};
ghost use Rattle.ft_modread.specs.Layout.{each};
ghost use Rattle.ft_modread.specs.Patterns.{mod_cell};
ghost use Rattle.ft_modread.specs.Songs.{mod_pattern};

use crate::cell::cell_of;
use crate::layout::{CELLS, PATTERN, PATTERNS_AT};
use crate::part::part_of;
use ft_types::{Cell, Cells, NoMemory, Pattern};
use std::alloc::Global;

/// The cells of a pattern.
fn cells_of(alloc: Global, bytes: &[u8]) -> Result<Vec<Cell>, NoMemory>
    requires { length bytes.now ≡ PATTERN }
    ensures { IfOk result (λ cells. cells.items ≡ each CELLS (mod_cell bytes.now)) }
{
    let mut cells = Vec::with_capacity(alloc, CELLS)?;
    for k in 0..CELLS {
        let at = 4 * k;
        cells.push_reserved(cell_of(bytes[at], bytes[at + 1], bytes[at + 2], bytes[at + 3]));
    }
    Ok(cells)
}

/// Pattern `p` of a file, from 0.
#[tactic(auto, unfolding(crate::specs::Patterns::pattern_from))]
fn pattern_at(alloc: Global, file: &[u8], p: usize) -> Result<Pattern, NoMemory>
    requires { PATTERNS_AT + PATTERN * p + PATTERN ≤ length file.now }
    ensures { IfOk result (λ pattern. pattern ≡ mod_pattern file.now p) }
{
    let at = PATTERNS_AT as usize + PATTERN as usize * p;
    let bytes = part_of(file, at, PATTERN as usize);
    let cells = cells_of(alloc, bytes)?;
    Ok(Pattern {
        rows: 64,
        cells: Cells::from_vec(cells),
    })
}

/// That many patterns of a file, one after the other.
pub fn patterns_of(alloc: Global, file: &[u8], count: u32) -> Result<Vec<Pattern>, NoMemory>
    requires { PATTERNS_AT + PATTERN * count ≤ length file.now }
    ensures { IfOk result (λ patterns. patterns.items ≡ each count (mod_pattern file.now)) }
{
    let mut patterns = Vec::with_capacity(alloc, count as usize)?;
    for p in 0..count as usize {
        patterns.push_reserved(pattern_at(alloc, file, p)?);
    }
    Ok(patterns)
}
