//! What a pattern's segments say.

ghost use Rattle.std.specs.Prelude.{◌≡◌, ◌≤◌, ◌<◌, ◌+◌, ℕ, length, MatchOption};
ghost use Rattle.ft_types.specs.declared.module.Module.{Module};
ghost use Rattle.ft_types.specs.declared.pattern.Cell.{Cell};
ghost use Rattle.ft_types.specs.Valid.{IsValidCell};
ghost use Rattle.ft_types.specs.Views.{rows_at, cell_at};
ghost use Rattle.ft_types.specs.Work as work_of;
ghost use Rattle.ft_segments.specs.Walk.{Placed};
ghost use Rattle.ft_image.specs.Values.{cell_word};
ghost use Rattle.ft_image.specs.Shown.{Shows};
ghost use Rattle.ft_image.specs.Read.{MayShowAll, HasPattern};

use crate::ids::id;
use crate::view::WordView;
use ft_types::Cell;

/// The root of a stored pattern. None exactly where the song has no such pattern.
pub fn pattern_root<V: WordView>(view: &mut V, root: u16, pattern: u8) -> Option<u16>
    ensures narrows { (p : Placed) (s : ℕ) → V.may_show view.new p s → V.may_show view.old p s }
    ensures answer { (p : Placed) (m : Module) → MayShowAll V.may_show view.new p → Shows p m
        → p.root ≡ root
        → MatchOption result (length m.patterns ≤ pattern) (HasPattern p m pattern) }
    ensures work { (V.work view.old ≤ V.work view.new) × (V.work view.new ≤ V.work view.old + 2) }
    ensures same { V.same view.old view.new }
{
    if u64::from(pattern) >= view.word(root, 1) % 65536 {
        return None;
    }
    Some(id(view, root, 40, u16::from(pattern)))
}

/// The rows of the pattern of a number, in the song of a root; 64 where it isn't stored.
pub fn rows<V: WordView>(view: &mut V, root: u16, pattern: u8) -> u16
    ensures narrows { (p : Placed) (s : ℕ) → V.may_show view.new p s → V.may_show view.old p s }
    ensures answer { (p : Placed) (m : Module) → MayShowAll V.may_show view.new p → Shows p m
        → p.root ≡ root → result ≡ rows_at m pattern }
    ensures work { (V.work view.old ≤ V.work view.new)
        × (V.work view.new ≤ V.work view.old + work_of.rows_bound) }
    ensures same { V.same view.old view.new }
{
    let Some(found) = pattern_root(view, root, pattern) else {
        return 64;
    };
    (view.word(found, 0) % 65536) as u16
}

/// The cell in a word.
pub fn cell_from(word: u64) -> Cell
    ensures { (c : Cell) → IsValidCell c → word ≡ cell_word c → result ≡ c }
{
    Cell {
        note: (word % 256) as u8,
        instrument: (word / 256 % 256) as u8,
        volume: (word / 65536 % 256) as u8,
        effect: (word / 16777216 % 256) as u8,
        parameter: (word / 4294967296 % 256) as u8,
    }
}

/// The cell of a row and a channel of a pattern, in the song of a root. It is empty past the rows,
/// and where the pattern isn't stored. Nothing is said of a channel that isn't below the
/// channels.
pub fn cell<V: WordView>(view: &mut V, root: u16, pattern: u8, row: u16, channel: u8) -> Cell
    ensures narrows { (p : Placed) (s : ℕ) → V.may_show view.new p s → V.may_show view.old p s }
    ensures answer { (p : Placed) (m : Module) → MayShowAll V.may_show view.new p → Shows p m
        → p.root ≡ root → channel < m.channels → result ≡ cell_at m pattern row channel }
    ensures work { (V.work view.old ≤ V.work view.new)
        × (V.work view.new ≤ V.work view.old + work_of.cell_bound) }
    ensures same { V.same view.old view.new }
{
    let Some(found) = pattern_root(view, root, pattern) else {
        return Cell::EMPTY;
    };
    if u64::from(row) >= view.word(found, 0) % 65536 {
        return Cell::EMPTY;
    }
    let channels = view.word(root, 0) / 4294967296 % 256;
    let number = u64::from(row) * channels + u64::from(channel);
    if number >= 8192 {
        return Cell::EMPTY;
    }
    let body = id(view, found, 1, (number / 256) as u16);
    cell_from(view.word(body, (number % 256) as u8))
}
