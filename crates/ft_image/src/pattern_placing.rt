//! Patterns put into segments.

ghost use Rattle.std.specs.Prelude.{◌≡◌, ◌≤◌, ◌<◌, ◌+◌, ◌*◌, ℕ, [], List, All, length, map, slice_index_or, sum_by};
ghost use Rattle.std.specs.List.{range_with_len};
ghost use Rattle.ft_types.specs.Valid.{IsValidPattern};
ghost use Rattle.ft_types.specs.Blocks.{pattern_blocks};
ghost use Rattle.ft_types.specs.Views.{empty_cell};
ghost use Rattle.ft_segments.specs.Packing.{word_at};
ghost use Rattle.ft_image.specs.Values as values;
ghost use Rattle.ft_image.specs.Shown.{Pairwise, ShowsPattern};
ghost use Rattle.ft_image.specs.Laid.{Keeps, laid, pattern_laid, pattern_root_word};

use crate::fill_view::Content;
use crate::filling::fill;
use crate::values::{cell_word, run_word};
use crate::view::WordView;
use arrayvec::ArrayVec;
use ft_types::{Cell, Pattern};

/// The root of a pattern whose bodies follow each other.
#[derive(Drop)]
struct PatternRoot<'a> {
    pattern: &'a Pattern,
    first: u16,
    count: u16,
    ghost within: { first + count ≤ 65536 },
}

impl<'a> Content for PatternRoot<'a> {
    ghost makes = { λ c p j w. w ≡ pattern_root_word c.pattern.now (range_with_len c.first c.count) j };

    fn word<V: WordView>(&self, _view: &mut V, at: u8) -> u64 {
        if at == 0 {
            return u64::from(self.pattern.rows);
        }
        if at < 9 {
            return run_word(self.first, self.count, at - 1);
        }
        0
    }
}

/// A body of cells.
#[derive(Drop)]
pub struct CellsBody<'a> {
    /// All cells of a pattern, row by row.
    pub cells: &'a [Cell],
    /// The number of the first cell of the body.
    pub first: u32,
    ghost within: { first ≤ 65536 },
}

impl<'a> Content for CellsBody<'a> {
    ghost makes = { λ c p j w. w ≡ values.cell_word
        (slice_index_or c.cells.now (c.first + j) empty_cell) };

    #[tactic(auto, unfolding(crate::specs::Values::cell_word))]
    fn word<V: WordView>(&self, _view: &mut V, at: u8) -> u64 {
        let number = (self.first + u32::from(at)) as usize;
        if number < self.cells.len() {
            return cell_word(self.cells[number]);
        }
        0
    }
}

/// Fills that many bodies with cells, one segment after the other.
fn place_cells(words: &mut [u64], cells: &[Cell], from: u16, count: u16)
    requires few { count ≤ 32 }
    requires within { from + count ≤ 65535 }
    requires room { (from + count) * 256 ≤ length words.old }
    ensures kept { Keeps 0 from words.old words.new }
    ensures filled { (b j : ℕ) → b < count → j < 256 → word_at words.new (from + b) j
        ≡ values.cell_word (slice_index_or cells.now (b * 256 + j) empty_cell) }
{
    for body in 0..count {
        let content = CellsBody {
            cells,
            first: u32::from(body) * 256,
        };
        fill(words, from + body, &content);
    }
}

/// Fills a pattern's root and its bodies, one segment after the other. Answers the segment behind
/// them.
fn place_pattern(words: &mut [u64], pattern: &Pattern, channels: u8, from: u16) -> u16
    requires channels { channels ≤ 32 }
    requires valid { IsValidPattern channels pattern.now }
    requires within { from + pattern_blocks channels pattern.now ≤ 65535 }
    requires room { (from + pattern_blocks channels pattern.now) * 256 ≤ length words.old }
    ensures next { result ≡ from + pattern_blocks channels pattern.now }
    ensures kept { Keeps 0 from words.old words.new }
    ensures shown { ShowsPattern words.new channels pattern.now
        (pattern_laid channels from pattern.now) }
{
    let cells = u32::from(pattern.rows) * u32::from(channels);
    let count = cells.div_ceil(256) as u16;
    let root = PatternRoot {
        pattern,
        first: from + 1,
        count,
    };
    fill(words, from, &root);
    place_cells(words, pattern.cells.as_slice(), from + 1, count);
    from + 1 + count
}

/// Fills the segments of patterns, one after the other, and answers their roots. Answers the
/// segment behind them.
pub fn place_patterns(
    words: &mut [u64],
    patterns: &[Pattern],
    channels: u8,
    from: u16,
    roots: &mut ArrayVec<u16, 256>,
) -> u16
    requires channels { channels ≤ 32 }
    requires few { length patterns.now ≤ 256 }
    requires valid { All (IsValidPattern channels) patterns.now }
    requires within { from + sum_by (pattern_blocks channels) patterns.now ≤ 65535 }
    requires room { (from + sum_by (pattern_blocks channels) patterns.now) * 256
        ≤ length words.old }
    requires empty { roots.old.items ≡ [] }
    ensures next { result ≡ from + sum_by (pattern_blocks channels) patterns.now }
    ensures kept { Keeps 0 from words.old words.new }
    ensures roots { roots.new.items ≡ map (λ ids. ids.root)
        (laid (pattern_blocks channels) (pattern_laid channels) from patterns.now) }
    ensures shown { Pairwise (ShowsPattern words.new channels) patterns.now
        (laid (pattern_blocks channels) (pattern_laid channels) from patterns.now) }
{
    let mut next = from;
    for pattern in patterns {
        roots.push(next);
        next = place_pattern(words, pattern, channels, next);
    }
    next
}
