//! A cell set in words: the pattern's root and the body in which the cell is, for the next version.

ghost use Rattle.std.specs.Prelude.{◌≡◌, ◌≤◌, ◌<◌, ◌+◌, ◌*◌, ◌/◌, ◌==◌, if◌then◌else◌, ℕ, List, All, Some, None, length, set, slice_get, slice_index};
ghost use Rattle.ft_types.specs.declared.module.Module.{Module};
ghost use Rattle.ft_types.specs.declared.pattern.Pattern.{Pattern};
ghost use Rattle.ft_edits.specs.Faults.{fault_of};
ghost use Rattle.ft_edits.specs.Edited.{edited};
ghost use Rattle.ft_segments.specs.Packing.{word_at};
ghost use Rattle.ft_segments.specs.Walk.{PatternIds, Placed, ids_of};
ghost use Rattle.ft_changes.specs.declared.reach.Reach.TheVariants as reaches;
ghost use Rattle.ft_changes.specs.Reaches.{reach_of};
ghost use Rattle.ft_changes.specs.Ids.{ids_after};
ghost use Rattle.ft_changes.specs.Laws.{named_in};
ghost use Rattle.ft_image.specs.Values as values;
ghost use Rattle.ft_image.specs.Laid.{pattern_root_word};
ghost use Rattle.ft_image.specs.Shown.{Shows, ShowsPattern};
ghost use Rattle.ft_image.specs.Read.{MayShowAll};
ghost use Rattle.ft_sharing.specs.Written.{AtPlace, RootAndBodyAreWritten};

use crate::pattern_cells::channels_of;
use ft_image::{
    Fill, ListedWords, WordView, cell_word, fill_with, other_words_stay, pattern_root,
    segment_words, with_id,
};
use ft_placed::body_id;
use ft_types::{Cell, Edit};

/// The words of a body in which a cell is another.
fn body_with_cell<V: WordView>(view: &mut V, segment: u16, place: u8, cell: Cell) -> [u64; 256]
    ensures narrows { (p : Placed) (s : ℕ) → V.may_show view.new p s → V.may_show view.old p s }
    ensures answer { (p : Placed) → V.may_show view.new p segment → (j : ℕ) → j < 256
        → slice_index result j
        ≡ (if j == place then values.cell_word cell else word_at p.pool segment j) }
    ensures same { V.same view.old view.new }
{
    let mut words = segment_words(view, segment);
    words[usize::from(place)] = cell_word(cell);
    words
}

/// Puts another segment in place of a body into the words of a pattern's root.
fn put_body_id(words: &mut [u64; 256], body: u32, id: u16)
    requires { body < 32 }
    ensures { (x : Pattern) (bodies : List ℕ) → All (λ s. s < 65536) bodies
        → body < length bodies
        → ((j : ℕ) → j < 256 → slice_index words.old j ≡ pattern_root_word x bodies j)
        → (j : ℕ) → j < 256
        → slice_index words.new j ≡ pattern_root_word x (set bodies body id) j }
{
    other_words_stay();
    let at = 1 + (body / 4) as usize;
    words[at] = with_id(words[at], (body % 4) as u8, id);
}

/// The words of a pattern's root in which a body is another segment.
fn root_with_body<V: WordView>(view: &mut V, segment: u16, body: u32, id: u16) -> [u64; 256]
    requires { body < 32 }
    ensures narrows { (p : Placed) (s : ℕ) → V.may_show view.new p s → V.may_show view.old p s }
    ensures answer { (p : Placed) (channels : ℕ) (x : Pattern) (ids : PatternIds)
        → V.may_show view.new p segment → ids.root ≡ segment
        → ShowsPattern p.pool channels x ids → All (λ s. s < 65536) ids.bodies
        → body < length ids.bodies → (j : ℕ) → j < 256
        → slice_index result j ≡ pattern_root_word x (set ids.bodies body id) j }
    ensures same { V.same view.old view.new }
{
    let mut words = segment_words(view, segment);
    put_body_id(&mut words, body, id);
    words
}

/// Fills fresh segments with the root of a pattern and with the body in which a cell of it is, by
/// its number in the pattern, where this cell is another.
fn write_numbered_cell<F: Fill>(
    words: &mut F,
    root: u16,
    pattern: u8,
    number: u32,
    cell: Cell,
    fresh: &[u16],
)
    requires three { 3 ≤ length fresh.now }
    requires once { (s : ℕ) → named_in s fresh.now ≤ 1 }
    requires may { All (F.may_fill words.old) fresh.now }
    ensures narrows { (p : Placed) (s : ℕ)
        → F.may_show words.new p s → F.may_show words.old p s }
    ensures may { (s : ℕ) → F.may_fill words.old s → F.may_fill words.new s }
    ensures written { (p : Placed) (m : Module) (x : Pattern) (ids : PatternIds)
        → MayShowAll F.may_show words.new p → Shows p m → p.root ≡ root
        → slice_get m.patterns pattern ≡ Some x → number < length x.cells
        → slice_get (ids_of p).patterns pattern ≡ Some ids
        → RootAndBodyAreWritten (F.written words.new) (number / 256)
        (record x { cells = set x.cells number cell })
        (record {
          root = slice_index fresh.now 1;
          bodies = set ids.bodies (number / 256) (slice_index fresh.now 2);
        }) }
    ensures others { (s j : ℕ) → named_in s fresh.now ≡ 0 → j < 256
        → word_at (F.written words.new) s j ≡ word_at (F.written words.old) s j }
    ensures root { (j : ℕ) → j < 256
        → word_at (F.written words.new) (slice_index fresh.now 0) j
        ≡ word_at (F.written words.old) (slice_index fresh.now 0) j }
    ensures long { length (F.written words.new) ≡ length (F.written words.old) }
    ensures rest { F.rest words.old words.new }
{
    words.fill_law();
    let body = number / 256;
    if body >= 32 {
        return;
    }
    let Some(segment) = body_id(words, root, u16::from(pattern), body) else {
        return;
    };
    let Some(found) = pattern_root(words, root, pattern) else {
        return;
    };
    let cells = body_with_cell(words, segment, (number % 256) as u8, cell);
    let ids = root_with_body(words, found, body, fresh[2]);
    fill_with(words, fresh[2], &ListedWords { words: &cells });
    fill_with(words, fresh[1], &ListedWords { words: &ids });
}

/// Fills what `Edit::Cell` touches but for the song root: the second of the fresh segments with the
/// root of the pattern, and the third with the body in which the cell is. All other segments stay.
pub fn write_cell<F: Fill>(words: &mut F, root: u16, e: &Edit, fresh: &[u16])
    requires three { 3 ≤ length fresh.now }
    requires once { (s : ℕ) → named_in s fresh.now ≤ 1 }
    requires may { All (F.may_fill words.old) fresh.now }
    ensures narrows { (p : Placed) (s : ℕ)
        → F.may_show words.new p s → F.may_show words.old p s }
    ensures may { (s : ℕ) → F.may_fill words.old s → F.may_fill words.new s }
    ensures written { (p : Placed) (m : Module) (k b : ℕ) → MayShowAll F.may_show words.new p
        → Shows p m → p.root ≡ root → fault_of m e.now ≡ None
        → reach_of m e.now ≡ reaches.Cell k b
        → AtPlace k (RootAndBodyAreWritten (F.written words.new) b) (edited m e.now).patterns
        (ids_after (reaches.Cell k b) fresh.now (ids_of p)).patterns }
    ensures others { (s j : ℕ) → named_in s fresh.now ≡ 0 → j < 256
        → word_at (F.written words.new) s j ≡ word_at (F.written words.old) s j }
    ensures root { (j : ℕ) → j < 256
        → word_at (F.written words.new) (slice_index fresh.now 0) j
        ≡ word_at (F.written words.old) (slice_index fresh.now 0) j }
    ensures long { length (F.written words.new) ≡ length (F.written words.old) }
    ensures rest { F.rest words.old words.new }
{
    words.fill_law();
    let Edit::Cell {
        p,
        r,
        c,
        note,
        ins,
        vol,
        eff,
        par,
    } = *e
    else {
        return;
    };
    let channels = channels_of(words, root);
    let number = u32::from(r) * u32::from(channels) + u32::from(c);
    let cell = Cell {
        note,
        instrument: ins,
        volume: vol,
        effect: eff,
        parameter: par,
    };
    write_numbered_cell(words, root, p, number, cell, fresh);
}
