//! The segments of a sample after an edit of its frames.

ghost use Rattle.std.specs.Prelude.{◌≡◌, ◌≤◌, ◌<◌, ◌+◌, ◌-◌, ◌*◌, ℕ, List, slice_index};
ghost use Rattle.ft_types.specs.declared.edit.Edit.{Edit as AnEdit};
ghost use Rattle.ft_types.specs.declared.sample.Sample.{Sample};
ghost use Rattle.ft_types.specs.Blocks.{pieces_of};
ghost use Rattle.ft_segments.specs.Walk.{SampleIds, Placed};
ghost use Rattle.ft_changes.specs.Parts.{body_ids};
ghost use Rattle.ft_smpedit.specs.Filled.{Refills, indexes_filled};

use ft_image::WordView;
use ft_placed::frames_body_id;

/// The bodies of frames that an edit fills.
#[derive(Clone, Copy)]
pub struct BodyRange {
    /// The first of them.
    pub first: u32,
    /// The first behind them.
    pub last: u32,
    /// The first behind those that were there before.
    pub gone: u32,
}

/// A count in pieces of 1,024.
fn thousands(count: u32) -> u32
    ensures { result ≡ pieces_of count 1024 }
{
    count / 1024 + u32::from(count % 1024 != 0)
}

/// How many indexes name bodies that are filled.
pub(crate) fn indexes_filled(range: BodyRange) -> u32
    ensures { result ≡ indexes_filled range }
{
    thousands(range.last).saturating_sub(range.first / 1024)
}

/// A fresh segment by its place among them; 0 where there is none.
fn fresh_at(fresh: &[u16], slot: usize) -> u16
    ensures { result ≡ slice_index fresh.now slot }
{
    if slot < fresh.len() {
        return fresh[slot];
    }
    0
}

/// The segment of a body of frames that isn't a fresh one, by its number in the sample of a root
/// after an edit; 0 where there is none.
fn kept_body_id<V: WordView>(view: &mut V, sample: u16, range: BodyRange, n: u32) -> u16
    ensures narrows { (p : Placed) (s : ℕ) → V.may_show view.new p s → V.may_show view.old p s }
    ensures answer { (p : Placed) (e : AnEdit) (fresh : List ℕ) (x : Sample) (old new : SampleIds)
        → Refills V.may_show view.new p sample e range fresh x old new
        → (range.first ≤ n → range.last ≤ n)
        → result ≡ slice_index (body_ids new) n }
    ensures same { V.same view.old view.new }
{
    if n >= range.first && range.last != range.gone {
        return 0;
    }
    frames_body_id(view, sample, n).unwrap_or(0)
}

/// The segment of a body of frames by its number in the sample of a root after an edit; 0 where
/// there is none.
fn body_id_after<V: WordView>(
    view: &mut V,
    sample: u16,
    range: BodyRange,
    fresh: &[u16],
    n: u32,
) -> u16
    ensures narrows { (p : Placed) (s : ℕ) → V.may_show view.new p s → V.may_show view.old p s }
    ensures answer { (p : Placed) (e : AnEdit) (x : Sample) (old new : SampleIds)
        → Refills V.may_show view.new p sample e range fresh.now x old new
        → result ≡ slice_index (body_ids new) n }
    ensures same { V.same view.old view.new }
{
    if range.first <= n && n < range.last {
        let bodies = 3 + indexes_filled(range) as usize;
        return fresh_at(fresh, bodies + (n - range.first) as usize);
    }
    kept_body_id(view, sample, range, n)
}

/// The segments of the bodies that an index of the sample of a root names after an edit, by the
/// number of the index; 0 where there are none.
pub(crate) fn read_index_ids<V: WordView>(
    view: &mut V,
    sample: u16,
    range: BodyRange,
    fresh: &[u16],
    k: u32,
    ids: &mut [u16; 1024],
)
    ensures narrows { (p : Placed) (s : ℕ) → V.may_show view.new p s → V.may_show view.old p s }
    ensures answer { (p : Placed) (e : AnEdit) (x : Sample) (old new : SampleIds)
        → Refills V.may_show view.new p sample e range fresh.now x old new → k < 4096
        → (i : ℕ) → i < 1024
        → slice_index ids.new i ≡ slice_index (body_ids new) (1024 * k + i) }
    ensures same { V.same view.old view.new }
{
    for i in 0..1024u32 {
        let n = k.saturating_mul(1024).saturating_add(i);
        ids[i as usize] = body_id_after(view, sample, range, fresh, n);
    }
}
