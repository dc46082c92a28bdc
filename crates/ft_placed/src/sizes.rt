//! The sizes of a song that lies in words, what an edit of it is refused for, and what it touches.

ghost use Rattle.std.specs.Prelude.{◌≡◌, ◌≤◌, ℕ};
ghost use Rattle.std.proofs.Common.{◌∙◌, refl};
ghost use Rattle.ft_types.specs.declared.module.Module.{Module};
ghost use Rattle.ft_types.specs.Edits.{IsGivable};
ghost use Rattle.ft_types.specs.Limits.{most_frames};
ghost use Rattle.ft_edits.specs.Faults.{fault_of};
ghost use Rattle.ft_edits.specs.Sizes.{song_sizes, sample_sizes};
ghost use Rattle.ft_changes.specs.Reaches.{reach_of};
ghost use Rattle.ft_segments.specs.Walk.{Placed};
ghost use Rattle.ft_image.specs.Shown.{Shows};
ghost use Rattle.ft_image.specs.Read.{MayShowAll};
ghost use Rattle.ft_placed.specs.Songs.{MayShowSong, HasNarrowed};

use ft_changes::{Reach, reach_of};
use ft_edits::{SampleSizes, SizeView, SongSizes, fault_of, most};
use ft_image::{WordView, byte, id, instrument_root, quarter, rows, sample_head};
use ft_types::{Edit, EditFault};

/// The sizes of the song of a root.
fn sizes_of_song<V: WordView>(view: &mut V, root: u16) -> SongSizes
    ensures narrows { (p : Placed) (s : ℕ) → V.may_show view.new p s → V.may_show view.old p s }
    ensures answer { (p : Placed) (m : Module) → MayShowAll V.may_show view.new p → Shows p m
        → p.root ≡ root → result ≡ song_sizes m }
    ensures same { V.same view.old view.new }
{
    let head = view.word(root, 0);
    let counts = view.word(root, 1);
    SongSizes {
        channels: byte(head, 4),
        orders: quarter(head, 0),
        patterns: quarter(counts, 0),
        instruments: quarter(counts, 1),
    }
}

/// The sizes of a sample, from 0, of an instrument, from 1, in the song of a root.
fn sizes_of_sample<V: WordView>(view: &mut V, root: u16, i: u8, s: u8) -> SampleSizes
    ensures narrows { (p : Placed) (s : ℕ) → V.may_show view.new p s → V.may_show view.old p s }
    ensures answer { (p : Placed) (m : Module) → MayShowAll V.may_show view.new p → Shows p m
        → p.root ≡ root → result ≡ sample_sizes m i s }
    ensures few { result.frames ≤ most_frames }
    ensures same { V.same view.old view.new }
{
    let none = SampleSizes {
        samples: 0,
        frames: 0,
        wide: false,
    };
    let Some(found) = instrument_root(view, root, i) else {
        return none;
    };
    let samples = byte(view.word(found, 0), 0);
    if s >= samples {
        return SampleSizes { samples, ..none };
    }
    let sample = id(view, found, 30, u16::from(s));
    let head = sample_head(view, sample);
    SampleSizes {
        samples,
        frames: head.frames.min(most::FRAMES),
        wide: head.wide,
    }
}

/// The sizes of the song of a root, by a view of its words. It takes no memory.
#[derive(Drop)]
pub struct WordSizes<'a, V: WordView> {
    /// The words.
    pub view: &'a mut V,
    /// The segment of the song root.
    pub root: u16,
}

impl<'a, V: WordView> SizeView for WordSizes<'a, V> {
    ghost may_show = { λ v m. MayShowSong V.may_show v.view.now v.root m };

    ghost same = { λ v w. (v.root ≡ w.root) × (v.view.ghost_name ≡ w.view.ghost_name)
        × V.same v.view.now w.view.now × HasNarrowed V.may_show v.view.now w.view.now };

    ghost same_here = { λ v. (refl, refl, V.same_here v.view.now, λ p s may. may) };

    ghost same_through = { λ u v w e f. (
      e.0 ∙ f.0,
      e.1 ∙ f.1,
      V.same_through u.view.now v.view.now w.view.now e.2 f.2,
      λ p s may. e.3 p s (f.3 p s may),
    ) };

    fn song(&mut self) -> SongSizes {
        sizes_of_song(self.view, self.root)
    }

    fn rows(&mut self, p: u8) -> u16 {
        rows(self.view, self.root, p)
    }

    fn sample(&mut self, i: u8, s: u8) -> SampleSizes {
        sizes_of_sample(self.view, self.root, i, s)
    }
}

/// The first fault of an edit of the song of a root, if there is one. It takes no memory.
pub fn fault_in<V: WordView>(view: &mut V, root: u16, edit: &Edit) -> Option<EditFault>
    requires givable { IsGivable edit.now }
    ensures narrows { (p : Placed) (s : ℕ) → V.may_show view.new p s → V.may_show view.old p s }
    ensures answer { (p : Placed) (m : Module) → MayShowAll V.may_show view.new p → Shows p m
        → p.root ≡ root → result ≡ fault_of m edit.now }
    ensures same { V.same view.old view.new }
{
    let mut sizes = WordSizes { view, root };
    fault_of(&mut sizes, edit)
}

/// The parts that an edit touches of the song of a root, where it isn't refused. It takes no
/// memory.
pub fn reach_in<V: WordView>(view: &mut V, root: u16, edit: &Edit) -> Reach
    requires givable { IsGivable edit.now }
    ensures narrows { (p : Placed) (s : ℕ) → V.may_show view.new p s → V.may_show view.old p s }
    ensures answer { (p : Placed) (m : Module) → MayShowAll V.may_show view.new p → Shows p m
        → p.root ≡ root → result ≡ reach_of m edit.now }
    ensures same { V.same view.old view.new }
{
    let mut sizes = WordSizes { view, root };
    reach_of(&mut sizes, edit)
}
