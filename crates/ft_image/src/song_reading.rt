//! What a song root says.

ghost use Rattle.std.specs.Prelude.{◌≡◌, ◌≤◌, ◌<◌, ◌+◌, ℕ, length};
ghost use Rattle.ft_types.specs.declared.module.Module.{Module};
ghost use Rattle.ft_types.specs.Valid.{IsValid};
ghost use Rattle.ft_types.specs.Views.{song_head_of, order_at};
ghost use Rattle.ft_types.specs.Work as work_of;
ghost use Rattle.ft_segments.specs.Walk.{Placed};
ghost use Rattle.ft_image.specs.Values.{head_word};
ghost use Rattle.ft_image.specs.Shown.{Shows};
ghost use Rattle.ft_image.specs.Read.{MayShowAll};

use crate::digits::byte;
use crate::view::WordView;
use ft_types::SongHead;

/// The head in the first word of a song.
fn head_from(word: u64) -> SongHead
    ensures { (m : Module) → IsValid m → word ≡ head_word m → result ≡ song_head_of m }
{
    SongHead {
        length: (word % 65536) as u16,
        restart: (word / 65536 % 65536) as u16,
        tempo: (word / 281474976710656 % 256) as u8,
        bpm: (word / 72057594037927936 % 256) as u8,
        linear: word / 1099511627776 % 256 == 1,
    }
}

/// What the song of a root says of itself as a whole.
pub fn head<V: WordView>(view: &mut V, root: u16) -> SongHead
    ensures narrows { (p : Placed) (s : ℕ) → V.may_show view.new p s → V.may_show view.old p s }
    ensures answer { (p : Placed) (m : Module) → MayShowAll V.may_show view.new p → Shows p m
        → p.root ≡ root → result ≡ song_head_of m }
    ensures work { (V.work view.old ≤ V.work view.new)
        × (V.work view.new ≤ V.work view.old + work_of.head_bound) }
    ensures same { V.same view.old view.new }
{
    head_from(view.word(root, 0))
}

/// The number of the pattern at an order position of the song of a root. Nothing is said of a
/// position that isn't below the length.
pub fn order<V: WordView>(view: &mut V, root: u16, pos: u16) -> u8
    ensures narrows { (p : Placed) (s : ℕ) → V.may_show view.new p s → V.may_show view.old p s }
    ensures answer { (p : Placed) (m : Module) → MayShowAll V.may_show view.new p → Shows p m
        → p.root ≡ root → pos < length m.orders → result ≡ order_at m pos }
    ensures work { (V.work view.old ≤ V.work view.new)
        × (V.work view.new ≤ V.work view.old + work_of.order_bound) }
    ensures same { V.same view.old view.new }
{
    if pos >= 256 {
        return 0;
    }
    let word = view.word(root, 8 + (pos / 8) as u8);
    byte(word, (pos % 8) as u8)
}
