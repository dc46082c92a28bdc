//! Songs placed in words of their own.

ghost use Rattle.std.specs.Prelude.{◌≡◌, ◌≤◌, ◌*◌, List, length, IfOk};
ghost use Rattle.ft_types.specs.Valid.{IsValid};
ghost use Rattle.ft_types.specs.Blocks.{blocks_of};
ghost use Rattle.ft_segments.specs.Walk.{walk};
ghost use Rattle.ft_image.specs.Shown.{Shows};
ghost use Rattle.ft_image.specs.Laid.{song_laid};

use crate::song_placing::place_song;
use ft_types::{Module, NoMemory, blocks};
use std::alloc::Global;
use std::marker::Model;

/// A song in words, which contracts see as the list of its words: 256 for each segment, from
/// segment 0 on.
#[derive(Drop)]
pub struct Image {
    words: Vec<u64>,
}

impl Model for Image {
    ghost use Rattle.std.specs.Prelude.{List, ℕ};
    ghost use Rattle.std.specs.Coded.{coded_list, coded_ℕ};

    ghost Value = { List ℕ };

    ghost coded = { coded_list coded_ℕ };

    ghost view = { λ it. it.words.items };
}

impl Image {
    /// All words, 256 for each segment, from segment 0 on.
    pub fn words(&self) -> &[u64]
        ensures { result.now ≡ self.now }
    {
        self.words.as_slice()
    }

    /// The segment of the song root.
    pub fn root(&self) -> u16
        ensures { result ≡ 0 }
    {
        0
    }
}

/// Places a song in words: its root is segment 0, and its segments follow each other without a gap.
/// `blocks` of it may be at most 65,535.
pub fn place(alloc: Global, m: &Module) -> Result<Image, NoMemory>
    requires valid { IsValid m.now }
    requires few { blocks_of m.now ≤ 65535 }
    ensures size { IfOk result (λ image. length image ≡ 256 * blocks_of m.now) }
    ensures shows { IfOk result (λ image. Shows (record { root = 0; pool = image }) m.now) }
    ensures laid { IfOk result (λ image. walk image 0 ≡ song_laid m.now) }
{
    let size = blocks(m) as usize * 256;
    let mut words = vec![in alloc; 0u64; size]?;
    place_song(words.as_mut_slice(), m);
    Ok(Image { words })
}
