//! The register as all threads see it.
ghost use Rattle.std.specs.Prelude.{◌≡◌, ◌<◌, ◌+◌, ◌*◌};
ghost use Rattle.ft_shared.specs.Layout.{pin_at, segment_at, word_count};

use crate::table::WordTable;
use std::marker::Model;
use thiserror::Error;

/// The words that threads share. Contracts see which register it is, and its sizes.
#[derive(Drop)]
pub struct Shared {
    pub(crate) words: WordTable,
    pub(crate) segments: u16,
    /// The word of the table at which the pins begin.
    pub(crate) pins: u8,
    pub(crate) channels: u8,
    /// The word of the table at which the pool begins.
    pub(crate) pool: u16,
}

impl Model for Shared {
    ghost use Rattle.std.specs.Prelude.{◌≡◌};
    ghost use Rattle.ft_shared.specs.Layout.{pins_at, pool_at, word_count};
    ghost use Rattle.ft_shared.specs.Pass.{RegisterId};

    ghost Value = { RegisterId };

    ghost view = { λ shared. record {
      table = shared.words.table.shared.table_id;
      sizes = shared.words.table.shared.key.sizes;
    } };

    ghost invariant = { λ shared. (shared.words.table.shared.table_id.words
        ≡ word_count shared.words.table.shared.key.sizes)
        × (shared.words.table.shared.key.sizes.segments ≡ shared.segments)
        × (pins_at shared.words.table.shared.key.sizes ≡ shared.pins)
        × (shared.words.table.shared.key.sizes.channels ≡ shared.channels)
        × (pool_at shared.words.table.shared.key.sizes ≡ shared.pool) };
}

/// Why `Shared::open` refuses.
#[derive(Clone, Copy, Debug, PartialEq, Eq, Error)]
pub enum OpenFault {
    /// The words need more segments than there are to be.
    #[error("the words need {need} segments, and there are {segments}")]
    PoolSmall {
        /// Segments that are needed: those of the words, 1 to 65,535, or the blocks of a song.
        need: u32,
        /// Segments that the pool was to have, 0 to 65,535.
        segments: u16,
    },
    /// There was not enough memory. It comes only where the words fit: no clause says more of it.
    #[error("out of memory")]
    NoMemory,
}

impl Shared {
    /// The number of segments of the pool, 0 to 65,535. It makes no atomic step.
    pub fn segments(&self) -> u16
        ensures { result ≡ self.now.sizes.segments }
    {
        self.segments
    }

    /// The number of a pin word in the table.
    #[tactic(auto, using(crate::proofs::Sums::pin_inside))]
    pub(crate) fn pin_word_of(&self, reader: u8, channel: u8) -> usize
        requires { (reader < self.now.sizes.readers) × (channel < self.now.sizes.channels) }
        ensures number { result ≡ pin_at self.now.sizes reader channel }
        ensures inside { result < word_count self.now.sizes }
    {
        self.pins as usize + (reader as usize * self.channels as usize + channel as usize)
    }

    /// The number of a word of the pool in the table.
    pub(crate) fn word_of(&self, seg: u16, at: u8) -> usize
        requires { seg < self.now.sizes.segments }
        ensures number { result ≡ segment_at self.now.sizes seg at }
        ensures inside { result < word_count self.now.sizes }
    {
        self.pool as usize + (seg as usize * 256 + at as usize)
    }
}
