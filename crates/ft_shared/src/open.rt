//! A register is made whole: its words, the writer's pass and the readers' passes.
ghost use Rattle.std.specs.Prelude.{◌≡◌, ℕ, ◌+◌, ◌-◌, ◌*◌, ◌/◌, ◌%◌, ◌≤◌, ◌<◌, IfOk, IfErr, OnOk, length, [], ◌∷◌, ◌++◌, replicate};
ghost use Rattle.std.specs.Result.{IsErrOf};
ghost use Rattle.ft_segments.specs.Walk.{IsSound, walk};
ghost use Rattle.ft_shared.specs.Layout.{current_word, pool_at};
ghost use Rattle.ft_shared.specs.Account.{account_of, pool_of};
ghost use Rattle.ft_shared.specs.Pass.{opening_writer, fresh_pass, fresh_passes};
ghost use Rattle.ft_shared.specs.Plays.{after_pass_given};
ghost use Rattle.ft_shared.specs.declared.law.View.TheVariants.{Writer};
ghost use Rattle.ft_shared.specs.declared.shared.OpenFault.TheVariants.{PoolSmall, NoMemory};

use crate::law::{Opening, Place, Sizes};
use crate::passes::ReaderPasses;
use crate::plays::Give;
use crate::reader::ReaderPass;
use crate::shared::{OpenFault, Shared};
use crate::table::WordTable;
use crate::writer::WriterPass;
use ft_segments::a_walk_reads_words_alone;
use std::alloc::{AllocError, Global};
use std::snapshot::Snapshot;

impl Shared {
    /// A register of `segments` segments of 256 words for 1 to 8 readers and 1 to 32
    /// channels. `words` fill the segments from 0 upward, and are the version `version`
    /// with the root segment `root`: the walk from it must stay among the segments so filled,
    /// and name each once.
    ///
    /// `PoolSmall` comes exactly where `words` need more segments than there are. So `NoMemory`
    /// comes only where they fit. After a refusal nothing was made.
    pub fn open(
        alloc: Global,
        segments: u16,
        readers: u8,
        channels: u8,
        version: u32,
        root: u16,
        words: &[u64],
    ) -> Result<(Shared, WriterPass, ReaderPasses), OpenFault>
        requires readers { (1 ≤ readers) × (readers ≤ 8) }
        requires channels { (1 ≤ channels) × (channels ≤ 32) }
        requires words { (length words.now % 256 ≡ 0) × (length words.now ≤ 16776960) }
        requires root { root < length words.now / 256 }
        requires sound { IsSound (length words.now / 256) (walk words.now root) }
        ensures small { segments < length words.now / 256
            → IsErrOf result (PoolSmall (length words.now / 256) segments) }
        ensures memory { length words.now / 256 ≤ segments
            → IfErr result (λ fault. fault ≡ NoMemory) }
        ensures fits { IsErrOf result NoMemory → length words.now / 256 ≤ segments }
        ensures sizes { IfOk result (λ made. made.0.sizes
            ≡ record { segments = segments; readers = readers; channels = channels }) }
        ensures writer { IfOk result (λ made. made.1
            ≡ opening_writer made.0 version root (pool_of segments words.now)) }
        ensures passes { IfOk result (λ made. made.2 ≡ fresh_passes made.0 readers) }
    {
        a_walk_reads_words_alone();
        let need = (words.len() / 256) as u32;
        if need > segments as u32 {
            return Err(OpenFault::PoolSmall { need, segments });
        }
        let sizes = Sizes {
            segments: segments as u64,
            readers: readers as u64,
            channels: channels as u64,
        };
        match Shared::build(alloc, sizes, version, root, words) {
            Ok(parts) => Ok(parts),
            Err(AllocError) => Err(OpenFault::NoMemory),
        }
    }

    fn build(
        alloc: Global,
        sizes: Sizes,
        version: u32,
        root: u16,
        words: &[u64],
    ) -> Result<(Shared, WriterPass, ReaderPasses), AllocError>
        requires readers { (1 ≤ sizes.readers) × (sizes.readers ≤ 8) }
        requires channels { sizes.channels ≤ 32 }
        requires segments { sizes.segments < 65536 }
        requires fits { length words.now ≤ 256 * sizes.segments }
        requires sound { IsSound sizes.segments (walk (pool_of sizes.segments words.now) root) }
        ensures sizes { IfOk result (λ made. made.0.sizes ≡ sizes) }
        ensures writer { IfOk result (λ made. made.1
            ≡ opening_writer made.0 version root (pool_of sizes.segments words.now)) }
        ensures passes { IfOk result (λ made. made.2 ≡ fresh_passes made.0 sizes.readers) }
    {
        let all_words = first_words(alloc, sizes, version, root, words)?;
        let opening = Opening {
            sizes,
            version: version as u64,
            root: root as u64,
            words: Snapshot::of(&all_words),
        };
        let (table, mut place) = WordTable::of_words(alloc, all_words.as_slice(), &opening)?;
        let shared = Shared {
            words: table,
            segments: sizes.segments as u16,
            pins: (sizes.readers + 3) as u8,
            channels: sizes.channels as u8,
            pool: (sizes.readers + 3 + sizes.readers * sizes.channels) as u16,
        };
        let readers = sizes.readers as u8;
        let passes = shared.deal(alloc, &mut place, readers)?;
        let writer = WriterPass::first(place, readers, version);
        Ok((shared, writer, ReaderPasses::of_row(passes)))
    }

    fn deal(
        &self,
        alloc: Global,
        place: &mut Place,
        readers: u8,
    ) -> Result<Vec<ReaderPass>, AllocError>
        requires here { place.old.table_id ≡ self.now.table }
        requires writer { place.old.me ≡ (Writer (account_of place.old.me.0), []) }
        requires none { (account_of place.old.me.0).given ≡ 0 }
        requires sizes { (account_of place.old.me.0).sizes ≡ self.now.sizes }
        requires all { readers ≡ self.now.sizes.readers }
        ensures place { OnOk result (place.new.table_id ≡ place.old.table_id) }
        ensures writer { OnOk result (place.new.me
            ≡ (Writer (record (account_of place.old.me.0) { given = readers }), [])) }
        ensures passes { IfOk result (λ passes. passes.items ≡ fresh_passes self.now readers) }
    {
        let mut passes = Vec::with_capacity(alloc, readers as usize)?;
        for number in 0..readers {
            let pass = self.give(place, number);
            passes.push(pass)?;
        }
        Ok(passes)
    }

    fn give(&self, place: &mut Place, number: u8) -> ReaderPass
        requires here { place.old.table_id ≡ self.now.table }
        requires writer { place.old.me ≡ (Writer (account_of place.old.me.0), []) }
        requires more { number < self.now.sizes.readers }
        requires next { (account_of place.old.me.0).given ≡ number }
        requires sizes { (account_of place.old.me.0).sizes ≡ self.now.sizes }
        ensures place { place.new.table_id ≡ place.old.table_id }
        ensures writer { place.new.me ≡ (after_pass_given place.old.me.0, []) }
        ensures pass { result ≡ fresh_pass self.now number }
    {
        ReaderPass::first(self.words.split_seat::<Give>(place), number)
    }
}

/// The words of the whole table: CURRENT, the leavers and pins, which are all 0, and the
/// pool, which is filled up with 0.
fn first_words(
    alloc: Global,
    sizes: Sizes,
    version: u32,
    root: u16,
    words: &[u64],
) -> Result<Vec<u64>, AllocError>
    requires readers { sizes.readers ≤ 8 }
    requires channels { sizes.channels ≤ 32 }
    requires segments { sizes.segments < 65536 }
    requires fits { length words.now ≤ 256 * sizes.segments }
    ensures { IfOk result (λ all. all.items
        ≡ (current_word version 0 root 0 ∷ replicate (pool_at sizes - 1) 0)
        ++ pool_of sizes.segments words.now) }
{
    let before = (sizes.readers + 3 + sizes.readers * sizes.channels) as usize;
    let count = before + 256 * sizes.segments as usize;
    let mut all_words = Vec::with_capacity(alloc, count)?;
    all_words.push((version as u64) * 4_294_967_296 + (root as u64) * 256)?;
    all_words.resize(before, 0)?;
    all_words.extend_from_slice(words)?;
    all_words.resize(count, 0)?;
    Ok(all_words)
}
