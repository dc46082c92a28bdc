//! The stage on which a song is played: a register of its own, in which it lies, with the desk and
//! the pass of the one reader.

ghost use Rattle.std.specs.Prelude.{◌≡◌, ◌≤◌, ◌<◌, IfOk, IfErr};
ghost use Rattle.std.specs.Result.{IsErrOf};
ghost use Rattle.ft_types.specs.Valid.{IsValid};
ghost use Rattle.ft_types.specs.Blocks.{blocks_of};
ghost use Rattle.ft_shared.specs.declared.shared.OpenFault.TheVariants.{PoolSmall, NoMemory};
ghost use Rattle.ft_run.specs.Stage.{IsSet};

use ft_desk::Desk;
use ft_shared::{OpenFault, ReaderPass, Shared};
use ft_types::Module;
use std::alloc::Global;

/// A register with its desk, and the pass of its one reader.
#[derive(Drop)]
pub struct Stage {
    pub shared: Shared,
    pub desk: Desk,
    pub pass: ReaderPass,
}

impl Stage {
    /// A stage of `segments` segments for a song, which must be valid: nothing of it was played
    /// yet.
    ///
    /// `PoolSmall` comes exactly where the blocks of the song are more than the segments.
    pub fn open(alloc: Global, song: &Module, segments: u16) -> Result<Stage, OpenFault>
        requires { IsValid song.now }
        ensures small { segments < blocks_of song.now
            → IsErrOf result (PoolSmall (blocks_of song.now) segments) }
        ensures memory { blocks_of song.now ≤ segments
            → IfErr result (λ fault. fault ≡ NoMemory) }
        ensures set { IfOk result (IsSet song.now) }
    {
        let (shared, desk, mut passes) = Desk::open(alloc, song, segments, 1, 0)?;
        let Some(pass) = passes.next() else {
            unreachable!()
        };
        Ok(Stage { shared, desk, pass })
    }
}
