//! Pools that are too small for a song, and pools that aren't.

ghost use Rattle.std.specs.Prelude.{◌≡◌};

use crate::songs::{Shape, song_of};
use ft_desk::Desk;
use ft_shared::{OpenFault, ReaderPasses, Shared};
use ft_types::{Module, valid};
use std::alloc::Global;
use std::test::Fail;

/// One block.
pub const SILENT: Shape = Shape {
    channels: 2,
    patterns: 0,
    rows: 0,
    instruments: 0,
    frames: 0,
};

/// 65 blocks: the song, 30 patterns of two, and an instrument of four.
const SMALL: Shape = Shape {
    channels: 2,
    patterns: 30,
    rows: 64,
    instruments: 1,
    frames: 4,
};

/// 681 blocks.
const REALISTIC: Shape = Shape {
    channels: 8,
    patterns: 40,
    rows: 64,
    instruments: 20,
    frames: 25_000,
};

/// 69,229 blocks, which no pool has.
const HUGE: Shape = Shape {
    channels: 1,
    patterns: 0,
    rows: 0,
    instruments: 18,
    frames: 3_932_160,
};

/// The song, the segments of the pool, the readers, the version, and how many segments are needed
/// where there are too few; else 0.
static POOLS: [(Shape, u16, u8, u32, u32); 10] = [
    (SILENT, 0, 1, 0, 1),
    (SILENT, 1, 1, 0, 0),
    (SILENT, 1, 8, 4_294_967_295, 0),
    (SMALL, 64, 1, 0, 65),
    (SMALL, 65, 1, 0, 0),
    (SMALL, 65, 8, 7, 0),
    (REALISTIC, 680, 2, 0, 681),
    (REALISTIC, 681, 2, 0, 0),
    (REALISTIC, 16_384, 1, 0, 0),
    (HUGE, 65_535, 1, 0, 69_229),
];

/// How many passes there are.
fn passes_given(passes: &mut ReaderPasses) -> u8 {
    let mut given = 0u8;
    for _ in 0..10 {
        if passes.next().is_some() {
            given = given.saturating_add(1);
        }
    }
    given
}

/// Whether the desk is at this version, and nothing was committed or refused.
fn is_new(shared: &Shared, desk: &mut Desk, version: u32) -> bool
    requires { desk.old.writer.register ≡ shared.now }
{
    desk.current() == version
        && desk.journal().entries() == 0
        && desk.journal().refusals() == 0
        && desk.note(shared).version() == version
}

/// Whether the pool opens as it should, or is refused as it should.
fn is_right(alloc: Global, song: &Module, row: (Shape, u16, u8, u32, u32)) -> bool {
    let (_, segments, readers, version, need) = row;
    if !valid(song) || readers == 0 || readers > 8 {
        return false;
    }
    match Desk::open(alloc, song, segments, readers, version) {
        Ok((shared, mut desk, mut passes)) => {
            need == 0
                && shared.segments() == segments
                && passes_given(&mut passes) == readers
                && is_new(&shared, &mut desk, version)
        }
        Err(fault) => fault == OpenFault::PoolSmall { need, segments },
    }
}

/// How many rows of `POOLS` are right.
fn right_pools(alloc: Global) -> Result<u32, Fail> {
    let mut right = 0u32;
    for row in POOLS.iter() {
        let song = song_of(alloc, row.0)?;
        if is_right(alloc, &song, *row) {
            right = right.saturating_add(1);
        }
    }
    Ok(right)
}

#[test]
fn a_pool_is_refused_exactly_where_the_song_has_more_blocks(rt: HostRuntime) -> Result<(), Fail> {
    assert_eq!(rt; right_pools(rt.alloc())?, 10);
    Ok(())
}
