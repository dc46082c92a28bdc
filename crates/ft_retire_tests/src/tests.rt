//! What was expected was worked out by hand from the rules.

ghost use Rattle.std.specs.Prelude.{◌≤◌, ◌<◌};

use ft_retire::Births;
use ft_types::NoMemory;
use std::alloc::Global;
use std::test::Fail;

/// A segment's birth, its death if it dies, the version that is undone then, if any, the version
/// that is kept, and whether the segment lives at that.
static LIVES: [(u32, Option<u32>, Option<u32>, u32, bool); 14] = [
    (5, None, None, 4, false),
    (5, None, None, 5, true),
    (5, None, None, 4_294_967_295, true),
    (5, Some(9), None, 4, false),
    (5, Some(9), None, 8, true),
    (5, Some(9), None, 9, false),
    (5, Some(9), None, 10, false),
    (5, Some(5), None, 5, false),
    (5, Some(9), Some(9), 9, true),
    (5, Some(9), Some(9), 4, false),
    (5, Some(9), Some(8), 9, false),
    (5, Some(9), Some(5), 7, false),
    (5, Some(5), Some(5), 5, false),
    (
        0,
        Some(4_294_967_295),
        Some(4_294_967_295),
        4_294_967_295,
        true,
    ),
];

/// Of a pool of four segments, how many are born at version 7 when it is opened, the version that
/// is kept, the segment that is kept, and which are given then, in turn, until none is left.
static GIVEN: [(u16, u32, u16, &[u16]); 6] = [
    (2, 7, 3, &[2]),
    (2, 7, 1, &[2, 3]),
    (2, 6, 0, &[1, 2, 3]),
    (4, 7, 3, &[]),
    (4, 6, 3, &[0, 1, 2]),
    (0, 7, 1, &[0, 2, 3]),
];

/// Whether the only segment of a pool lives at a version, after it was born, died and one version
/// was undone.
fn lives(
    alloc: Global,
    birth: u32,
    death: Option<u32>,
    undone: Option<u32>,
    kept: u32,
) -> Result<bool, NoMemory> {
    let mut births = Births::open(alloc, 1, 0, 0)?;
    let given = births.give(birth);
    if given != Some(0) {
        return Ok(false);
    }
    if let Some(death) = death {
        births.retire(0, death);
    }
    if let Some(undone) = undone {
        births.undo(undone);
    }
    births.begin();
    births.keep_version(kept);
    Ok(births.free() == 0)
}

#[test]
fn a_segment_lives_from_its_birth_to_the_version_before_its_death(
    rt: HostRuntime,
) -> Result<(), Fail> {
    for (birth, death, undone, kept, alive) in LIVES.iter() {
        let found = lives(rt.alloc(), *birth, *death, *undone, *kept);
        assert!(rt; found == Ok(*alive));
    }
    Ok(())
}

/// Whether a pool of four segments gives these in turn and then none, and has as many free before.
fn gives(
    alloc: Global,
    live: u16,
    version: u32,
    segment: u16,
    given: &[u16],
) -> Result<bool, NoMemory>
    requires live { live ≤ 4 }
    requires segment { segment < 4 }
{
    let mut births = Births::open(alloc, 4, live, 7)?;
    births.keep_segment(segment);
    births.keep_version(version);
    if births.free() as usize != given.len() {
        return Ok(false);
    }
    Ok(given.iter().all(|next| births.give(8) == Some(*next)) && births.give(8).is_none())
}

#[test]
fn the_least_segment_that_nobody_keeps_is_given_first(rt: HostRuntime) -> Result<(), Fail> {
    for (live, version, segment, given) in GIVEN.iter() {
        let found = gives(
            rt.alloc(),
            (*live).min(4),
            *version,
            (*segment).min(3),
            given,
        );
        assert!(rt; found == Ok(true));
    }
    Ok(())
}

/// Whether a segment that is given dies unmarked, and is given anew after the marks are forgotten.
fn is_given_anew(alloc: Global) -> Result<bool, NoMemory> {
    let mut births = Births::open(alloc, 2, 2, 1)?;
    births.retire(1, 2);
    births.begin();
    births.keep_version(2);
    let anew = births.give(3);
    let none = births.give(3);
    births.begin();
    births.keep_version(3);
    Ok(anew == Some(1) && none.is_none() && births.free() == 0)
}

#[test]
fn a_dead_segment_is_given_anew_and_lives_again(rt: HostRuntime) -> Result<(), Fail> {
    assert!(rt; is_given_anew(rt.alloc()) == Ok(true));
    Ok(())
}
