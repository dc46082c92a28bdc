//! The number of segments that edits fill, by lines of a script on two songs.

use ft_changes::{needed, reach_of};
use ft_edits::ModuleSizes;
use ft_lines::read_edit;
use ft_songs::{instrument_of, one_note_module, sample_of};
use ft_types::{Items, Module, valid};
use std::alloc::{AllocError, Global};
use std::test::Fail;

/// On a song of two channels, with one pattern of 64 rows and one sample of four frames.
static SMALL: [(&[u8], u64); 25] = [
    (b"cell 0 0 0 49 1 0 0 0", 3),
    (b"rows 0 256", 4),
    (b"rows 0 128", 3),
    (b"rows 0 129", 4),
    (b"insrow 0 0", 3),
    (b"delrow 0 63", 3),
    (b"clear 0 0 0 64 2", 3),
    (b"transpose 0 0 0 1 1 12", 3),
    (b"copy 0 0 0 1 1 0 1 1", 3),
    (b"order 0 7", 1),
    (b"title 41", 1),
    (b"delpat", 1),
    (b"newpat 1", 3),
    (b"newpat 256", 4),
    (b"newins", 2),
    (b"clearins 1", 2),
    (b"insname 1 41", 2),
    (b"point 1 0 0 0 0", 2),
    (b"newsmp 1", 3),
    (b"delsmp 1", 2),
    (b"paste 1 0 4 0001", 5),
    (b"cut 1 0 0 4", 3),
    (b"cut 1 0 0 3", 5),
    (b"reverse 1 0 2 2", 3),
    (b"bits 1 0 16", 5),
];

/// On the same song with 2,500 frames in its sample: three bodies, and one index.
static LONG: [(&[u8], u64); 12] = [
    (b"smp 1 0 64 0 0 128", 3),
    (b"cut 1 0 0 100", 7),
    (b"cut 1 0 0 2500", 3),
    (b"cut 1 0 1024 2500", 4),
    (b"cut 1 0 2048 2048", 5),
    (b"cut 1 0 2500 2500", 5),
    (b"paste 1 0 2048 0001", 5),
    (b"reverse 1 0 0 2500", 7),
    (b"reverse 1 0 1024 1025", 5),
    (b"scale 1 0 1023 1025 1 2", 6),
    (b"scale 1 0 2048 2048 1 2", 3),
    (b"bits 1 0 8", 7),
];

/// The frames of the longer sample.
static FRAMES: [i16; 2500] = [1; 2500];

/// The line of a table whose edit fills another number, or its length.
fn filled(alloc: Global, song: &Module, rows: &[(&[u8], u64)]) -> usize {
    if !valid(song) {
        return 0;
    }
    for (at, (line, want)) in rows.iter().enumerate() {
        let Ok(Some(timed)) = read_edit(alloc, line) else {
            return at;
        };
        let found = needed(reach_of(&mut ModuleSizes::new(song), &timed.edit));
        if found != *want {
            return at;
        }
    }
    rows.len()
}

/// The small song with these frames in its sample.
fn longer(alloc: Global) -> Result<Module, AllocError> {
    let instrument = instrument_of(alloc, sample_of(alloc, &FRAMES)?)?;
    Ok(Module {
        instruments: Items::from_vec(vec![in alloc; instrument]?),
        ..one_note_module(alloc)?
    })
}

#[test]
fn each_kind_fills_what_it_touches(rt: HostRuntime) -> Result<(), Fail> {
    let song = one_note_module(rt.alloc())?;
    assert!(rt; filled(rt.alloc(), &song, &SMALL) == SMALL.len());
    Ok(())
}

#[test]
fn frames_fill_the_bodies_that_change(rt: HostRuntime) -> Result<(), Fail> {
    let song = longer(rt.alloc())?;
    assert!(rt; filled(rt.alloc(), &song, &LONG) == LONG.len());
    Ok(())
}
