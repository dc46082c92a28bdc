//! Each fault of each kind of edit, and the first of two.

use crate::lines::{Answer, answered};
use crate::song::song;
use ft_types::EditFault::{
    Cut, NoChannel, NoInstrument, NoOrder, NoPattern, NoRow, NoSample, Range,
};
use ft_types::{EditFault, Module};
use std::alloc::{AllocError, Global};
use std::test::Fail;

/// The row behind the last one.
const ROW_64: EditFault = NoRow { row: 64, rows: 64 };

const CHANNEL_2: EditFault = NoChannel { ch: 2 };

const NO_SAMPLE: EditFault = NoSample { i: 1, s: 1 };

/// Edits of patterns and of the song. Where a line has several faults, the one named is the first.
static SONG: [(&[u8], EditFault); 38] = [
    (b"cell 1 64 2 98 0 0 0 0", NoPattern { p: 1 }),
    (b"cell 0 64 2 98 0 0 0 0", ROW_64),
    (b"cell 0 63 2 98 0 0 0 0", CHANNEL_2),
    (
        b"cell 0 63 1 98 0 0 0 0",
        Range {
            field: 1,
            found: 98,
        },
    ),
    (b"rows 1 0", NoPattern { p: 1 }),
    (b"rows 0 0", Range { field: 2, found: 0 }),
    (
        b"rows 0 257",
        Range {
            field: 2,
            found: 257,
        },
    ),
    (b"insrow 1 64", NoPattern { p: 1 }),
    (b"insrow 0 64", ROW_64),
    (b"delrow 1 64", NoPattern { p: 1 }),
    (
        b"delrow 0 65535",
        NoRow {
            row: 65_535,
            rows: 64,
        },
    ),
    (b"clear 1 64 2 0 0", NoPattern { p: 1 }),
    (b"clear 0 64 2 0 1", Range { field: 3, found: 0 }),
    (b"clear 0 64 2 1 0", Range { field: 3, found: 0 }),
    (b"clear 0 63 1 2 2", ROW_64),
    (b"clear 0 63 1 1 2", CHANNEL_2),
    (
        b"clear 0 65535 0 65535 1",
        NoRow {
            row: 131_069,
            rows: 64,
        },
    ),
    (b"clear 0 0 255 1 255", NoChannel { ch: 509 }),
    (b"transpose 0 0 0 64 3 12", CHANNEL_2),
    (b"copy 0 63 0 2 1 1 0 0", ROW_64),
    (b"copy 0 62 0 2 1 1 0 0", NoPattern { p: 1 }),
    (b"copy 0 62 0 2 1 0 63 2", ROW_64),
    (b"copy 0 62 0 2 1 0 62 2", CHANNEL_2),
    (b"order 2 0", NoOrder { pos: 2 }),
    (b"insorder 3 0", NoOrder { pos: 3 }),
    (b"delorder 2", NoOrder { pos: 2 }),
    (b"restart 2", NoOrder { pos: 2 }),
    (b"tempo 0", Range { field: 4, found: 0 }),
    (
        b"tempo 32",
        Range {
            field: 4,
            found: 32,
        },
    ),
    (
        b"bpm 31",
        Range {
            field: 5,
            found: 31,
        },
    ),
    (b"newpat 0", Range { field: 2, found: 0 }),
    (
        b"newpat 257",
        Range {
            field: 2,
            found: 257,
        },
    ),
    (b"clearins 0", NoInstrument { i: 0 }),
    (b"insname 2 41", NoInstrument { i: 2 }),
    (
        b"map 1 96 16",
        Range {
            field: 7,
            found: 96,
        },
    ),
    (
        b"map 1 95 16",
        Range {
            field: 13,
            found: 16,
        },
    ),
    (b"fade 2 1", NoInstrument { i: 2 }),
    (b"newsmp 2", NoInstrument { i: 2 }),
];

/// Edits of instruments, samples and frames.
static SAMPLES: [(&[u8], EditFault); 34] = [
    (
        b"env 1 2 13 12 12 12 8",
        Range {
            field: 18,
            found: 2,
        },
    ),
    (
        b"env 1 1 13 12 12 12 8",
        Range {
            field: 6,
            found: 13,
        },
    ),
    (
        b"env 1 1 12 12 13 14 8",
        Range {
            field: 7,
            found: 12,
        },
    ),
    (
        b"env 1 1 12 11 13 14 8",
        Range {
            field: 7,
            found: 13,
        },
    ),
    (
        b"env 1 1 12 11 11 14 8",
        Range {
            field: 7,
            found: 14,
        },
    ),
    (b"env 1 1 12 11 11 11 8", Range { field: 8, found: 8 }),
    (
        b"point 1 2 12 0 65",
        Range {
            field: 18,
            found: 2,
        },
    ),
    (
        b"point 1 0 12 0 65",
        Range {
            field: 7,
            found: 12,
        },
    ),
    (
        b"point 1 0 11 0 65",
        Range {
            field: 9,
            found: 65,
        },
    ),
    (
        b"vib 1 4 0 16 64",
        Range {
            field: 10,
            found: 4,
        },
    ),
    (
        b"vib 1 3 0 16 64",
        Range {
            field: 11,
            found: 16,
        },
    ),
    (
        b"vib 1 3 0 15 64",
        Range {
            field: 12,
            found: 64,
        },
    ),
    (b"vib 2 4 0 16 64", NoInstrument { i: 2 }),
    (b"delsmp 2", NoInstrument { i: 2 }),
    (b"smpname 1 1 41", NO_SAMPLE),
    (b"smp 1 1 65 0 0 0", NO_SAMPLE),
    (
        b"smp 1 0 65 0 0 0",
        Range {
            field: 9,
            found: 65,
        },
    ),
    (b"loop 1 1 3 0 0", NO_SAMPLE),
    (
        b"loop 1 0 3 4 1",
        Range {
            field: 10,
            found: 3,
        },
    ),
    (
        b"loop 1 0 1 4 0",
        Cut {
            from: 4,
            to: 4,
            frames: 4,
        },
    ),
    (
        b"loop 1 0 2 3 2",
        Cut {
            from: 3,
            to: 5,
            frames: 4,
        },
    ),
    (
        b"loop 1 0 1 4294967295 4294967295",
        Cut {
            from: 4_294_967_295,
            to: 8_589_934_590,
            frames: 4,
        },
    ),
    (b"cut 1 1 5 9", NO_SAMPLE),
    (
        b"cut 1 0 3 2",
        Cut {
            from: 3,
            to: 2,
            frames: 4,
        },
    ),
    (
        b"cut 1 0 0 5",
        Cut {
            from: 0,
            to: 5,
            frames: 4,
        },
    ),
    (
        b"paste 1 0 5 0080",
        Cut {
            from: 5,
            to: 5,
            frames: 4,
        },
    ),
    (
        b"paste 1 0 4 0080",
        Range {
            field: 16,
            found: 128,
        },
    ),
    (
        b"paste 1 0 4 007fff7f",
        Range {
            field: 16,
            found: -129,
        },
    ),
    (
        b"reverse 1 0 4 3",
        Cut {
            from: 4,
            to: 3,
            frames: 4,
        },
    ),
    (
        b"scale 1 0 0 5 1 0",
        Cut {
            from: 0,
            to: 5,
            frames: 4,
        },
    ),
    (
        b"scale 1 0 0 4 1 0",
        Range {
            field: 14,
            found: 0,
        },
    ),
    (
        b"bits 1 0 9",
        Range {
            field: 15,
            found: 9,
        },
    ),
    (b"bits 1 1 9", NO_SAMPLE),
    (b"bits 2 1 9", NoInstrument { i: 2 }),
];

/// Edits of a song whose only instrument has no sample, and whose only order is left.
static BARE: [(&[u8], EditFault); 7] = [
    (
        b"delorder 0",
        Range {
            field: 17,
            found: 0,
        },
    ),
    (b"map 1 96 16", NoSample { i: 1, s: 0 }),
    (b"env 1 2 0 0 0 0 0", NoSample { i: 1, s: 0 }),
    (b"point 1 2 0 0 0", NoSample { i: 1, s: 0 }),
    (b"vib 1 4 0 0 0", NoSample { i: 1, s: 0 }),
    (b"fade 1 0", NoSample { i: 1, s: 0 }),
    (b"delsmp 1", NoSample { i: 1, s: 0 }),
];

/// How many of some rows, one after the other, a song refuses so.
fn refused(alloc: Global, song: &mut Module, rows: &[(&[u8], EditFault)]) -> usize {
    for (number, row) in rows.iter().enumerate() {
        if answered(alloc, song, row.0) != Answer::Refused(row.1) {
            return number;
        }
    }
    rows.len()
}

/// How many of some rows the song refuses.
fn refused_by_song(alloc: Global, rows: &[(&[u8], EditFault)]) -> Result<usize, AllocError> {
    Ok(refused(alloc, &mut song(alloc)?, rows))
}

/// Takes the sample and an order out of a song.
fn is_bared(alloc: Global, song: &mut Module) -> bool {
    answered(alloc, song, b"delsmp 1") == Answer::Done
        && answered(alloc, song, b"delorder 1") == Answer::Done
}

/// How many of some rows the song refuses that has one order and no sample.
fn refused_by_bare(alloc: Global, rows: &[(&[u8], EditFault)]) -> Result<usize, AllocError> {
    let mut song = song(alloc)?;
    if !is_bared(alloc, &mut song) {
        return Ok(0);
    }
    Ok(refused(alloc, &mut song, rows))
}

#[test]
fn edits_are_refused_by_their_first_fault(rt: HostRuntime) -> Result<(), Fail> {
    assert_eq!(rt; refused_by_song(rt.alloc(), &SONG)?, SONG.len());
    assert_eq!(rt; refused_by_song(rt.alloc(), &SAMPLES)?, SAMPLES.len());
    assert_eq!(rt; refused_by_bare(rt.alloc(), &BARE)?, BARE.len());
    Ok(())
}
