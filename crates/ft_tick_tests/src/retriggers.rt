//! Retriggers. Effect 9 begins the sample at frame 256, so that frame 0 shows a retrigger.

use crate::playing::{ROW, Row, What, first_wrong};
use crate::song::{SONG, Song, THREE_TICKS, TWO_TICKS};
use std::test::Fail;

/// A sample of 300 frames, and three ticks a row.
const LONG: Song = Song {
    frames: 300,
    ..THREE_TICKS
};

static RETRIGGERS: [Row; 10] = [
    // At tick 2 of row 1.
    Row {
        name: "retrigger",
        song: Song {
            cells: &[(0, 49, 1, 0, 9, 1), (1, 0, 0, 0, 14, 0x92)],
            ..LONG
        },
        what: What::Frame,
        values: &[256, 256, 256, 256, 256, 0],
        ..ROW
    },
    Row {
        name: "retrigger_by_0_is_none",
        song: Song {
            cells: &[(0, 49, 1, 0, 9, 1), (1, 0, 0, 0, 14, 0x90)],
            ..LONG
        },
        what: What::Frame,
        values: &[256, 256, 256, 256, 256, 256],
        ..ROW
    },
    // The second later tick counts 2.
    Row {
        name: "multi_retrigger",
        song: Song {
            cells: &[(0, 49, 1, 0, 9, 1), (1, 0, 0, 0, 27, 0x02)],
            ..LONG
        },
        what: What::Frame,
        values: &[256, 256, 256, 256, 256, 0],
        ..ROW
    },
    // Row 0 counts to 4 of 5; in row 1 the next count, 5, is over 2, and then each second.
    Row {
        name: "multi_retrigger_compares_with_at_least",
        song: Song {
            cells: &[(0, 49, 1, 0, 27, 0x05), (1, 0, 0, 0, 27, 0x02)],
            tempo: 5,
            ..SONG
        },
        what: What::Retrigger,
        values: &[0, 1, 2, 3, 4, 4, 0, 1, 0, 1],
        ..ROW
    },
    // No interval was ever given.
    Row {
        name: "multi_retrigger_without_interval_counts",
        song: Song {
            cells: &[(0, 49, 1, 0, 27, 0x00)],
            ..SONG
        },
        what: What::Retrigger,
        values: &[0, 1, 2, 3],
        ..ROW
    },
    // To 2 of 5 in each row.
    Row {
        name: "a_note_begins_the_count_anew",
        song: Song {
            cells: &[(0, 49, 1, 0, 27, 0x05), (1, 49, 1, 0, 27, 0x05)],
            ..LONG
        },
        what: What::Retrigger,
        values: &[0, 1, 2, 0, 1, 2],
        ..ROW
    },
    // None, 1, 2, 4, 8, 16 less, two thirds, a half, none, 1, 2, 4, 8, 16 more, three halves,
    // twice, which is at most 64.
    Row {
        name: "multi_retrigger_changes_a_volume_of_40",
        song: Song {
            cells: &[
                (0, 49, 1, 0x38, 27, 0x01),
                (1, 0, 0, 0x38, 27, 0x11),
                (2, 0, 0, 0x38, 27, 0x21),
                (3, 0, 0, 0x38, 27, 0x31),
                (4, 0, 0, 0x38, 27, 0x41),
                (5, 0, 0, 0x38, 27, 0x51),
                (6, 0, 0, 0x38, 27, 0x61),
                (7, 0, 0, 0x38, 27, 0x71),
                (8, 0, 0, 0x38, 27, 0x81),
                (9, 0, 0, 0x38, 27, 0x91),
                (10, 0, 0, 0x38, 27, 0xA1),
                (11, 0, 0, 0x38, 27, 0xB1),
                (12, 0, 0, 0x38, 27, 0xC1),
                (13, 0, 0, 0x38, 27, 0xD1),
                (14, 0, 0, 0x38, 27, 0xE1),
                (15, 0, 0, 0x38, 27, 0xF1),
            ],
            ..TWO_TICKS
        },
        what: What::Volume,
        values: &[
            40, 40, 40, 39, 40, 38, 40, 36, 40, 32, 40, 24, 40, 26, 40, 20, 40, 40, 40, 41, 40, 42,
            40, 44, 40, 48, 40, 56, 40, 60, 40, 64,
        ],
        ..ROW
    },
    // 16 less than 1.
    Row {
        name: "multi_retrigger_leaves_the_volume_within_0",
        song: Song {
            cells: &[(0, 49, 1, 0x11, 27, 0x51)],
            ..SONG
        },
        what: What::Volume,
        values: &[1, 0],
        ..ROW
    },
    // 16 more than 64.
    Row {
        name: "multi_retrigger_leaves_the_volume_within_64",
        song: Song {
            cells: &[(0, 49, 1, 0, 27, 0xD1)],
            ..SONG
        },
        what: What::Volume,
        values: &[64, 64],
        ..ROW
    },
    // 40, and 1 less at each later tick.
    Row {
        name: "multi_retrigger_without_a_voice_changes_the_volume",
        song: Song {
            cells: &[(0, 0, 0, 0x38, 27, 0x11)],
            ..SONG
        },
        what: What::Volume,
        values: &[40, 39, 38],
        ..ROW
    },
];

#[test]
fn voices_begin_again(rt: HostRuntime) -> Result<(), Fail> {
    assert_eq!(rt; first_wrong(rt.alloc(), &RETRIGGERS)?, None);
    Ok(())
}
