//! What moves volumes and pannings. A note with its instrument has volume 64 and panning 128.

use crate::playing::{ROW, Row, What, first_wrong};
use crate::song::{SONG, Song};
use std::test::Fail;

static LEVELS: [Row; 24] = [
    // 2 less at each later tick.
    Row {
        name: "volume_slide_down",
        song: Song {
            cells: &[(0, 49, 1, 0, 10, 0x02)],
            ..SONG
        },
        what: What::Volume,
        values: &[64, 62, 60],
        ..ROW
    },
    // The volume byte sets 16; where both digits are there, the first counts.
    Row {
        name: "volume_slide_up_wins",
        song: Song {
            cells: &[(0, 49, 1, 0x20, 10, 0x32)],
            ..SONG
        },
        what: What::Volume,
        values: &[16, 19, 22],
        ..ROW
    },
    // 56 and 15 more.
    Row {
        name: "a_volume_is_at_most_64",
        song: Song {
            cells: &[(0, 49, 1, 0x48, 10, 0xF0)],
            ..SONG
        },
        what: What::Volume,
        values: &[56, 64],
        ..ROW
    },
    // 4 and 15 less.
    Row {
        name: "a_volume_is_at_least_0",
        song: Song {
            cells: &[(0, 49, 1, 0x14, 10, 0x0F)],
            ..SONG
        },
        what: What::Volume,
        values: &[4, 0],
        ..ROW
    },
    // 2 less, as by effect A.
    Row {
        name: "vibrato_with_a_slide",
        song: Song {
            cells: &[(0, 49, 1, 0, 6, 0x02)],
            ..SONG
        },
        what: What::Volume,
        values: &[64, 62, 60],
        ..ROW
    },
    // 16 and once 2 more.
    Row {
        name: "fine_volume_up",
        song: Song {
            cells: &[(0, 49, 1, 0x20, 14, 0xA2)],
            ..SONG
        },
        what: What::Volume,
        values: &[18, 18],
        ..ROW
    },
    // 16 and once 2 less.
    Row {
        name: "fine_volume_down",
        song: Song {
            cells: &[(0, 49, 1, 0x20, 14, 0xB2)],
            ..SONG
        },
        what: What::Volume,
        values: &[14, 14],
        ..ROW
    },
    // After the volume byte, and at most 64.
    Row {
        name: "a_volume_that_is_set",
        song: Song {
            cells: &[(0, 49, 1, 0x20, 12, 80), (1, 0, 0, 0x20, 12, 5)],
            ..SONG
        },
        every: 6,
        what: What::Volume,
        values: &[64, 5],
        ..ROW
    },
    // At tick 2.
    Row {
        name: "note_cut",
        song: Song {
            cells: &[(0, 49, 1, 0, 14, 0xC2)],
            ..SONG
        },
        what: What::Volume,
        values: &[64, 64, 0, 0],
        ..ROW
    },
    // At tick 0, after the volume byte.
    Row {
        name: "note_cut_at_once",
        song: Song {
            cells: &[(0, 49, 1, 0x20, 14, 0xC0)],
            ..SONG
        },
        what: What::Volume,
        values: &[0],
        ..ROW
    },
    // 0x10 to 0x50 are 0 to 64, and 0x51 to 0x5F say nothing.
    Row {
        name: "volume_bytes_of_a_volume",
        song: Song {
            cells: &[
                (0, 49, 1, 0x20, 0, 0),
                (1, 0, 0, 0x51, 0, 0),
                (2, 0, 0, 0x50, 0, 0),
                (3, 0, 0, 0x10, 0, 0),
            ],
            ..SONG
        },
        every: 6,
        what: What::Volume,
        values: &[16, 16, 64, 0],
        ..ROW
    },
    // 2 less at each later tick, and none at tick 0.
    Row {
        name: "volume_byte_6",
        song: Song {
            cells: &[(0, 49, 1, 0x62, 0, 0)],
            ..SONG
        },
        what: What::Volume,
        values: &[64, 62, 60],
        ..ROW
    },
    // 2 more at each later tick, from the 16 that the effect sets.
    Row {
        name: "volume_byte_7",
        song: Song {
            cells: &[(0, 49, 1, 0x72, 12, 16)],
            ..SONG
        },
        what: What::Volume,
        values: &[16, 18, 20],
        ..ROW
    },
    // 2 less, once.
    Row {
        name: "volume_byte_8",
        song: Song {
            cells: &[(0, 49, 1, 0x82, 0, 0)],
            ..SONG
        },
        what: What::Volume,
        values: &[62, 62],
        ..ROW
    },
    // 2 more than 16, once.
    Row {
        name: "volume_byte_9",
        song: Song {
            cells: &[(0, 49, 1, 0x20, 0, 0), (1, 0, 0, 0x92, 0, 0)],
            ..SONG
        },
        every: 6,
        what: What::Volume,
        values: &[16, 18, 18],
        ..ROW
    },
    Row {
        name: "panning_that_is_set",
        song: Song {
            cells: &[(0, 49, 1, 0, 8, 0x10)],
            ..SONG
        },
        what: What::Panning,
        values: &[16],
        ..ROW
    },
    // 16 times 5.
    Row {
        name: "volume_byte_c",
        song: Song {
            cells: &[(0, 49, 1, 0xC5, 0, 0)],
            ..SONG
        },
        what: What::Panning,
        values: &[80, 80],
        ..ROW
    },
    // 2 to the left at each later tick.
    Row {
        name: "volume_byte_d",
        song: Song {
            cells: &[(0, 49, 1, 0xD2, 0, 0)],
            ..SONG
        },
        what: What::Panning,
        values: &[128, 126, 124],
        ..ROW
    },
    // 2 to the right at each later tick.
    Row {
        name: "volume_byte_e",
        song: Song {
            cells: &[(0, 49, 1, 0xE2, 0, 0)],
            ..SONG
        },
        what: What::Panning,
        values: &[128, 130, 132],
        ..ROW
    },
    // 3 to the right.
    Row {
        name: "panning_slide_right_wins",
        song: Song {
            cells: &[(0, 49, 1, 0, 25, 0x32)],
            ..SONG
        },
        what: What::Panning,
        values: &[128, 131, 134],
        ..ROW
    },
    // 2 to the left.
    Row {
        name: "panning_slide_left",
        song: Song {
            cells: &[(0, 49, 1, 0, 25, 0x02)],
            ..SONG
        },
        what: What::Panning,
        values: &[128, 126, 124],
        ..ROW
    },
    // 240, and 15 and 15 more.
    Row {
        name: "a_panning_is_at_most_255",
        song: Song {
            cells: &[(0, 49, 1, 0xCF, 25, 0xF0)],
            ..SONG
        },
        what: What::Panning,
        values: &[240, 255, 255],
        ..ROW
    },
    // At most 64.
    Row {
        name: "global_volume",
        song: Song {
            cells: &[(0, 0, 0, 0, 16, 80), (1, 0, 0, 0, 16, 32)],
            ..SONG
        },
        every: 6,
        what: What::Global,
        values: &[64, 32],
        ..ROW
    },
    // 4 less at each later tick, as effect A does with a volume.
    Row {
        name: "global_slide",
        song: Song {
            cells: &[(0, 0, 0, 0, 17, 0x04)],
            ..SONG
        },
        what: What::Global,
        values: &[64, 60, 56],
        ..ROW
    },
];

#[test]
fn levels_move(rt: HostRuntime) -> Result<(), Fail> {
    assert_eq!(rt; first_wrong(rt.alloc(), &LEVELS)?, None);
    Ok(())
}
