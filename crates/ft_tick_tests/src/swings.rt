//! Arpeggio, vibrato, tremolo and tremor.
//!
//! The sine is 0, 180, 255, 180 and 0 at positions 0, 8, 16, 24 and 32, and then the same below 0.

use crate::playing::{ROW, Row, What, first_wrong};
use crate::song::{ONE_TICK, SONG, Song, THREE_TICKS, TWO_TICKS};
use std::test::Fail;

static SWINGS: [Row; 23] = [
    // By 0, 4 and 7 semitones in turn.
    Row {
        name: "arpeggio",
        song: Song {
            cells: &[(0, 49, 1, 0, 0, 0x47)],
            ..SONG
        },
        what: What::Arpeggio,
        values: &[0, 4, 7, 0, 4, 7],
        ..ROW
    },
    Row {
        name: "arpeggio_ends_with_its_row",
        song: Song {
            cells: &[(0, 49, 1, 0, 0, 0x47)],
            ..THREE_TICKS
        },
        what: What::Arpeggio,
        values: &[0, 4, 7, 0, 0],
        ..ROW
    },
    // 4 parts of 32 of the sine, rounded down, at 0, 8, 16, 24 and 32.
    Row {
        name: "vibrato",
        song: Song {
            cells: &[(0, 49, 1, 0, 4, 0x84)],
            ..SONG
        },
        what: What::VibratoOffset,
        values: &[0, 0, 22, 31, 22, 0],
        ..ROW
    },
    // 4 parts of 32 of 0, 253, 49, -244 and -97, the sine at 0, 15, 30, 45 and 60; sizes are
    // rounded down.
    Row {
        name: "vibrato_below",
        song: Song {
            cells: &[(0, 49, 1, 0, 4, 0xF4)],
            ..SONG
        },
        what: What::VibratoOffset,
        values: &[0, 0, 31, 6, -30, -12],
        ..ROW
    },
    // Each goes on by 8.
    Row {
        name: "two_vibratos_go_on_twice",
        song: Song {
            cells: &[(0, 49, 1, 0xB4, 4, 0x84)],
            ..SONG
        },
        what: What::VibratoPosition,
        values: &[0, 16, 32, 48, 0],
        ..ROW
    },
    // The second of each tick is at 8, 24 and 40.
    Row {
        name: "the_later_of_two_vibratos_stands",
        song: Song {
            cells: &[(0, 49, 1, 0xB4, 4, 0x84)],
            ..SONG
        },
        what: What::VibratoOffset,
        values: &[0, 22, 22, -22],
        ..ROW
    },
    // A digit of 0 sets nothing.
    Row {
        name: "vibrato_sets_the_speed_by_its_first_digit",
        song: Song {
            cells: &[
                (0, 0, 0, 0, 4, 0x82),
                (1, 0, 0, 0, 4, 0x05),
                (2, 0, 0, 0, 4, 0x30),
            ],
            ..ONE_TICK
        },
        what: What::VibratoSpeed,
        values: &[8, 8, 3],
        ..ROW
    },
    // A digit of 0 sets nothing.
    Row {
        name: "vibrato_sets_the_depth_by_its_second_digit",
        song: Song {
            cells: &[
                (0, 0, 0, 0, 4, 0x82),
                (1, 0, 0, 0, 4, 0x05),
                (2, 0, 0, 0, 4, 0x30),
            ],
            ..ONE_TICK
        },
        what: What::VibratoDepth,
        values: &[2, 5, 5],
        ..ROW
    },
    // A digit of 0 sets nothing.
    Row {
        name: "volume_byte_a",
        song: Song {
            cells: &[(0, 0, 0, 0xA8, 0, 0), (1, 0, 0, 0xA0, 0, 0)],
            ..ONE_TICK
        },
        what: What::VibratoSpeed,
        values: &[8, 8],
        ..ROW
    },
    // A digit of 0 sets nothing.
    Row {
        name: "volume_byte_b",
        song: Song {
            cells: &[(0, 0, 0, 0xB8, 0, 0), (1, 0, 0, 0xB0, 0, 0)],
            ..ONE_TICK
        },
        what: What::VibratoDepth,
        values: &[8, 8],
        ..ROW
    },
    // 4 parts of 32 of 255 and of 255 - 64.
    Row {
        name: "vibrato_as_a_ramp",
        song: Song {
            cells: &[(0, 49, 1, 0, 14, 0x41), (1, 0, 0, 0, 4, 0x84)],
            ..THREE_TICKS
        },
        what: What::VibratoOffset,
        values: &[0, 0, 0, 0, 31, 23],
        ..ROW
    },
    // 4 parts of 32 of 255; kind 3 is as kind 2.
    Row {
        name: "vibrato_as_a_square",
        song: Song {
            cells: &[(0, 49, 1, 0, 14, 0x43), (1, 0, 0, 0, 4, 0x84)],
            ..THREE_TICKS
        },
        what: What::VibratoOffset,
        values: &[0, 0, 0, 0, 31, 31],
        ..ROW
    },
    // By 8 at each later tick of row 0.
    Row {
        name: "a_note_begins_the_vibrato_anew",
        song: Song {
            cells: &[(0, 49, 1, 0, 4, 0x84), (1, 49, 1, 0, 0, 0)],
            ..THREE_TICKS
        },
        what: What::VibratoPosition,
        values: &[0, 8, 16, 0],
        ..ROW
    },
    // By 8 at each later tick of row 1.
    Row {
        name: "a_note_leaves_a_vibrato_of_kind_4",
        song: Song {
            cells: &[
                (0, 0, 0, 0, 14, 0x44),
                (1, 49, 1, 0, 4, 0x84),
                (2, 49, 1, 0, 0, 0),
            ],
            ..THREE_TICKS
        },
        what: What::VibratoPosition,
        values: &[0, 0, 0, 0, 8, 16, 16],
        ..ROW
    },
    // Three ticks, and once more; the wave is at 0, 8, 16 and 24 at the others.
    Row {
        name: "a_repeat_has_no_vibrato_at_its_first_tick",
        song: Song {
            cells: &[(0, 49, 1, 0, 4, 0x84)],
            beside: &[(0, 0, 0, 0, 14, 0xE1)],
            ..THREE_TICKS
        },
        what: What::VibratoOffset,
        values: &[0, 0, 22, 0, 31, 22],
        ..ROW
    },
    // 4 parts of 64 of the sine, rounded down.
    Row {
        name: "tremolo",
        song: Song {
            cells: &[(0, 49, 1, 0, 7, 0x84)],
            ..SONG
        },
        what: What::TremoloOffset,
        values: &[0, 0, 11, 15, 11, 0],
        ..ROW
    },
    // 4 parts of 64 of 255.
    Row {
        name: "tremolo_as_a_square",
        song: Song {
            cells: &[(0, 49, 1, 0, 14, 0x72), (1, 0, 0, 0, 7, 0x84)],
            ..THREE_TICKS
        },
        what: What::TremoloOffset,
        values: &[0, 0, 0, 0, 15, 15],
        ..ROW
    },
    // A digit of 0 sets nothing.
    Row {
        name: "tremolo_sets_the_speed_by_its_first_digit",
        song: Song {
            cells: &[
                (0, 0, 0, 0, 7, 0x82),
                (1, 0, 0, 0, 7, 0x05),
                (2, 0, 0, 0, 7, 0x30),
            ],
            ..ONE_TICK
        },
        what: What::TremoloSpeed,
        values: &[8, 8, 3],
        ..ROW
    },
    // A digit of 0 sets nothing.
    Row {
        name: "tremolo_sets_the_depth_by_its_second_digit",
        song: Song {
            cells: &[
                (0, 0, 0, 0, 7, 0x82),
                (1, 0, 0, 0, 7, 0x05),
                (2, 0, 0, 0, 7, 0x30),
            ],
            ..ONE_TICK
        },
        what: What::TremoloDepth,
        values: &[2, 5, 5],
        ..ROW
    },
    // Two ticks are heard, and two are not.
    Row {
        name: "tremor",
        song: Song {
            cells: &[(0, 49, 1, 0, 29, 0x11)],
            ..SONG
        },
        what: What::Muted,
        values: &[0, 0, 1, 1, 0, 0],
        ..ROW
    },
    // One tick is heard, and one not: the count stays 1 from the end of row 0.
    Row {
        name: "tremor_mutes_at_tick_0_too",
        song: Song {
            cells: &[(0, 49, 1, 0, 29, 0), (1, 0, 0, 0, 29, 0)],
            ..TWO_TICKS
        },
        what: What::Muted,
        values: &[0, 1, 1, 0],
        ..ROW
    },
    // The count is 0 again.
    Row {
        name: "a_note_begins_the_tremor_anew",
        song: Song {
            cells: &[(0, 49, 1, 0, 29, 0), (1, 49, 1, 0, 29, 0)],
            ..TWO_TICKS
        },
        what: What::Muted,
        values: &[0, 1, 0, 1],
        ..ROW
    },
    Row {
        name: "a_row_without_tremor_is_heard",
        song: Song {
            cells: &[(0, 49, 1, 0, 29, 0)],
            ..TWO_TICKS
        },
        what: What::Muted,
        values: &[0, 1, 0, 0],
        ..ROW
    },
];

#[test]
fn waves_swing(rt: HostRuntime) -> Result<(), Fail> {
    assert_eq!(rt; first_wrong(rt.alloc(), &SWINGS)?, None);
    Ok(())
}
