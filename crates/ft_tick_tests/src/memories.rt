//! What each effect remembers: a parameter of 0 stands for the last that wasn't 0.

use crate::playing::{ROW, Row, What, first_wrong};
use crate::song::{ONE_TICK, Song, THREE_TICKS, TWO_TICKS};
use std::test::Fail;

static MEMORIES: [Row; 19] = [
    // 8 less at tick 1 of both rows.
    Row {
        name: "portamento_up_remembers",
        song: Song {
            cells: &[(0, 49, 1, 0, 1, 2), (1, 0, 0, 0, 1, 0)],
            ..TWO_TICKS
        },
        values: &[4608, 4600, 4600, 4592],
        ..ROW
    },
    // 8 more at tick 1 of both rows.
    Row {
        name: "portamento_down_remembers",
        song: Song {
            cells: &[(0, 49, 1, 0, 2, 2), (1, 0, 0, 0, 2, 0)],
            ..TWO_TICKS
        },
        values: &[4608, 4616, 4616, 4624],
        ..ROW
    },
    // Row 0 has no note; that of row 1 begins 256 frames in.
    Row {
        name: "a_sample_offset_remembers_without_a_note",
        song: Song {
            cells: &[(0, 0, 0, 0, 9, 1), (1, 49, 1, 0, 9, 0)],
            frames: 300,
            ..TWO_TICKS
        },
        what: What::Frame,
        values: &[-1, -1, 256],
        ..ROW
    },
    // 2 less at tick 1 of both rows.
    Row {
        name: "a_volume_slide_remembers",
        song: Song {
            cells: &[(0, 49, 1, 0, 10, 2), (1, 0, 0, 0, 10, 0)],
            ..TWO_TICKS
        },
        what: What::Volume,
        values: &[64, 62, 62, 60],
        ..ROW
    },
    // 2 less at tick 1 of each row.
    Row {
        name: "slides_of_effects_5_6_and_a_remember_as_one",
        song: Song {
            cells: &[(0, 49, 1, 0, 5, 2), (1, 0, 0, 0, 6, 0), (2, 0, 0, 0, 10, 0)],
            ..TWO_TICKS
        },
        what: What::Volume,
        values: &[64, 62, 62, 60, 60, 58],
        ..ROW
    },
    // 8 less at tick 0 of both rows.
    Row {
        name: "fine_portamento_up_remembers",
        song: Song {
            cells: &[(0, 49, 1, 0, 14, 0x12), (1, 0, 0, 0, 14, 0x10)],
            ..TWO_TICKS
        },
        values: &[4600, 4600, 4592, 4592],
        ..ROW
    },
    // 8 more at tick 0 of both rows.
    Row {
        name: "fine_portamento_down_remembers",
        song: Song {
            cells: &[(0, 49, 1, 0, 14, 0x22), (1, 0, 0, 0, 14, 0x20)],
            ..TWO_TICKS
        },
        values: &[4616, 4616, 4624, 4624],
        ..ROW
    },
    // 2 more than 16, and 2 more.
    Row {
        name: "fine_volume_up_remembers",
        song: Song {
            cells: &[(0, 49, 1, 0x20, 14, 0xA2), (1, 0, 0, 0, 14, 0xA0)],
            ..TWO_TICKS
        },
        what: What::Volume,
        values: &[18, 18, 20, 20],
        ..ROW
    },
    // 2 less than 16, and 2 less.
    Row {
        name: "fine_volume_down_remembers",
        song: Song {
            cells: &[(0, 49, 1, 0x20, 14, 0xB2), (1, 0, 0, 0, 14, 0xB0)],
            ..TWO_TICKS
        },
        what: What::Volume,
        values: &[14, 14, 12, 12],
        ..ROW
    },
    // 4 less at tick 1 of both rows.
    Row {
        name: "a_global_slide_remembers",
        song: Song {
            cells: &[(0, 0, 0, 0, 17, 4), (1, 0, 0, 0, 17, 0)],
            ..TWO_TICKS
        },
        what: What::Global,
        values: &[64, 60, 60, 56],
        ..ROW
    },
    // 3 to the left at tick 1 of both rows.
    Row {
        name: "a_panning_slide_remembers",
        song: Song {
            cells: &[(0, 49, 1, 0, 25, 3), (1, 0, 0, 0, 25, 0)],
            ..TWO_TICKS
        },
        what: What::Panning,
        values: &[128, 125, 125, 122],
        ..ROW
    },
    // 1 less than 40 at tick 1, and 1 less; the interval 1 comes again.
    Row {
        name: "a_retrigger_remembers_its_change",
        song: Song {
            cells: &[(0, 49, 1, 0x38, 27, 0x11), (1, 0, 0, 0, 27, 0x01)],
            ..TWO_TICKS
        },
        what: What::Volume,
        values: &[40, 39, 39, 38],
        ..ROW
    },
    // 1 less than 40 at tick 1, and 2 less by the other change.
    Row {
        name: "a_retrigger_remembers_its_interval",
        song: Song {
            cells: &[(0, 49, 1, 0x38, 27, 0x11), (1, 0, 0, 0, 27, 0x20)],
            ..TWO_TICKS
        },
        what: What::Volume,
        values: &[40, 39, 39, 37],
        ..ROW
    },
    // Three ticks are heard, and one is not: the count is 0, 1, 2, 2, 3, 0.
    Row {
        name: "a_tremor_remembers",
        song: Song {
            cells: &[(0, 49, 1, 0, 29, 0x20), (1, 0, 0, 0, 29, 0)],
            ..THREE_TICKS
        },
        what: What::Muted,
        values: &[0, 0, 0, 0, 1, 0],
        ..ROW
    },
    // 2 less at tick 0 of both rows.
    Row {
        name: "extra_fine_up_remembers",
        song: Song {
            cells: &[(0, 49, 1, 0, 33, 0x12), (1, 0, 0, 0, 33, 0x10)],
            ..TWO_TICKS
        },
        values: &[4606, 4606, 4604, 4604],
        ..ROW
    },
    // 2 more at tick 0 of both rows.
    Row {
        name: "extra_fine_down_remembers",
        song: Song {
            cells: &[(0, 49, 1, 0, 33, 0x22), (1, 0, 0, 0, 33, 0x20)],
            ..TWO_TICKS
        },
        values: &[4610, 4610, 4612, 4612],
        ..ROW
    },
    // The rows have one tick.
    Row {
        name: "effects_of_later_ticks_remember_without_one",
        song: Song {
            cells: &[(0, 0, 0, 0, 1, 5), (1, 0, 0, 0, 1, 0), (2, 0, 0, 0, 1, 7)],
            ..ONE_TICK
        },
        what: What::Memory(0),
        values: &[5, 5, 7],
        ..ROW
    },
    // Effect 1 leaves what effect 2 remembers.
    Row {
        name: "up_and_down_remember_apart",
        song: Song {
            cells: &[(0, 0, 0, 0, 2, 5), (1, 0, 0, 0, 1, 7)],
            ..ONE_TICK
        },
        what: What::Memory(1),
        values: &[5, 5],
        ..ROW
    },
    // 0 is the left.
    Row {
        name: "effect_8_remembers_nothing",
        song: Song {
            cells: &[(0, 49, 1, 0, 8, 16), (1, 0, 0, 0, 8, 0)],
            ..ONE_TICK
        },
        what: What::Panning,
        values: &[16, 0],
        ..ROW
    },
];

#[test]
fn effects_remember(rt: HostRuntime) -> Result<(), Fail> {
    assert_eq!(rt; first_wrong(rt.alloc(), &MEMORIES)?, None);
    Ok(())
}
