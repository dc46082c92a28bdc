//! What moves a period. C-4 has the linear period 4608, and each semitone above it 64 less.

use crate::playing::{ROW, Row, What, first_wrong};
use crate::song::{ONE_TICK, SONG, Song, THREE_TICKS};
use std::test::Fail;

static SLIDES: [Row; 18] = [
    // Four times 2 less at each later tick.
    Row {
        name: "portamento_up",
        song: Song {
            cells: &[(0, 49, 1, 0, 1, 2)],
            ..SONG
        },
        values: &[4608, 4600, 4592, 4584, 4576, 4568],
        ..ROW
    },
    Row {
        name: "portamento_down",
        song: Song {
            cells: &[(0, 49, 1, 0, 2, 2)],
            ..SONG
        },
        values: &[4608, 4616, 4624, 4632, 4640, 4648],
        ..ROW
    },
    // C-4 has the Amiga period 1712.
    Row {
        name: "portamento_up_with_amiga_periods",
        song: Song {
            cells: &[(0, 49, 1, 0, 1, 2)],
            linear: false,
            ..SONG
        },
        values: &[1712, 1704, 1696],
        ..ROW
    },
    // 1020 less at each tick, and then 1.
    Row {
        name: "a_period_is_at_least_1",
        song: Song {
            cells: &[(0, 49, 1, 0, 1, 255)],
            ..SONG
        },
        values: &[4608, 3588, 2568, 1548, 528, 1],
        ..ROW
    },
    // 30 times 1020 more are over the highest.
    Row {
        name: "a_period_is_at_most_31999",
        song: Song {
            cells: &[(0, 49, 1, 0, 2, 255)],
            tempo: 31,
            ..SONG
        },
        every: 30,
        values: &[4608, 31999],
        ..ROW
    },
    // Without a note there is no period, and none begins to move.
    Row {
        name: "no_period_stays_none",
        song: Song {
            cells: &[(0, 0, 0, 0, 2, 2)],
            ..SONG
        },
        values: &[0, 0],
        ..ROW
    },
    // Four times 2, once.
    Row {
        name: "fine_portamento_up",
        song: Song {
            cells: &[(0, 49, 1, 0, 14, 0x12)],
            ..SONG
        },
        values: &[4600, 4600],
        ..ROW
    },
    Row {
        name: "fine_portamento_down",
        song: Song {
            cells: &[(0, 49, 1, 0, 14, 0x22)],
            ..SONG
        },
        values: &[4616, 4616],
        ..ROW
    },
    // As it is, once.
    Row {
        name: "extra_fine_up",
        song: Song {
            cells: &[(0, 49, 1, 0, 33, 0x12)],
            ..SONG
        },
        values: &[4606, 4606],
        ..ROW
    },
    Row {
        name: "extra_fine_down",
        song: Song {
            cells: &[(0, 49, 1, 0, 33, 0x22)],
            ..SONG
        },
        values: &[4610, 4610],
        ..ROW
    },
    // D-4 is 4480: four times 4 towards it at each later tick, and in row 2 no more.
    Row {
        name: "tone_portamento",
        song: Song {
            cells: &[(0, 49, 1, 0, 0, 0), (1, 51, 0, 0, 3, 4)],
            ..THREE_TICKS
        },
        values: &[4608, 4608, 4608, 4608, 4592, 4576, 4576],
        ..ROW
    },
    // Four times 24 at each later tick; the second would pass the target.
    Row {
        name: "tone_portamento_stops_at_its_target",
        song: Song {
            cells: &[(0, 49, 1, 0, 0, 0), (1, 51, 0, 0, 3, 24)],
            ..THREE_TICKS
        },
        values: &[4608, 4608, 4608, 4608, 4512, 4480, 4480],
        ..ROW
    },
    Row {
        name: "a_target_of_tone_portamento",
        song: Song {
            cells: &[(0, 49, 1, 0, 0, 0), (1, 51, 0, 0, 3, 4)],
            ..THREE_TICKS
        },
        every: 3,
        what: What::Target,
        values: &[4608, 4480],
        ..ROW
    },
    // E-4 is 4352. The volume byte sets the speed 16, and volume byte and effect move by 64 each.
    Row {
        name: "two_tone_portamentos_move_twice",
        song: Song {
            cells: &[(0, 49, 1, 0, 0, 0), (1, 53, 0, 0xF1, 3, 0)],
            ..THREE_TICKS
        },
        values: &[4608, 4608, 4608, 4608, 4480, 4352],
        ..ROW
    },
    // Where no voice sounds the note begins.
    Row {
        name: "tone_portamento_without_a_voice_begins",
        song: Song {
            cells: &[(0, 51, 1, 0, 3, 4)],
            ..THREE_TICKS
        },
        values: &[4480, 4480],
        ..ROW
    },
    // Effect 5 takes the speed 4 of before, and goes on to 4480.
    Row {
        name: "tone_portamento_with_a_slide",
        song: Song {
            cells: &[(0, 49, 1, 0, 3, 4), (1, 51, 0, 0, 5, 2)],
            ..THREE_TICKS
        },
        values: &[4608, 4608, 4608, 4608, 4592, 4576],
        ..ROW
    },
    // In each later tick of tone portamento, and in no other.
    Row {
        name: "tone_portamento_is_told",
        song: Song {
            cells: &[(0, 49, 1, 0, 0, 0), (1, 51, 0, 0, 3, 4)],
            ..THREE_TICKS
        },
        what: What::Gliding,
        values: &[0, 0, 0, 0, 1, 1, 0],
        ..ROW
    },
    // On by a second digit other than 0.
    Row {
        name: "glissando",
        song: Song {
            cells: &[(0, 0, 0, 0, 14, 0x32), (1, 0, 0, 0, 14, 0x30)],
            ..ONE_TICK
        },
        what: What::Glissando,
        values: &[1, 0],
        ..ROW
    },
];

#[test]
fn periods_move(rt: HostRuntime) -> Result<(), Fail> {
    assert_eq!(rt; first_wrong(rt.alloc(), &SLIDES)?, None);
    Ok(())
}
