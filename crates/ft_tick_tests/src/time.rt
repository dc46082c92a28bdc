//! Tempo, BPM, and how many frames a tick has.

use crate::playing::{ROW, Row, What, first_wrong};
use crate::song::{ONE_TICK, SONG, Song};
use std::test::Fail;

static TIMES: [Row; 8] = [
    // 220500 frames go to 260 beats: 848 and 20 left, so that each 13th has one more.
    Row {
        name: "uncut_ticks_at_bpm_130",
        song: Song { bpm: 130, ..SONG },
        rate: 44100,
        what: What::Frames,
        values: &[
            848, 848, 848, 848, 848, 848, 848, 848, 848, 848, 848, 848, 849, 848, 848, 848, 848,
            848, 848, 848, 848, 848, 848, 848, 848, 849, 848,
        ],
        ..ROW
    },
    // 220500 frames go to 66 beats: 3340 and 60 left. With 60 more they give 3341 and 54 left,
    // then 48 and so on, down to 0 after tick 10.
    Row {
        name: "uncut_ticks_at_bpm_33",
        song: Song { bpm: 33, ..SONG },
        rate: 44100,
        what: What::Frames,
        values: &[
            3340, 3341, 3341, 3341, 3341, 3341, 3341, 3341, 3341, 3341, 3341, 3340, 3341,
        ],
        ..ROW
    },
    // 40000 frames go to 500 beats.
    Row {
        name: "a_bpm_acts_in_its_tick",
        song: Song {
            cells: &[(0, 0, 0, 0, 15, 250)],
            ..SONG
        },
        what: What::Frames,
        values: &[80, 80],
        ..ROW
    },
    // 220500 frames go to 66 beats, with 60 left. BPM 34 begins without them: 3242 and 44 left for
    // 68 beats, where 60 more would give 3243; the next tick takes the 44.
    Row {
        name: "a_new_bpm_drops_the_rest",
        song: Song {
            cells: &[(0, 0, 0, 0, 15, 33), (1, 0, 0, 0, 15, 34)],
            ..ONE_TICK
        },
        what: What::Frames,
        rate: 44100,
        values: &[3340, 3242, 3243],
        ..ROW
    },
    // 0 says nothing.
    Row {
        name: "a_tempo_below_32",
        song: Song {
            cells: &[(0, 0, 0, 0, 15, 31), (1, 0, 0, 0, 15, 0)],
            ..SONG
        },
        every: 31,
        what: What::Tempo,
        values: &[31, 31],
        ..ROW
    },
    Row {
        name: "a_bpm_from_32_on",
        song: Song {
            cells: &[(0, 0, 0, 0, 15, 32)],
            ..SONG
        },
        what: What::Bpm,
        values: &[32],
        ..ROW
    },
    // Row 1 keeps what row 0 set.
    Row {
        name: "the_song_gives_its_tempo_once",
        song: Song {
            cells: &[(0, 0, 0, 0, 15, 2)],
            ..SONG
        },
        every: 2,
        what: What::Tempo,
        values: &[2, 2, 2],
        ..ROW
    },
    Row {
        name: "the_last_channel_sets_the_tempo",
        song: Song {
            cells: &[(0, 0, 0, 0, 15, 3)],
            beside: &[(0, 0, 0, 0, 15, 2)],
            ..SONG
        },
        what: What::Tempo,
        values: &[2],
        ..ROW
    },
];

#[test]
fn ticks_have_their_frames(rt: HostRuntime) -> Result<(), Fail> {
    assert_eq!(rt; first_wrong(rt.alloc(), &TIMES)?, None);
    Ok(())
}
