//! Notes that begin, or don't, and instrument bytes. C-4 has the period 4608.

use crate::playing::{ROW, Row, What, first_wrong};
use crate::song::{ONE_TICK, SONG, Song, THREE_TICKS};
use std::test::Fail;

/// A sample of 300 frames.
const LONG: Song = Song {
    frames: 300,
    ..ONE_TICK
};

/// A volume envelope that is on.
const ON: Song = Song {
    envelope: 1,
    ..ONE_TICK
};

static NOTES: [Row; 22] = [
    // The volume byte of row 0 set 16.
    Row {
        name: "a_note_without_instrument_keeps_its_volume",
        song: Song {
            cells: &[(0, 49, 1, 0x20, 0, 0), (1, 51, 0, 0, 0, 0)],
            ..ONE_TICK
        },
        what: What::Volume,
        values: &[16, 16],
        ..ROW
    },
    // Effect 8 of row 0 set 16.
    Row {
        name: "a_note_without_instrument_keeps_its_panning",
        song: Song {
            cells: &[(0, 49, 1, 0, 8, 0x10), (1, 51, 0, 0, 0, 0)],
            ..ONE_TICK
        },
        what: What::Panning,
        values: &[16, 16],
        ..ROW
    },
    // That of the sample that sounds, 64.
    Row {
        name: "an_instrument_without_a_note_gives_its_volume",
        song: Song {
            cells: &[(0, 49, 1, 0x20, 0, 0), (1, 0, 1, 0, 0, 0)],
            ..ONE_TICK
        },
        what: What::Volume,
        values: &[16, 64],
        ..ROW
    },
    // That of the sample that sounds, 128.
    Row {
        name: "an_instrument_without_a_note_gives_its_panning",
        song: Song {
            cells: &[(0, 49, 1, 0, 8, 0x10), (1, 0, 1, 0, 0, 0)],
            ..ONE_TICK
        },
        what: What::Panning,
        values: &[16, 128],
        ..ROW
    },
    // Instrument 9 isn't there; the voice has the sample of instrument 1.
    Row {
        name: "a_missing_instrument_gives_the_volume_of_the_voice",
        song: Song {
            cells: &[(0, 49, 1, 0x20, 0, 0), (1, 0, 9, 0, 0, 0)],
            ..ONE_TICK
        },
        what: What::Volume,
        values: &[16, 64],
        ..ROW
    },
    // Also where there is no such instrument; 0 is none.
    Row {
        name: "an_instrument_byte_is_kept",
        song: Song {
            cells: &[(0, 49, 1, 0, 0, 0), (1, 0, 9, 0, 0, 0)],
            ..ONE_TICK
        },
        what: What::Instrument,
        values: &[1, 9, 9],
        ..ROW
    },
    // Effect K released at tick 0 of row 0.
    Row {
        name: "an_instrument_without_a_note_ends_a_release",
        song: Song {
            cells: &[(0, 49, 1, 0, 20, 0), (1, 0, 1, 0, 0, 0)],
            ..ONE_TICK
        },
        what: What::Released,
        values: &[1, 0],
        ..ROW
    },
    Row {
        name: "an_instrument_without_a_voice_gives_full_fade",
        song: Song {
            cells: &[(1, 0, 1, 0, 0, 0)],
            ..ONE_TICK
        },
        what: What::Fade,
        values: &[0, 32768],
        ..ROW
    },
    // Effect L set 9.
    Row {
        name: "an_instrument_begins_envelopes_anew",
        song: Song {
            cells: &[(0, 49, 1, 0, 21, 9), (1, 0, 0, 0, 0, 0), (2, 0, 1, 0, 0, 0)],
            ..ONE_TICK
        },
        what: What::EnvelopePosition,
        values: &[9, 9, 0],
        ..ROW
    },
    Row {
        name: "a_missing_instrument_stops_the_voice",
        song: Song {
            cells: &[(0, 49, 1, 0, 0, 0), (1, 51, 9, 0, 0, 0)],
            ..ONE_TICK
        },
        what: What::Frame,
        values: &[0, -1],
        ..ROW
    },
    Row {
        name: "a_failed_start_keeps_the_period",
        song: Song {
            cells: &[(0, 49, 1, 0, 0, 0), (1, 51, 9, 0, 0, 0)],
            ..ONE_TICK
        },
        values: &[4608, 4608],
        ..ROW
    },
    Row {
        name: "a_failed_start_keeps_the_target",
        song: Song {
            cells: &[(0, 49, 1, 0, 0, 0), (1, 51, 9, 0, 0, 0)],
            ..ONE_TICK
        },
        what: What::Target,
        values: &[4608, 4608],
        ..ROW
    },
    // C-4 is 48, and 70 more is 118; the note above it is not played.
    Row {
        name: "a_note_over_118_stops_the_voice",
        song: Song {
            cells: &[(0, 49, 1, 0, 0, 0), (1, 50, 1, 0, 0, 0)],
            tuned: (0, 70),
            ..ONE_TICK
        },
        what: What::Frame,
        values: &[0, -1],
        ..ROW
    },
    // C-4 is 48, and 48 less is 0; the note below it is not played.
    Row {
        name: "a_note_below_0_stops_the_voice",
        song: Song {
            cells: &[(0, 49, 1, 0, 0, 0), (1, 48, 1, 0, 0, 0)],
            tuned: (0, -48),
            ..ONE_TICK
        },
        what: What::Frame,
        values: &[0, -1],
        ..ROW
    },
    // C-4 is 48, and 70 more is 118, whose period is 7680 - 64 * 118.
    Row {
        name: "a_note_that_is_not_played_is_no_target",
        song: Song {
            cells: &[(0, 49, 1, 0, 0, 0), (1, 50, 0, 0, 3, 4)],
            tuned: (0, 70),
            ..ONE_TICK
        },
        what: What::Target,
        values: &[128, 128],
        ..ROW
    },
    // 256 frames in, where the sample has more.
    Row {
        name: "sample_offset",
        song: Song {
            cells: &[(0, 49, 1, 0, 9, 1)],
            frames: 257,
            ..ONE_TICK
        },
        what: What::Frame,
        values: &[256],
        ..ROW
    },
    // The sample has 256 frames.
    Row {
        name: "a_sample_offset_at_the_end_begins_nothing",
        song: Song {
            cells: &[(0, 49, 1, 0, 0, 0), (1, 49, 1, 0, 9, 1)],
            frames: 256,
            ..ONE_TICK
        },
        what: What::Frame,
        values: &[0, -1],
        ..ROW
    },
    // It acts beside a start alone.
    Row {
        name: "a_sample_offset_without_a_note",
        song: Song {
            cells: &[(0, 49, 1, 0, 0, 0), (1, 0, 0, 0, 9, 1)],
            ..LONG
        },
        what: What::Frame,
        values: &[0, 0],
        ..ROW
    },
    // 16 * 12 - 128 is 64, and half of it less is 4576.
    Row {
        name: "finetune",
        song: Song {
            cells: &[(0, 49, 1, 0, 14, 0x5C)],
            ..ONE_TICK
        },
        values: &[4576, 4576],
        ..ROW
    },
    // 0x58 is 0.
    Row {
        name: "finetune_instead_of_that_of_the_sample",
        song: Song {
            cells: &[(0, 49, 1, 0, 14, 0x58), (1, 49, 1, 0, 0, 0)],
            tuned: (64, 0),
            ..ONE_TICK
        },
        values: &[4608, 4576],
        ..ROW
    },
    // The voice keeps the finetune 0 of its sample for a target.
    Row {
        name: "finetune_of_one_start_alone",
        song: Song {
            cells: &[(0, 49, 1, 0, 14, 0x5C), (1, 49, 0, 0, 3, 1)],
            ..ONE_TICK
        },
        what: What::Target,
        values: &[4576, 4608],
        ..ROW
    },
    Row {
        name: "finetune_without_a_note",
        song: Song {
            cells: &[(0, 49, 1, 0, 0, 0), (1, 0, 0, 0, 14, 0x5C)],
            ..ONE_TICK
        },
        values: &[4608, 4608],
        ..ROW
    },
];

#[test]
fn notes_begin(rt: HostRuntime) -> Result<(), Fail> {
    assert_eq!(rt; first_wrong(rt.alloc(), &NOTES)?, None);
    Ok(())
}

static KEYS: [Row; 17] = [
    // The volume envelope is off.
    Row {
        name: "key_off_silences",
        song: Song {
            cells: &[(0, 49, 1, 0, 0, 0), (1, 97, 0, 0, 0, 0)],
            ..ONE_TICK
        },
        what: What::Volume,
        values: &[64, 0],
        ..ROW
    },
    Row {
        name: "key_off_releases",
        song: Song {
            cells: &[(0, 49, 1, 0, 0, 0), (1, 97, 0, 0, 0, 0)],
            ..ONE_TICK
        },
        what: What::Released,
        values: &[0, 1],
        ..ROW
    },
    Row {
        name: "key_off_with_an_envelope_keeps_the_volume",
        song: Song {
            cells: &[(0, 49, 1, 0, 0, 0), (1, 97, 0, 0, 0, 0)],
            ..ON
        },
        what: What::Volume,
        values: &[64, 64],
        ..ROW
    },
    // Instrument 9 isn't there, so its envelope isn't on.
    Row {
        name: "an_instrument_byte_counts_before_a_key_off",
        song: Song {
            cells: &[(0, 49, 1, 0, 0, 0), (1, 97, 9, 0, 0, 0)],
            ..ON
        },
        what: What::Volume,
        values: &[64, 0],
        ..ROW
    },
    Row {
        name: "key_off_beside_an_instrument_takes_no_volume",
        song: Song {
            cells: &[(0, 49, 1, 0x20, 0, 0), (1, 97, 1, 0, 0, 0)],
            ..ONE_TICK
        },
        what: What::Volume,
        values: &[16, 0],
        ..ROW
    },
    Row {
        name: "key_off_beside_an_instrument_releases",
        song: Song {
            cells: &[(0, 49, 1, 0, 0, 0), (1, 97, 1, 0, 0, 0)],
            ..ONE_TICK
        },
        what: What::Released,
        values: &[0, 1],
        ..ROW
    },
    // At tick 2.
    Row {
        name: "key_off_at_a_tick",
        song: Song {
            cells: &[(0, 49, 1, 0, 20, 2)],
            ..SONG
        },
        what: What::Released,
        values: &[0, 0, 1, 1],
        ..ROW
    },
    // At tick 2.
    Row {
        name: "key_off_at_a_tick_silences",
        song: Song {
            cells: &[(0, 49, 1, 0, 20, 2)],
            ..SONG
        },
        what: What::Volume,
        values: &[64, 64, 0, 0],
        ..ROW
    },
    // At tick 0, after the note.
    Row {
        name: "key_off_at_once",
        song: Song {
            cells: &[(0, 49, 1, 0, 20, 0)],
            ..SONG
        },
        what: What::Released,
        values: &[1],
        ..ROW
    },
    // The row has three ticks.
    Row {
        name: "key_off_past_the_row",
        song: Song {
            cells: &[(0, 49, 1, 0, 20, 3)],
            ..THREE_TICKS
        },
        what: What::Released,
        values: &[0, 0, 0, 0],
        ..ROW
    },
    // At tick 2.
    Row {
        name: "note_delay",
        song: Song {
            cells: &[(0, 49, 1, 0, 14, 0xD2)],
            ..SONG
        },
        what: What::Frame,
        values: &[-1, -1, 0, 0],
        ..ROW
    },
    // At tick 2.
    Row {
        name: "note_delay_of_the_instrument_too",
        song: Song {
            cells: &[(0, 49, 1, 0, 14, 0xD2)],
            ..SONG
        },
        what: What::Instrument,
        values: &[0, 0, 1, 1],
        ..ROW
    },
    Row {
        name: "note_delay_by_0_is_none",
        song: Song {
            cells: &[(0, 49, 1, 0, 14, 0xD0)],
            ..SONG
        },
        what: What::Frame,
        values: &[0, 0],
        ..ROW
    },
    // The row has three ticks.
    Row {
        name: "note_delay_past_the_row",
        song: Song {
            cells: &[(0, 49, 1, 0, 14, 0xD3)],
            ..THREE_TICKS
        },
        what: What::Frame,
        values: &[-1, -1, -1, -1],
        ..ROW
    },
    // 2 less at ticks 1 and 2; then the note of tick 2 has 64, and 2 less follow.
    Row {
        name: "the_volume_byte_comes_before_a_delayed_note",
        song: Song {
            cells: &[(0, 49, 1, 0, 0, 0), (1, 51, 1, 0x62, 14, 0xD2)],
            tempo: 4,
            ..SONG
        },
        what: What::Volume,
        values: &[64, 64, 64, 64, 64, 62, 64, 62],
        ..ROW
    },
    // Four ticks, and once more: 64 at tick 2 of each, and 2 less at each other later tick.
    Row {
        name: "a_delayed_note_begins_in_each_repeat",
        song: Song {
            cells: &[(0, 49, 1, 0x62, 14, 0xD2)],
            beside: &[(0, 0, 0, 0, 14, 0xE1)],
            tempo: 4,
            ..SONG
        },
        what: What::Volume,
        values: &[0, 0, 64, 62, 62, 60, 64, 62],
        ..ROW
    },
    Row {
        name: "envelope_position",
        song: Song {
            cells: &[(0, 49, 1, 0, 21, 9)],
            ..SONG
        },
        what: What::EnvelopePosition,
        values: &[9],
        ..ROW
    },
];

#[test]
fn keys_go_off_and_notes_wait(rt: HostRuntime) -> Result<(), Fail> {
    assert_eq!(rt; first_wrong(rt.alloc(), &KEYS)?, None);
    Ok(())
}
