//! Where a song goes: order position, row and tick of each tick.

ghost use Rattle.std.specs.Prelude.{◌≡◌, ◌≤◌, length};
ghost use Rattle.ft_types.specs.Valid.{IsValid};
ghost use Rattle.ft_replay.specs.Range.{IsSongInRange};

use crate::playing::skip;
use crate::song::{ONE_TICK, SONG, Song, module_of};
use ft_replay::SongState;
use ft_tick::tick_state;
use ft_types::{Module, ModuleView, SongView, valid};
use std::alloc::{AllocError, Global};
use std::test::Fail;

/// A song, and the places of its ticks 0, `every`, twice `every` and so on.
#[derive(Clone, Copy)]
struct Row {
    /// What the row shows.
    name: &'static str,
    /// The song.
    song: Song,
    /// From each tick that is compared to the next.
    every: u8,
    /// Order position, row and tick.
    places: &'static [(u16, u16, u16)],
}

/// Whether the ticks of a state are at the places of a row.
fn goes_on<V: SongView>(view: &mut V, state: &mut SongState, row: &Row) -> bool
    requires wide { state.old.used ≡ length (V.holds view.old) }
    requires range { IsSongInRange state.old }
{
    for (order, in_order, tick) in row.places.iter() {
        let at = tick_state(view, state, 8000);
        if at.order != *order || at.row != *in_order || at.tick != *tick {
            return false;
        }
        skip(view, state, 8000, row.every.saturating_sub(1));
    }
    true
}

/// Whether a song goes by the places of a row from its beginning.
fn goes(song: &Module, row: &Row) -> bool
    requires { IsValid song.now }
{
    let mut view = ModuleView::new(song);
    let mut state = SongState::first(song.channels);
    goes_on(&mut view, &mut state, row)
}

/// Whether the song of a row goes by its places.
fn leads(alloc: Global, row: &Row) -> Result<bool, AllocError> {
    let song = module_of(alloc, &row.song)?;
    if !valid(&song) {
        return Ok(false);
    }
    Ok(goes(&song, row))
}

/// Three orders of one pattern of four rows, with one tick each.
const SHORT: Song = Song {
    orders: &[0, 0, 0],
    rows: 4,
    ..ONE_TICK
};

static ROWS: [Row; 24] = [
    // The first time at row 2 twice more are left, then once, then none.
    Row {
        name: "row_loop",
        song: Song {
            cells: &[(0, 49, 1, 0, 14, 0x60), (2, 0, 0, 0, 14, 0x62)],
            ..SONG
        },
        every: 6,
        places: &[
            (0, 0, 0),
            (0, 1, 0),
            (0, 2, 0),
            (0, 0, 0),
            (0, 1, 0),
            (0, 2, 0),
            (0, 0, 0),
            (0, 1, 0),
            (0, 2, 0),
            (0, 3, 0),
        ],
    },
    // No row was named. After the loop its rows go on.
    Row {
        name: "a_row_loop_begins_at_row_0",
        song: Song {
            cells: &[(1, 0, 0, 0, 14, 0x61)],
            ..SHORT
        },
        every: 1,
        places: &[
            (0, 0, 0),
            (0, 1, 0),
            (0, 0, 0),
            (0, 1, 0),
            (0, 2, 0),
            (0, 3, 0),
            (1, 0, 0),
        ],
    },
    // Once more each time that row 1 is reached from elsewhere.
    Row {
        name: "a_row_loop_begins_again_at_its_end",
        song: Song {
            cells: &[(1, 0, 0, 0, 14, 0x61), (2, 0, 0, 0, 11, 0)],
            ..SHORT
        },
        every: 1,
        places: &[
            (0, 0, 0),
            (0, 1, 0),
            (0, 0, 0),
            (0, 1, 0),
            (0, 2, 0),
            (0, 0, 0),
            (0, 1, 0),
            (0, 0, 0),
            (0, 1, 0),
            (0, 2, 0),
            (0, 0, 0),
        ],
    },
    // The first goes from row 1 to row 0, the second from row 2 to row 2.
    Row {
        name: "each_channel_has_its_loop",
        song: Song {
            cells: &[(1, 0, 0, 0, 14, 0x61)],
            beside: &[(2, 0, 0, 0, 14, 0x60), (3, 0, 0, 0, 14, 0x61)],
            ..SHORT
        },
        every: 1,
        places: &[
            (0, 0, 0),
            (0, 1, 0),
            (0, 0, 0),
            (0, 1, 0),
            (0, 2, 0),
            (0, 3, 0),
            (0, 2, 0),
            (0, 3, 0),
            (1, 0, 0),
        ],
    },
    // Both loops end at row 3; the first channel's begins at row 1, the second's at row 2. Both
    // counts fall at each passing.
    Row {
        name: "the_last_channel_goes_back",
        song: Song {
            cells: &[(1, 0, 0, 0, 14, 0x60), (3, 0, 0, 0, 14, 0x61)],
            beside: &[(2, 0, 0, 0, 14, 0x60), (3, 0, 0, 0, 14, 0x61)],
            ..SHORT
        },
        every: 1,
        places: &[
            (0, 0, 0),
            (0, 1, 0),
            (0, 2, 0),
            (0, 3, 0),
            (0, 2, 0),
            (0, 3, 0),
            (1, 0, 0),
        ],
    },
    // Six ticks, and once more.
    Row {
        name: "pattern_delay",
        song: Song {
            cells: &[(0, 49, 1, 0, 14, 0xE1)],
            ..SONG
        },
        every: 1,
        places: &[
            (0, 0, 0),
            (0, 0, 1),
            (0, 0, 2),
            (0, 0, 3),
            (0, 0, 4),
            (0, 0, 5),
            (0, 0, 6),
            (0, 0, 7),
            (0, 0, 8),
            (0, 0, 9),
            (0, 0, 10),
            (0, 0, 11),
            (0, 1, 0),
        ],
    },
    // Once more, and not three times.
    Row {
        name: "the_last_channel_delays",
        song: Song {
            cells: &[(0, 0, 0, 0, 14, 0xE3)],
            beside: &[(0, 0, 0, 0, 14, 0xE1)],
            ..SHORT
        },
        every: 1,
        places: &[(0, 0, 0), (0, 0, 1), (0, 1, 0)],
    },
    // The last channel says none.
    Row {
        name: "a_delay_by_0_is_a_delay",
        song: Song {
            cells: &[(0, 0, 0, 0, 14, 0xE3)],
            beside: &[(0, 0, 0, 0, 14, 0xE0)],
            ..SHORT
        },
        every: 1,
        places: &[(0, 0, 0), (0, 1, 0)],
    },
    // Two ticks, and once more.
    Row {
        name: "a_tempo_counts_in_its_row",
        song: Song {
            cells: &[(0, 0, 0, 0, 15, 2)],
            beside: &[(0, 0, 0, 0, 14, 0xE1)],
            ..SHORT
        },
        every: 1,
        places: &[
            (0, 0, 0),
            (0, 0, 1),
            (0, 0, 2),
            (0, 0, 3),
            (0, 1, 0),
            (0, 1, 1),
            (0, 2, 0),
        ],
    },
    // Row 12 in decimal digits, of the next order position.
    Row {
        name: "break_to_a_row",
        song: Song {
            cells: &[(0, 49, 1, 0, 13, 0x12)],
            orders: &[0, 0],
            ..SONG
        },
        every: 6,
        places: &[(0, 0, 0), (1, 12, 0)],
    },
    // The order position 1 is past the song: the restart, at its first row.
    Row {
        name: "break_with_one_order",
        song: Song {
            cells: &[(0, 49, 1, 0, 13, 0x12)],
            ..SONG
        },
        every: 6,
        places: &[(0, 0, 0), (0, 0, 0)],
    },
    // 0x64 is 64.
    Row {
        name: "break_past_63_is_to_row_0",
        song: Song {
            cells: &[(0, 0, 0, 0, 13, 0x64)],
            orders: &[0, 0],
            ..ONE_TICK
        },
        every: 1,
        places: &[(0, 0, 0), (1, 0, 0)],
    },
    // 0x63 is 63, the last row; then the song is over.
    Row {
        name: "break_to_row_63",
        song: Song {
            cells: &[(0, 0, 0, 0, 13, 0x63)],
            orders: &[0, 0],
            ..ONE_TICK
        },
        every: 1,
        places: &[(0, 0, 0), (1, 63, 0), (0, 0, 0)],
    },
    // The next pattern has no row 4.
    Row {
        name: "break_past_the_pattern_skips_it",
        song: Song {
            cells: &[(0, 0, 0, 0, 13, 0x04)],
            ..SHORT
        },
        every: 1,
        places: &[(0, 0, 0), (2, 0, 0)],
    },
    Row {
        name: "jump",
        song: Song {
            cells: &[(0, 0, 0, 0, 11, 2)],
            ..SHORT
        },
        every: 1,
        places: &[(0, 0, 0), (2, 0, 0)],
    },
    // The rows begin anew.
    Row {
        name: "jump_to_its_own_position",
        song: Song {
            cells: &[(1, 0, 0, 0, 11, 0)],
            ..SHORT
        },
        every: 1,
        places: &[(0, 0, 0), (0, 1, 0), (0, 0, 0)],
    },
    Row {
        name: "jump_past_the_song_is_to_the_restart",
        song: Song {
            cells: &[(1, 0, 0, 0, 11, 3)],
            restart: 1,
            ..SHORT
        },
        every: 1,
        places: &[(0, 0, 0), (0, 1, 0), (1, 0, 0)],
    },
    // The jump says the position and the break the row.
    Row {
        name: "jump_with_break",
        song: Song {
            cells: &[(0, 0, 0, 0, 11, 2)],
            beside: &[(0, 0, 0, 0, 13, 0x03)],
            ..SHORT
        },
        every: 1,
        places: &[(0, 0, 0), (2, 3, 0)],
    },
    Row {
        name: "the_last_channel_jumps",
        song: Song {
            cells: &[(0, 0, 0, 0, 11, 1)],
            beside: &[(0, 0, 0, 0, 11, 2)],
            ..SHORT
        },
        every: 1,
        places: &[(0, 0, 0), (2, 0, 0)],
    },
    // Row 1 goes back once, and then its jump counts; that of the way back is dropped.
    Row {
        name: "a_back_wins_over_a_jump",
        song: Song {
            cells: &[(1, 0, 0, 0, 14, 0x61)],
            beside: &[(1, 0, 0, 0, 11, 2)],
            ..SHORT
        },
        every: 1,
        places: &[(0, 0, 0), (0, 1, 0), (0, 0, 0), (0, 1, 0), (2, 0, 0)],
    },
    // Whichever channel comes first.
    Row {
        name: "a_back_wins_over_a_break",
        song: Song {
            cells: &[(1, 0, 0, 0, 13, 3)],
            beside: &[(1, 0, 0, 0, 14, 0x61)],
            ..SHORT
        },
        every: 1,
        places: &[(0, 0, 0), (0, 1, 0), (0, 0, 0), (0, 1, 0), (1, 3, 0)],
    },
    // Loop row 2 goes with the break: row 1 of the next position goes back to row 0.
    Row {
        name: "a_break_ends_loops_of_rows",
        song: Song {
            cells: &[
                (2, 0, 0, 0, 14, 0x60),
                (3, 0, 0, 0, 13, 0x01),
                (1, 0, 0, 0, 14, 0x61),
            ],
            orders: &[0, 0, 9],
            ..SHORT
        },
        every: 1,
        places: &[
            (0, 0, 0),
            (0, 1, 0),
            (0, 0, 0),
            (0, 1, 0),
            (0, 2, 0),
            (0, 3, 0),
            (1, 1, 0),
            (1, 0, 0),
            (1, 1, 0),
            (1, 2, 0),
        ],
    },
    // Loop row 2 goes at the end of the pattern, which is that of the song: row 1 goes back to
    // row 0.
    Row {
        name: "the_restart_ends_loops_of_rows",
        song: Song {
            cells: &[(2, 0, 0, 0, 14, 0x60), (1, 0, 0, 0, 14, 0x61)],
            orders: &[0],
            ..SHORT
        },
        every: 1,
        places: &[
            (0, 0, 0),
            (0, 1, 0),
            (0, 0, 0),
            (0, 1, 0),
            (0, 2, 0),
            (0, 3, 0),
            (0, 0, 0),
            (0, 1, 0),
            (0, 0, 0),
            (0, 1, 0),
            (0, 2, 0),
        ],
    },
    // Order 9 names none.
    Row {
        name: "a_pattern_that_is_not_stored_has_64_rows",
        song: Song {
            orders: &[9, 0],
            ..SHORT
        },
        every: 32,
        places: &[(0, 0, 0), (0, 32, 0), (1, 0, 0)],
    },
];

#[test]
fn songs_go_by_their_places(rt: HostRuntime) -> Result<(), Fail> {
    for row in ROWS.iter() {
        assert_eq!(rt; leads(rt.alloc(), row), Ok(true), "{}", row.name);
    }
    Ok(())
}
