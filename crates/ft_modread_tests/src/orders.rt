//! Song length, restart, orders and the number of patterns.

use crate::given::one_note_mod_with;
use ft_modread::read_mod;
use ft_songs::Splice;
use std::alloc::{AllocError, Global};
use std::test::Fail;

/// A song length, a restart, and an order at a place; and what comes of them: the number of orders,
/// the restart, and the number of patterns.
#[derive(Clone, Copy)]
struct Row {
    length: u8,
    restart: u8,
    place: usize,
    order: u8,
    orders: usize,
    back: u16,
    patterns: usize,
}

static ROWS: [Row; 14] = [
    Row {
        length: 1,
        restart: 0,
        place: 0,
        order: 0,
        orders: 1,
        back: 0,
        patterns: 1,
    },
    // a length of 0 is 1, also beside the restart
    Row {
        length: 0,
        restart: 0,
        place: 0,
        order: 0,
        orders: 1,
        back: 0,
        patterns: 1,
    },
    Row {
        length: 0,
        restart: 1,
        place: 0,
        order: 0,
        orders: 1,
        back: 0,
        patterns: 1,
    },
    Row {
        length: 2,
        restart: 1,
        place: 0,
        order: 0,
        orders: 2,
        back: 1,
        patterns: 1,
    },
    Row {
        length: 2,
        restart: 2,
        place: 0,
        order: 0,
        orders: 2,
        back: 0,
        patterns: 1,
    },
    Row {
        length: 2,
        restart: 127,
        place: 0,
        order: 0,
        orders: 2,
        back: 0,
        patterns: 1,
    },
    Row {
        length: 128,
        restart: 127,
        place: 0,
        order: 0,
        orders: 128,
        back: 127,
        patterns: 1,
    },
    Row {
        length: 128,
        restart: 128,
        place: 0,
        order: 0,
        orders: 128,
        back: 0,
        patterns: 1,
    },
    Row {
        length: 127,
        restart: 126,
        place: 0,
        order: 0,
        orders: 127,
        back: 126,
        patterns: 1,
    },
    Row {
        length: 128,
        restart: 255,
        place: 0,
        order: 0,
        orders: 128,
        back: 0,
        patterns: 1,
    },
    // patterns by all orders, those behind the song's end too
    Row {
        length: 1,
        restart: 0,
        place: 0,
        order: 3,
        orders: 1,
        back: 0,
        patterns: 4,
    },
    Row {
        length: 1,
        restart: 0,
        place: 1,
        order: 3,
        orders: 1,
        back: 0,
        patterns: 4,
    },
    Row {
        length: 1,
        restart: 0,
        place: 127,
        order: 3,
        orders: 1,
        back: 0,
        patterns: 4,
    },
    Row {
        length: 1,
        restart: 0,
        place: 127,
        order: 127,
        orders: 1,
        back: 0,
        patterns: 128,
    },
];

/// Whether a module with these bytes, and data for 128 patterns, gives these numbers.
fn is_so(alloc: Global, row: &Row) -> Result<bool, AllocError> {
    let place = row.place.saturating_add(952);
    let patterns = vec![in alloc; 0u8; 131_072]?;
    let changes = [
        Splice {
            from: 950,
            to: 952,
            bytes: &[row.length, row.restart],
        },
        Splice {
            from: place,
            to: place.saturating_add(1),
            bytes: &[row.order],
        },
        Splice {
            from: 2112,
            to: 2112,
            bytes: &patterns,
        },
    ];
    let module = one_note_mod_with(alloc, &changes)?;
    let Ok(song) = read_mod(alloc, &module) else {
        return Ok(false);
    };
    let there = song.orders.get(row.place).copied();
    Ok(
        song.orders.len() == row.orders
            && song.restart == row.back
            && song.patterns.len() == row.patterns
            && (there == Some(row.order) || (there.is_none() && row.place >= row.orders)),
    )
}

/// The first row with other numbers.
fn first_wrong(alloc: Global) -> Result<Option<usize>, AllocError> {
    for (number, row) in ROWS.iter().enumerate() {
        if !is_so(alloc, row)? {
            return Ok(Some(number));
        }
    }
    Ok(None)
}

#[test]
fn orders_are_those_of_the_song_and_patterns_those_of_all_orders(
    rt: HostRuntime,
) -> Result<(), Fail> {
    assert!(rt; first_wrong(rt.alloc())?.is_none());
    Ok(())
}
