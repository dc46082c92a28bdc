//! Effects of cells, and which cell of a pattern they stand in.

use crate::given::one_note_mod_with;
use ft_modread::read_mod;
use ft_songs::Splice;
use ft_types::Cell;
use std::alloc::{AllocError, Global};
use std::test::Fail;

/// Effects and parameters of a module, and those that become of them.
static EFFECTS: [(u8, u8, u8, u8); 127] = [
    (0, 0x00, 0, 0x00),
    (0, 0x01, 0, 0x01),
    (0, 0x10, 0, 0x10),
    (0, 0x5A, 0, 0x5A),
    (0, 0xFF, 0, 0xFF),
    (1, 0x00, 0, 0x00),
    (1, 0x01, 1, 0x01),
    (1, 0x10, 1, 0x10),
    (1, 0x5A, 1, 0x5A),
    (1, 0xFF, 1, 0xFF),
    (2, 0x00, 0, 0x00),
    (2, 0x01, 2, 0x01),
    (2, 0x10, 2, 0x10),
    (2, 0x5A, 2, 0x5A),
    (2, 0xFF, 2, 0xFF),
    (3, 0x00, 3, 0x00),
    (3, 0x01, 3, 0x01),
    (3, 0x10, 3, 0x10),
    (3, 0x5A, 3, 0x5A),
    (3, 0xFF, 3, 0xFF),
    (4, 0x00, 4, 0x00),
    (4, 0x01, 4, 0x01),
    (4, 0x10, 4, 0x10),
    (4, 0x5A, 4, 0x5A),
    (4, 0xFF, 4, 0xFF),
    (5, 0x00, 3, 0x00),
    (5, 0x01, 5, 0x01),
    (5, 0x0F, 5, 0x0F),
    (5, 0x10, 5, 0x10),
    (5, 0x5A, 5, 0x5A),
    (5, 0xF0, 5, 0xF0),
    (5, 0xFF, 5, 0xFF),
    (6, 0x00, 4, 0x00),
    (6, 0x01, 6, 0x01),
    (6, 0x0F, 6, 0x0F),
    (6, 0x10, 6, 0x10),
    (6, 0x5A, 6, 0x5A),
    (6, 0xF0, 6, 0xF0),
    (6, 0xFF, 6, 0xFF),
    (7, 0x00, 7, 0x00),
    (7, 0x01, 7, 0x01),
    (7, 0x10, 7, 0x10),
    (7, 0x5A, 7, 0x5A),
    (7, 0xFF, 7, 0xFF),
    (8, 0x00, 8, 0x00),
    (8, 0x01, 8, 0x01),
    (8, 0x10, 8, 0x10),
    (8, 0x5A, 8, 0x5A),
    (8, 0xFF, 8, 0xFF),
    (9, 0x00, 9, 0x00),
    (9, 0x01, 9, 0x01),
    (9, 0x10, 9, 0x10),
    (9, 0x5A, 9, 0x5A),
    (9, 0xFF, 9, 0xFF),
    (10, 0x00, 0, 0x00),
    (10, 0x01, 10, 0x01),
    (10, 0x10, 10, 0x10),
    (10, 0x5A, 10, 0x5A),
    (10, 0xFF, 10, 0xFF),
    (11, 0x00, 11, 0x00),
    (11, 0x01, 11, 0x01),
    (11, 0x10, 11, 0x10),
    (11, 0x5A, 11, 0x5A),
    (11, 0xFF, 11, 0xFF),
    (12, 0x00, 12, 0x00),
    (12, 0x01, 12, 0x01),
    (12, 0x10, 12, 0x10),
    (12, 0x5A, 12, 0x5A),
    (12, 0xFF, 12, 0xFF),
    (13, 0x00, 13, 0x00),
    (13, 0x01, 13, 0x01),
    (13, 0x10, 13, 0x10),
    (13, 0x5A, 13, 0x5A),
    (13, 0xFF, 13, 0xFF),
    (14, 0x00, 14, 0x00),
    (14, 0x01, 14, 0x01),
    (14, 0x0F, 14, 0x0F),
    (14, 0x10, 0, 0x00),
    (14, 0x11, 14, 0x11),
    (14, 0x20, 0, 0x00),
    (14, 0x21, 14, 0x21),
    (14, 0x30, 14, 0x30),
    (14, 0x31, 14, 0x31),
    (14, 0x40, 14, 0x40),
    (14, 0x41, 14, 0x41),
    (14, 0x50, 14, 0x58),
    (14, 0x51, 14, 0x59),
    (14, 0x52, 14, 0x5A),
    (14, 0x53, 14, 0x5B),
    (14, 0x54, 14, 0x5C),
    (14, 0x55, 14, 0x5D),
    (14, 0x56, 14, 0x5E),
    (14, 0x57, 14, 0x5F),
    (14, 0x58, 14, 0x50),
    (14, 0x59, 14, 0x51),
    (14, 0x5A, 14, 0x52),
    (14, 0x5B, 14, 0x53),
    (14, 0x5C, 14, 0x54),
    (14, 0x5D, 14, 0x55),
    (14, 0x5E, 14, 0x56),
    (14, 0x5F, 14, 0x57),
    (14, 0x60, 14, 0x60),
    (14, 0x61, 14, 0x61),
    (14, 0x70, 14, 0x70),
    (14, 0x71, 14, 0x71),
    (14, 0x80, 14, 0x80),
    (14, 0x81, 14, 0x81),
    (14, 0x90, 14, 0x90),
    (14, 0x91, 14, 0x91),
    (14, 0xA0, 0, 0x00),
    (14, 0xA1, 14, 0xA1),
    (14, 0xB0, 0, 0x00),
    (14, 0xB1, 14, 0xB1),
    (14, 0xC0, 14, 0xC0),
    (14, 0xC1, 14, 0xC1),
    (14, 0xD0, 14, 0xD0),
    (14, 0xD1, 14, 0xD1),
    (14, 0xE0, 14, 0xE0),
    (14, 0xE1, 14, 0xE1),
    (14, 0xF0, 14, 0xF0),
    (14, 0xF1, 14, 0xF1),
    (14, 0xFF, 14, 0xFF),
    (15, 0x00, 15, 0x00),
    (15, 0x01, 15, 0x01),
    (15, 0x10, 15, 0x10),
    (15, 0x5A, 15, 0x5A),
    (15, 0xFF, 15, 0xFF),
];

/// The cell that comes of these four bytes, put in at cell `k`.
fn cell_at(alloc: Global, k: usize, bytes: [u8; 4]) -> Result<Option<Cell>, AllocError> {
    let place = 1084usize.saturating_add(k.saturating_mul(4));
    let change = Splice {
        from: place,
        to: place.saturating_add(4),
        bytes: &bytes,
    };
    let module = one_note_mod_with(alloc, &[change])?;
    let Ok(song) = read_mod(alloc, &module) else {
        return Ok(None);
    };
    let Some(pattern) = song.patterns.get(0) else {
        return Ok(None);
    };
    Ok(pattern.cells.get(k).copied())
}

/// The first row whose effect becomes another.
fn first_wrong(alloc: Global) -> Result<Option<usize>, AllocError> {
    for (number, (effect, parameter, kind, given)) in EFFECTS.iter().enumerate() {
        let cell = cell_at(alloc, 5, [0, 0, 0x10 + *effect % 16, *parameter])?;
        let wanted = Cell {
            note: 0,
            instrument: 1,
            volume: 0,
            effect: *kind,
            parameter: *given,
        };
        if cell != Some(wanted) {
            return Ok(Some(number));
        }
    }
    Ok(None)
}

#[test]
fn each_effect_becomes_what_it_does(rt: HostRuntime) -> Result<(), Fail> {
    assert!(rt; first_wrong(rt.alloc())?.is_none());
    Ok(())
}

/// A cell with each digit of its own, wherever it stands: row by row, in each row by channel.
static PLACES: [usize; 6] = [0, 1, 3, 4, 128, 255];

/// The first place at which the cell is read otherwise.
fn first_misplaced(alloc: Global) -> Result<Option<usize>, AllocError> {
    let wanted = Cell {
        note: 72,
        instrument: 0x2A,
        volume: 0,
        effect: 11,
        parameter: 0xC7,
    };
    for k in PLACES.iter() {
        if cell_at(alloc, *k, [0x20, 0x71, 0xAB, 0xC7])? != Some(wanted) {
            return Ok(Some(*k));
        }
    }
    Ok(None)
}

#[test]
fn each_digit_of_a_cell_is_read_wherever_it_stands(rt: HostRuntime) -> Result<(), Fail> {
    assert!(rt; first_misplaced(rt.alloc())?.is_none());
    Ok(())
}
