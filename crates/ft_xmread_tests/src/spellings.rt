//! Songs that differ from the song of one note in their bytes, and the modules that they give.

use crate::given::Given::{
    Bare, Bpm, First, Frames, Head, Linear, Orders, Same, SecondBare, Tempo,
};
use crate::given::{Given, module_of};
use crate::steps::Step::Put;
use crate::steps::{Step, song_behind};
use ft_types::Module;
use ft_xmread::read_xm;
use std::alloc::{AllocError, Global};
use std::test::Fail;

/// Steps of the header from the song of one note, and what is read of the bytes after them.
static HEADERS: [(&[Step], Given); 24] = [
    (&[Put(76, 78, &[0, 0])], Tempo(1)),
    (&[Put(76, 78, &[1, 0])], Tempo(1)),
    (&[Put(76, 78, &[31, 0])], Tempo(31)),
    (&[Put(76, 78, &[32, 0])], Tempo(31)),
    (&[Put(76, 78, &[40, 0])], Tempo(31)),
    (&[Put(76, 78, &[0, 255])], Tempo(31)),
    (&[Put(78, 80, &[0, 0])], Bpm(32)),
    (&[Put(78, 80, &[20, 0])], Bpm(32)),
    (&[Put(78, 80, &[32, 0])], Bpm(32)),
    (&[Put(78, 80, &[255, 0])], Bpm(255)),
    (&[Put(78, 80, &[0, 1])], Bpm(255)),
    (&[Put(78, 80, &[44, 1])], Bpm(255)),
    (&[Put(74, 76, &[0, 0])], Linear(false)),
    (&[Put(74, 76, &[1, 0])], Linear(true)),
    (&[Put(74, 76, &[2, 0])], Linear(false)),
    (&[Put(74, 76, &[0, 1])], Linear(false)),
    (&[Put(74, 76, &[255, 255])], Linear(true)),
    // Song length, restart and order table as they are spelled, and the orders and the restart.
    (
        &[
            Put(80, 336, &[4, 3, 2, 1]),
            Put(60, 68, &[24, 0, 0, 0, 4, 0, 3, 0]),
        ],
        Orders(&[4, 3, 2, 1], 3),
    ),
    (
        &[
            Put(80, 336, &[4, 3, 2, 1]),
            Put(60, 68, &[24, 0, 0, 0, 4, 0, 4, 0]),
        ],
        Orders(&[4, 3, 2, 1], 0),
    ),
    (
        &[
            Put(80, 336, &[4, 3, 2, 1]),
            Put(60, 68, &[24, 0, 0, 0, 2, 0, 1, 0]),
        ],
        Orders(&[4, 3], 1),
    ),
    (
        &[
            Put(80, 336, &[4, 3, 2, 1]),
            Put(60, 68, &[24, 0, 0, 0, 2, 0, 255, 0]),
        ],
        Orders(&[4, 3], 0),
    ),
    (
        &[
            Put(80, 336, &[4, 3, 2, 1]),
            Put(60, 68, &[24, 0, 0, 0, 0, 0, 0, 0]),
        ],
        Orders(&[4], 0),
    ),
    (
        &[
            Put(80, 336, &[4, 3, 2, 1]),
            Put(60, 68, &[24, 0, 0, 0, 0, 0, 1, 0]),
        ],
        Orders(&[4], 0),
    ),
    (
        &[Put(80, 336, &[7]), Put(60, 68, &[21, 0, 0, 0, 3, 0, 2, 0])],
        Orders(&[7, 0, 0], 2),
    ),
];

/// The same of its pattern.
static PATTERNS: [(&[Step], Given); 22] = [
    // A note may be spelled plain or by a mask.
    (
        &[Put(343, 344, &[132]), Put(345, 348, &[0x31, 1, 0, 0, 0])],
        Same,
    ),
    (
        &[Put(343, 344, &[130]), Put(345, 348, &[0x83, 49, 1])],
        Same,
    ),
    (
        &[Put(343, 344, &[130]), Put(345, 348, &[0xE3, 49, 1])],
        Same,
    ),
    (
        &[
            Put(343, 344, &[133]),
            Put(345, 348, &[0x9F, 49, 1, 0, 0, 0]),
        ],
        Same,
    ),
    // The bits of a mask, from the lowest on, say that note, instrument, volume, effect and parameter follow.
    (
        &[Put(343, 344, &[128]), Put(345, 348, &[0x80])],
        First(64, [0, 0, 0, 0, 0]),
    ),
    (
        &[Put(343, 344, &[129]), Put(345, 348, &[0x81, 97])],
        First(64, [97, 0, 0, 0, 0]),
    ),
    (
        &[Put(343, 344, &[129]), Put(345, 348, &[0x82, 9])],
        First(64, [0, 9, 0, 0, 0]),
    ),
    (
        &[Put(343, 344, &[129]), Put(345, 348, &[0x84, 9])],
        First(64, [0, 0, 9, 0, 0]),
    ),
    (
        &[Put(343, 344, &[129]), Put(345, 348, &[0x88, 9])],
        First(64, [0, 0, 0, 9, 0]),
    ),
    (
        &[Put(343, 344, &[129]), Put(345, 348, &[0x90, 9])],
        First(64, [0, 0, 0, 0, 9]),
    ),
    (
        &[
            Put(343, 344, &[133]),
            Put(345, 348, &[0x9F, 49, 2, 3, 4, 5]),
        ],
        First(64, [49, 2, 3, 4, 5]),
    ),
    (
        &[Put(343, 344, &[132]), Put(345, 348, &[49, 2, 3, 4, 5])],
        First(64, [49, 2, 3, 4, 5]),
    ),
    (
        &[Put(343, 344, &[132]), Put(345, 348, &[0x9E, 2, 3, 4, 5])],
        First(64, [0, 2, 3, 4, 5]),
    ),
    (
        &[Put(343, 344, &[132]), Put(345, 348, &[0, 2, 3, 4, 5])],
        First(64, [0, 2, 3, 4, 5]),
    ),
    // A note past the key off is none.
    (
        &[Put(343, 344, &[130]), Put(345, 348, &[0x83, 98, 1])],
        First(64, [0, 1, 0, 0, 0]),
    ),
    (
        &[Put(343, 344, &[130]), Put(345, 348, &[0x83, 255, 1])],
        First(64, [0, 1, 0, 0, 0]),
    ),
    (
        &[Put(343, 344, &[132]), Put(345, 348, &[98, 1, 0, 0, 0])],
        First(64, [0, 1, 0, 0, 0]),
    ),
    (
        &[Put(343, 344, &[132]), Put(345, 348, &[127, 1, 0, 0, 0])],
        First(64, [0, 1, 0, 0, 0]),
    ),
    // No data is a pattern of empty cells; no rows are 64.
    (
        &[Put(341, 343, &[0, 0]), Put(343, 475, &[0, 0])],
        First(64, [0, 0, 0, 0, 0]),
    ),
    (
        &[Put(341, 343, &[1, 0]), Put(343, 475, &[0, 0])],
        First(1, [0, 0, 0, 0, 0]),
    ),
    (
        &[Put(341, 343, &[64, 0]), Put(343, 475, &[0, 0])],
        First(64, [0, 0, 0, 0, 0]),
    ),
    (
        &[Put(341, 343, &[0, 1]), Put(343, 475, &[0, 0])],
        First(256, [0, 0, 0, 0, 0]),
    ),
];

/// The same of its instrument, of bytes without meaning, and of surplus.
static OTHERS: [(&[Step], Given); 24] = [
    // The head of an instrument is brought into range.
    (
        &[
            Put(508, 511, &[3, 15, 16]),
            Put(603, 605, &[255, 1]),
            Put(606, 607, &[64]),
            Put(608, 611, &[2, 1, 65]),
            Put(648, 649, &[7]),
            Put(650, 653, &[64, 1, 9]),
            Put(654, 655, &[33]),
            Put(
                700,
                717,
                &[
                    12, 13, 11, 12, 5, 255, 1, 10, 7, 250, 4, 255, 16, 64, 52, 18, 255,
                ],
            ),
            Put(737, 738, &[255]),
        ],
        Head,
    ),
    // What is in the head of an instrument without samples is skipped, and the sample behind it is
    // surplus.
    (
        &[
            Put(508, 511, &[3, 15, 16]),
            Put(603, 605, &[255, 1]),
            Put(606, 607, &[64]),
            Put(608, 611, &[2, 1, 65]),
            Put(648, 649, &[7]),
            Put(650, 653, &[64, 1, 9]),
            Put(654, 655, &[33]),
            Put(
                700,
                717,
                &[
                    12, 13, 11, 12, 5, 255, 1, 10, 7, 250, 4, 255, 16, 64, 52, 18, 255,
                ],
            ),
            Put(737, 738, &[255]),
            Put(502, 503, &[0]),
        ],
        Bare,
    ),
    // Bytes without meaning: the letter of the identification, the byte behind the name, a mask with bits 5
    // and 6, rows 0, the type of the instrument, the size of sample headers, bytes behind the fadeout, flags,
    // a volume over 64, the other bits of a sample's type, and the byte behind the relative note.
    (&[Put(9, 10, &[b'm'])], Same),
    (&[Put(37, 38, &[0])], Same),
    (&[Put(74, 75, &[0xFD])], Same),
    (&[Put(75, 76, &[0xFF])], Same),
    (&[Put(345, 346, &[0xE3])], Same),
    (&[Put(341, 342, &[0])], Same),
    (&[Put(501, 502, &[0xFF])], Same),
    (&[Put(504, 505, &[41])], Same),
    (&[Put(716, 717, &[0xFF])], Same),
    (&[Put(737, 738, &[0xFF])], Same),
    (&[Put(750, 751, &[70])], Same),
    (&[Put(752, 753, &[0xCC])], Same),
    (&[Put(755, 756, &[0xFF])], Same),
    // Surplus, and bytes that are skipped behind a pattern's head, its cells and an instrument's head.
    (&[Put(782, 782, &[9])], Same),
    (&[Put(336, 338, &[12, 0]), Put(345, 345, &[0xEE; 3])], Same),
    (&[Put(343, 344, &[132]), Put(475, 475, &[0xEE; 2])], Same),
    (&[Put(475, 477, &[8, 1]), Put(738, 738, &[0xEE])], Same),
    (&[Put(475, 477, &[241, 0]), Put(716, 738, &[])], Same),
    // An order table may have any length.
    (&[Put(60, 62, &[21, 0]), Put(80, 336, &[0])], Same),
    (&[Put(60, 62, &[22, 1]), Put(336, 336, &[7, 7])], Same),
    // An instrument without samples may have a longer head.
    (
        &[
            Put(72, 73, &[2]),
            Put(782, 782, b"\x1D\0\0\0no sample.............\0\0\0"),
        ],
        SecondBare,
    ),
    (
        &[
            Put(72, 73, &[2]),
            Put(
                782,
                782,
                b"\x21\0\0\0no sample.............\0\0\0\xEE\xEE\xEE\xEE",
            ),
        ],
        SecondBare,
    ),
];

/// Whether these bytes are read, and give this module: the two print alike, with each field.
fn gives(alloc: Global, song: &[u8], module: &Module) -> Result<bool, AllocError> {
    let Ok(read) = read_xm(alloc, song) else {
        return Ok(false);
    };
    let found = format!(in alloc; "{read:?}").map_err(|_| AllocError)?;
    let wanted = format!(in alloc; "{module:?}").map_err(|_| AllocError)?;
    Ok(found == wanted)
}

/// Whether the bytes after these steps give this.
fn is_given(alloc: Global, steps: &[Step], given: Given) -> Result<bool, AllocError> {
    let song = song_behind(alloc, steps)?;
    let module = module_of(alloc, given)?;
    gives(alloc, &song, &module)
}

/// The first row whose bytes give something else.
pub fn first_wrong(alloc: Global, rows: &[(&[Step], Given)]) -> Result<Option<usize>, AllocError> {
    for (number, (steps, given)) in rows.iter().enumerate() {
        if !is_given(alloc, steps, *given)? {
            return Ok(Some(number));
        }
    }
    Ok(None)
}

#[test]
fn each_header_gives_its_module(rt: HostRuntime) -> Result<(), Fail> {
    assert_eq!(rt; first_wrong(rt.alloc(), &HEADERS)?, None);
    Ok(())
}

#[test]
fn each_pattern_gives_its_module(rt: HostRuntime) -> Result<(), Fail> {
    assert_eq!(rt; first_wrong(rt.alloc(), &PATTERNS)?, None);
    Ok(())
}

#[test]
fn heads_of_instruments_and_bytes_without_meaning_give_their_modules(
    rt: HostRuntime,
) -> Result<(), Fail> {
    assert_eq!(rt; first_wrong(rt.alloc(), &OTHERS)?, None);
    Ok(())
}

/// The comparison sees a last frame that differs.
#[test]
fn the_song_of_one_note_gives_no_other_module(rt: HostRuntime) -> Result<(), Fail> {
    assert!(rt; !is_given(rt.alloc(), &[], Frames(&[64, 64, 64, 63]))?);
    Ok(())
}
