//! Songs with a field that fails its check, and the fault that names its place and number.

use crate::steps::Step::{Again, Cut, Put};
use crate::steps::{Step, song_behind};
use ft_songs::SAMPLE_HEADER;
use ft_xmread::XmFault::{CellOverrun, Count, NotXm, Packing, Short, Stereo, TooLong, Version};
use ft_xmread::{XmFault, read_xm};
use std::alloc::{AllocError, Global};
use std::test::Fail;

/// Steps from the song of one note, and the fault of the bytes after them.
static REFUSALS: [(&[Step], XmFault); 72] = [
    (&[Put(0, 1, &[b'e'])], NotXm { at: 0 }),
    (&[Put(9, 10, &[b'N'])], NotXm { at: 9 }),
    (&[Put(13, 14, &[b'L'])], NotXm { at: 13 }),
    (&[Put(16, 17, &[b'_'])], NotXm { at: 16 }),
    (
        &[Put(340, 341, &[1])],
        Packing {
            pattern: 0,
            found: 1,
        },
    ),
    (
        &[Put(752, 753, &[32])],
        Stereo {
            instrument: 1,
            sample: 0,
        },
    ),
    (
        &[Put(752, 753, &[0x33])],
        Stereo {
            instrument: 1,
            sample: 0,
        },
    ),
    (&[Put(60, 62, &[20, 0])], Count { at: 60, found: 20 }),
    (&[Put(64, 66, &[1, 1])], Count { at: 64, found: 257 }),
    (&[Put(68, 70, &[0, 0])], Count { at: 68, found: 0 }),
    (&[Put(68, 70, &[33, 0])], Count { at: 68, found: 33 }),
    (&[Put(70, 72, &[1, 1])], Count { at: 70, found: 257 }),
    (&[Put(72, 74, &[129, 0])], Count { at: 72, found: 129 }),
    (&[Put(336, 338, &[8, 0])], Count { at: 336, found: 8 }),
    (
        &[Put(341, 343, &[1, 1])],
        Count {
            at: 341,
            found: 257,
        },
    ),
    (&[Put(475, 477, &[28, 0])], Count { at: 475, found: 28 }),
    (
        &[Put(475, 477, &[100, 0])],
        Count {
            at: 475,
            found: 100,
        },
    ),
    (
        &[Put(475, 477, &[240, 0])],
        Count {
            at: 475,
            found: 240,
        },
    ),
    (&[Put(502, 504, &[17, 0])], Count { at: 502, found: 17 }),
    (&[Put(58, 60, &[0, 0])], Version { found: 0 }),
    (&[Put(58, 60, &[3, 1])], Version { found: 0x0103 }),
    (&[Put(58, 60, &[5, 1])], Version { found: 0x0105 }),
    (&[Put(58, 60, &[1, 4])], Version { found: 0x0401 }),
    // Data of 129 bytes ends before the last cell; the other cells announce a byte that isn't there.
    (
        &[Put(343, 344, &[129])],
        CellOverrun {
            pattern: 0,
            at: 474,
        },
    ),
    (
        &[Put(474, 475, &[0x81])],
        CellOverrun {
            pattern: 0,
            at: 474,
        },
    ),
    (
        &[Put(474, 475, &[0x90])],
        CellOverrun {
            pattern: 0,
            at: 474,
        },
    ),
    (
        &[Put(474, 475, &[49])],
        CellOverrun {
            pattern: 0,
            at: 474,
        },
    ),
    // The limit of a sample counts frames: its length and type, whose data would need that many
    // bytes.
    (
        &[Put(738, 742, &[1, 0, 60, 0]), Put(752, 753, &[0])],
        TooLong {
            instrument: 1,
            sample: 0,
            frames: 3_932_161,
        },
    ),
    (
        &[Put(738, 742, &[0, 0, 60, 0]), Put(752, 753, &[0])],
        Short {
            at: 778,
            need: 3_932_160,
        },
    ),
    (
        &[Put(738, 742, &[2, 0, 120, 0]), Put(752, 753, &[16])],
        TooLong {
            instrument: 1,
            sample: 0,
            frames: 3_932_161,
        },
    ),
    (
        &[Put(738, 742, &[1, 0, 120, 0]), Put(752, 753, &[16])],
        Short {
            at: 778,
            need: 7_864_321,
        },
    ),
    (
        &[Put(738, 742, &[1, 0, 60, 0]), Put(752, 753, &[32])],
        Stereo {
            instrument: 1,
            sample: 0,
        },
    ),
    // Two headers, and no byte behind them: the data of the first is the first field behind both.
    (
        &[
            Put(502, 503, &[2]),
            Put(778, 782, SAMPLE_HEADER),
            Put(752, 753, &[32]),
            Put(792, 793, &[32]),
        ],
        Stereo {
            instrument: 1,
            sample: 0,
        },
    ),
    (
        &[
            Put(502, 503, &[2]),
            Put(778, 782, SAMPLE_HEADER),
            Put(752, 753, &[0]),
            Put(792, 793, &[32]),
        ],
        Stereo {
            instrument: 1,
            sample: 1,
        },
    ),
    (
        &[
            Put(502, 503, &[2]),
            Put(778, 782, SAMPLE_HEADER),
            Put(752, 753, &[0]),
            Put(792, 793, &[0]),
        ],
        Short { at: 818, need: 4 },
    ),
    // A stereo sample is refused before a missing second header.
    (
        &[Put(502, 503, &[2]), Put(752, 753, &[32]), Cut(778)],
        Stereo {
            instrument: 1,
            sample: 0,
        },
    ),
    // The second instrument is the first one's copy, from 782 on, with another byte; it is named by 2.
    (
        &[Put(72, 73, &[2]), Again(475, 782, 782), Put(783, 784, &[0])],
        Count { at: 782, found: 7 },
    ),
    (
        &[
            Put(72, 73, &[2]),
            Again(475, 782, 782),
            Put(809, 810, &[17]),
        ],
        Count { at: 809, found: 17 },
    ),
    (
        &[
            Put(72, 73, &[2]),
            Again(475, 782, 782),
            Put(1059, 1060, &[32]),
        ],
        Stereo {
            instrument: 2,
            sample: 0,
        },
    ),
    (
        &[
            Put(72, 73, &[2]),
            Again(475, 782, 782),
            Put(1047, 1048, &[60]),
        ],
        TooLong {
            instrument: 2,
            sample: 0,
            frames: 3_932_164,
        },
    ),
    // The second pattern is the first one's copy, from 475 on, with another byte; it is named by 1.
    (
        &[Put(70, 71, &[2]), Again(336, 475, 475), Put(479, 480, &[3])],
        Packing {
            pattern: 1,
            found: 3,
        },
    ),
    (
        &[Put(70, 71, &[2]), Again(336, 475, 475), Put(481, 482, &[2])],
        Count {
            at: 480,
            found: 576,
        },
    ),
    (
        &[
            Put(70, 71, &[2]),
            Again(336, 475, 475),
            Put(482, 483, &[129]),
        ],
        CellOverrun {
            pattern: 1,
            at: 613,
        },
    ),
    // Files that end too soon: the fault names the field that is cut, and its size.
    (&[Cut(0)], Short { at: 0, need: 17 }),
    (&[Cut(16)], Short { at: 0, need: 17 }),
    (&[Cut(17)], Short { at: 17, need: 20 }),
    (&[Cut(37)], Short { at: 37, need: 1 }),
    (&[Cut(57)], Short { at: 38, need: 20 }),
    (&[Cut(59)], Short { at: 58, need: 2 }),
    (&[Cut(63)], Short { at: 60, need: 4 }),
    (&[Cut(79)], Short { at: 78, need: 2 }),
    (&[Cut(80)], Short { at: 80, need: 256 }),
    (&[Cut(335)], Short { at: 80, need: 256 }),
    (&[Cut(336)], Short { at: 336, need: 4 }),
    (&[Cut(340)], Short { at: 340, need: 1 }),
    (&[Cut(342)], Short { at: 341, need: 2 }),
    (&[Cut(344)], Short { at: 343, need: 2 }),
    (&[Cut(345)], Short { at: 345, need: 130 }),
    (&[Cut(400)], Short { at: 345, need: 130 }),
    (&[Cut(478)], Short { at: 475, need: 4 }),
    (&[Cut(500)], Short { at: 479, need: 22 }),
    (&[Cut(501)], Short { at: 501, need: 1 }),
    (&[Cut(503)], Short { at: 502, need: 2 }),
    (&[Cut(504)], Short { at: 504, need: 234 }),
    (&[Cut(737)], Short { at: 504, need: 234 }),
    (&[Cut(777)], Short { at: 738, need: 40 }),
    (&[Cut(780)], Short { at: 778, need: 4 }),
    (&[Cut(781)], Short { at: 778, need: 4 }),
    // Bytes of a head that are skipped are a field of their own.
    (
        &[Put(336, 337, &[12]), Cut(347)],
        Short { at: 345, need: 3 },
    ),
    (
        &[Put(502, 503, &[0]), Cut(737)],
        Short { at: 504, need: 234 },
    ),
    // A missing second header is short at its place.
    (
        &[Put(502, 503, &[2]), Cut(778)],
        Short { at: 778, need: 40 },
    ),
    (
        &[Put(502, 503, &[2]), Cut(782)],
        Short { at: 778, need: 40 },
    ),
];

/// Whether the bytes after these steps are refused by this fault.
fn is_refused(alloc: Global, steps: &[Step], fault: XmFault) -> Result<bool, AllocError> {
    let song = song_behind(alloc, steps)?;
    Ok(read_xm(alloc, &song).err() == Some(fault))
}

/// The first row that isn't refused by its fault.
fn first_wrong(alloc: Global) -> Result<Option<usize>, AllocError> {
    for (number, (steps, fault)) in REFUSALS.iter().enumerate() {
        if !is_refused(alloc, steps, *fault)? {
            return Ok(Some(number));
        }
    }
    Ok(None)
}

#[test]
fn each_damaged_song_is_refused_by_its_first_fault(rt: HostRuntime) -> Result<(), Fail> {
    assert_eq!(rt; first_wrong(rt.alloc())?, None);
    Ok(())
}
