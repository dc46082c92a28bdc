//! Samples that are spelled otherwise than that of the song of one note.

use crate::given::Given;
use crate::given::Given::{Frames, Narrow, Numbers, TwoSamples, Wide};
use crate::spellings::first_wrong;
use crate::steps::Step;
use crate::steps::Step::{Cut, Put};
use ft_songs::SAMPLE_HEADER;
use std::test::Fail;

/// The steps of the frames 1,000, -32,768 and 32,767, and a byte too many.
const WIDE: &[u8] = &[0xE8, 0x03, 0x18, 0x7C, 0xFF, 0xFF, 0x55];

/// Steps from the song of one note, and what is read of the bytes after them.
static SAMPLES: [(&[Step], Given); 28] = [
    // Frames are the sums of their steps, which wrap; the first is from 0.
    (&[Put(738, 739, &[0]), Put(778, 782, &[])], Frames(&[])),
    (
        &[Put(738, 739, &[3]), Put(778, 782, &[127, 1, 255])],
        Frames(&[127, -128, 127]),
    ),
    (
        &[Put(738, 739, &[4]), Put(778, 782, &[100, 100, 128, 255])],
        Frames(&[100, -56, 72, 71]),
    ),
    (
        &[Put(738, 739, &[4]), Put(778, 782, &[0x80, 0x80, 0, 0xFF])],
        Frames(&[-128, 0, 0, -1]),
    ),
    // Wide frames, with a byte too many, and a loop of kind 3. Its numbers are halved, each by itself, and
    // cut to the three frames.
    (
        &[
            Put(738, 747, &[7, 0, 0, 0, 2, 0, 0, 0, 4]),
            Put(752, 753, &[0x13]),
            Put(778, 782, WIDE),
        ],
        Wide(2, 1, 2),
    ),
    (
        &[
            Put(738, 747, &[7, 0, 0, 0, 3, 0, 0, 0, 3]),
            Put(752, 753, &[0x13]),
            Put(778, 782, WIDE),
        ],
        Wide(2, 1, 1),
    ),
    (
        &[
            Put(738, 747, &[7, 0, 0, 0, 1, 0, 0, 0, 7]),
            Put(752, 753, &[0x13]),
            Put(778, 782, WIDE),
        ],
        Wide(2, 0, 3),
    ),
    (
        &[
            Put(738, 747, &[7, 0, 0, 0, 3, 0, 0, 0, 9]),
            Put(752, 753, &[0x13]),
            Put(778, 782, WIDE),
        ],
        Wide(2, 1, 2),
    ),
    (
        &[
            Put(738, 747, &[7, 0, 0, 0, 4, 0, 0, 0, 200]),
            Put(752, 753, &[0x13]),
            Put(778, 782, WIDE),
        ],
        Wide(2, 2, 1),
    ),
    (
        &[
            Put(738, 747, &[7, 0, 0, 0, 2, 0, 0, 0, 1]),
            Put(752, 753, &[0x13]),
            Put(778, 782, WIDE),
        ],
        Wide(0, 0, 0),
    ),
    (
        &[
            Put(738, 747, &[7, 0, 0, 0, 2, 0, 0, 0, 0]),
            Put(752, 753, &[0x13]),
            Put(778, 782, WIDE),
        ],
        Wide(0, 0, 0),
    ),
    (
        &[
            Put(738, 747, &[7, 0, 0, 0, 6, 0, 0, 0, 2]),
            Put(752, 753, &[0x13]),
            Put(778, 782, WIDE),
        ],
        Wide(0, 0, 0),
    ),
    (
        &[
            Put(738, 747, &[7, 0, 0, 0, 200, 0, 0, 0, 200]),
            Put(752, 753, &[0x13]),
            Put(778, 782, WIDE),
        ],
        Wide(0, 0, 0),
    ),
    // The loop of four narrow frames: its type, start and length.
    (
        &[Put(742, 747, &[1, 0, 0, 0, 2]), Put(752, 753, &[0])],
        Narrow(0, 0, 0),
    ),
    (
        &[Put(742, 747, &[1, 0, 0, 0, 2]), Put(752, 753, &[1])],
        Narrow(1, 1, 2),
    ),
    (
        &[Put(742, 747, &[1, 0, 0, 0, 2]), Put(752, 753, &[2])],
        Narrow(2, 1, 2),
    ),
    (
        &[Put(742, 747, &[1, 0, 0, 0, 2]), Put(752, 753, &[3])],
        Narrow(2, 1, 2),
    ),
    (
        &[Put(742, 747, &[1, 0, 0, 0, 2]), Put(752, 753, &[205])],
        Narrow(1, 1, 2),
    ),
    (
        &[Put(742, 747, &[0, 0, 0, 0, 4]), Put(752, 753, &[1])],
        Narrow(1, 0, 4),
    ),
    (
        &[Put(742, 747, &[1, 0, 0, 0, 200]), Put(752, 753, &[1])],
        Narrow(1, 1, 3),
    ),
    (
        &[Put(742, 747, &[3, 0, 0, 0, 0]), Put(752, 753, &[1])],
        Narrow(0, 0, 0),
    ),
    (
        &[Put(742, 747, &[4, 0, 0, 0, 1]), Put(752, 753, &[1])],
        Narrow(0, 0, 0),
    ),
    (
        &[Put(742, 747, &[200, 0, 0, 0, 1]), Put(752, 753, &[2])],
        Narrow(0, 0, 0),
    ),
    // Volume, finetune, panning and relative note.
    (&[Put(750, 755, &[0, 0, 0, 0, 0])], Numbers(0, 0, 0, 0)),
    (
        &[Put(750, 755, &[64, 127, 0, 255, 12])],
        Numbers(64, 127, 255, 12),
    ),
    (
        &[Put(750, 755, &[65, 128, 0, 1, 244])],
        Numbers(64, -128, 1, -12),
    ),
    (
        &[Put(750, 755, &[255, 254, 0, 128, 128])],
        Numbers(64, -2, 128, -128),
    ),
    // Both headers come before the data of the first, and the second's steps begin at 0 again.
    (
        &[
            Put(502, 503, &[2]),
            Cut(778),
            Put(778, 778, SAMPLE_HEADER),
            Put(778, 779, &[2]),
            Put(818, 818, &[64, 0, 0, 0, 5, 250]),
        ],
        TwoSamples,
    ),
];

#[test]
fn each_sample_gives_its_module(rt: HostRuntime) -> Result<(), Fail> {
    assert_eq!(rt; first_wrong(rt.alloc(), &SAMPLES)?, None);
    Ok(())
}
