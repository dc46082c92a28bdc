//! Voices that move by more than a frame at once. The numbers here were worked out from the rules, outside
//! of this program.

ghost use Rattle.std.specs.Prelude.{◌≡◌, ◌≤◌, length};
ghost use Rattle.ft_types.specs.Valid.{IsValid};

use arrayvec::ArrayVec;
use ft_mix::mix;
use ft_types::{Module, ModuleView, SongView, Voice, valid};
use ft_xmwrite::generate;
use std::alloc::{AllocError, Global};
use std::test::Fail;

/// Whether the loop of the first sample of the song of 7 goes there and back, where the voice is, by how
/// many quarters of a frame it moves at once, and ten frames of output, left and right in turn. The loop is
/// the whole of the sample's 16,384 frames.
static FAST: [(bool, u32, u64, [i16; 20]); 7] = [
    (
        false,
        16_364,
        21,
        [
            -1155, -578, 3089, 1544, -5064, -2532, -2596, -1298, 3064, 1532, -2287, -1144, 5392,
            2696, 4857, 2428, -2859, -1430, 80, 40,
        ],
    ),
    (
        true,
        16_364,
        21,
        [
            -1155, -578, 3089, 1544, -5064, -2532, -2596, -1298, -686, -343, -5028, -2514, 930,
            465, -827, -414, -5857, -2929, 47, 23,
        ],
    ),
    (
        true,
        16_400,
        13,
        [
            4490, 2245, 6418, 3209, -357, -179, 6262, 3131, -6797, -3399, 4521, 2260, -937, -469,
            -4760, -2380, 1721, 860, 49, 24,
        ],
    ),
    (
        false,
        16_381,
        32,
        [
            -686, -343, -4235, -2118, -2740, -1370, -4560, -2280, -566, -283, 1353, 676, 4987,
            2493, 6382, 3191, -8174, -4087, 2393, 1196,
        ],
    ),
    (
        true,
        16_381,
        33,
        [
            -686, -343, -2985, -1493, 4074, 2037, -6047, -3024, -7831, -3916, -3522, -1761, 1499,
            749, 6634, 3317, -3395, -1698, -1121, -561,
        ],
    ),
    (
        true,
        32_740,
        9,
        [
            1080, 540, 100, 50, -3710, -1855, 3929, 1964, 5081, 2540, -2637, -1319, 260, 130, 300,
            150, -1473, -737, -2101, -1051,
        ],
    ),
    (
        true,
        16_300,
        71,
        [
            4612, 2306, 5038, 2519, 1499, 749, -5715, -2858, 6367, 3183, -2356, -1178, -357, -179,
            -6766, -3383, -7679, -3840, 6249, 3124,
        ],
    ),
];

/// Mixes ten frames of a voice. Nothing where the song has no such sample.
fn play(song: &Module, from: u32, quarters: u64) -> [i16; 20]
    requires song { IsValid song.now }
    requires step { quarters ≤ 128 }
{
    let mut out = [0; 20];
    let mut view = ModuleView::new(song);
    let Some(head) = view.start(0, 1, 48) else {
        return out;
    };
    let mut voices = ArrayVec::new();
    voices.push(Voice {
        channel: 0,
        head,
        pos: u64::from(from % (2 * head.frames)) << 32,
        step: quarters << 30,
        left: 65536,
        right: 32768,
        last: false,
    });
    mix(&mut view, &mut voices, &mut out);
    out
}

/// The song of 7, the loop of whose first sample goes there and back where this is asked.
fn song_of(alloc: Global, there_and_back: bool) -> Result<Module, AllocError> {
    let mut song = generate(alloc, 7).map_err(|_| AllocError)?;
    if let Some(instrument) = song.instruments.get_mut(0)
        && let Some(sample) = instrument.samples.get_mut(0)
        && there_and_back
    {
        sample.loop_kind = 2;
    }
    Ok(song)
}

/// Whether a voice is played as its row says.
fn is_played(song: &Module, from: u32, quarters: u64, expected: &[i16; 20]) -> bool {
    valid(song) && play(song, from, quarters.min(128)) == *expected
}

/// Whether each row of one form of loop is played as it says.
fn are_played(alloc: Global, there_and_back: bool) -> Result<bool, AllocError> {
    let song = song_of(alloc, there_and_back)?;
    Ok(
        FAST.iter()
            .filter(|row| row.0 == there_and_back)
            .all(|row| is_played(&song, row.1, row.2, &row.3)),
    )
}

#[test]
fn fast_voices_go_on_over_the_end_of_a_loop(rt: HostRuntime) -> Result<(), Fail> {
    assert!(rt; are_played(rt.alloc(), false)?);
    Ok(())
}

#[test]
fn fast_voices_turn_at_the_ends_of_a_loop(rt: HostRuntime) -> Result<(), Fail> {
    assert!(rt; are_played(rt.alloc(), true)?);
    Ok(())
}
