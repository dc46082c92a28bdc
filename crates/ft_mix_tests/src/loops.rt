//! Loops. The numbers here were worked out from the rules, outside of this program.

ghost use Rattle.std.specs.Prelude.{◌≡◌, ◌≤◌, ◌+◌, ◌%◌, length};
ghost use Rattle.ft_types.specs.Valid.{IsValid, IsValidHead};

use arrayvec::ArrayVec;
use ft_mix::{mix, place};
use ft_types::{Module, ModuleView, SampleHead, SongView, Voice};
use ft_xmwrite::generate;
use std::alloc::{AllocError, Global};
use std::test::Fail;

/// Whether a loop goes there and back, its first frame, its length, and the places that are reached.
static PLACES: [(bool, u32, u32, [u32; 9]); 6] = [
    (true, 0, 1, [0, 0, 0, 0, 0, 0, 0, 0, 0]),
    (true, 0, 2, [0, 1, 0, 1, 0, 1, 0, 1, 0]),
    (true, 0, 3, [0, 1, 2, 1, 0, 1, 2, 1, 0]),
    (true, 2, 4, [0, 1, 2, 3, 4, 5, 4, 3, 2]),
    (false, 0, 1, [0, 0, 0, 0, 0, 0, 0, 0, 0]),
    (false, 2, 3, [0, 1, 2, 3, 4, 2, 3, 4, 2]),
];

/// The first sample of the song of 7, played from its last frame but one on by one and a half frames
/// at once: twenty frames of output, left and right in turn.
static MIXED: [i16; 40] = [
    5769, 2884, -5925, -2963, 3064, 1532, 5903, 2951, 547, 273, -2812, -1406, -4980, -2490, 95, 47,
    -2108, -1054, 5392, 2696, -2740, -1370, 1, 0, 4184, 2092, 4491, 2245, 5225, 2612, -2259, -1130,
    -2859, -1430, 182, 91, 3263, 1631, 1166, 583,
];

/// What is there where nothing was written.
const LEFT: i16 = 7_777;

/// The head of a sample that ends with its loop.
fn looped(there_and_back: bool, start: u32, len: u32) -> SampleHead
    requires some { 1 ≤ len }
    requires few { start + len ≤ 3932160 }
    ensures { IsValidHead result }
{
    SampleHead {
        frames: start + len,
        wide: false,
        loop_kind: if there_and_back { 2 } else { 1 },
        loop_start: start,
        loop_len: len,
        volume: 64,
        panning: 128,
        finetune: 0,
        relative: 0,
    }
}

/// Whether a voice reaches a place as its frame of a number.
fn reaches(there_and_back: bool, start: u32, len: u32, number: usize, reached: u32) -> bool {
    let head = looped(there_and_back, start.min(1000), len.clamp(1, 1000));
    place(&head, (number % 1000) as u32) == Some(reached)
}

#[test]
fn loops_have_their_places(rt: HostRuntime) -> Result<(), Fail> {
    for (there_and_back, start, len, places) in PLACES.iter() {
        for (number, reached) in places.iter().enumerate() {
            assert!(rt; reaches(*there_and_back, *start, *len, number, *reached));
        }
    }
    Ok(())
}

/// Where the voice is after that many frames, in half frames of its sample of 16,384: its loop is
/// the whole of it.
fn halves_after(frames: usize) -> u64
    requires { frames ≤ 20 }
{
    (2 * 16_382 + 3 * frames as u64) % (2 * 16_384)
}

/// Mixes that many frames of a voice, and gives where it is then; none where it has ended.
fn play(song: &Module, out: &mut [i16]) -> Option<u64>
    requires song { IsValid song.now }
    requires even { length out.old % 2 ≡ 0 }
    requires few { length out.old ≤ 40 }
    ensures many { length out.new ≡ length out.old }
{
    let mut view = ModuleView::new(song);
    let head = view.start(0, 1, 48)?;
    let mut voices = ArrayVec::new();
    voices.push(Voice {
        channel: 0,
        head,
        pos: u64::from(head.frames.saturating_sub(2)) * (1 << 32),
        step: 3 << 31,
        left: 65536,
        right: 32768,
        last: false,
    });
    mix(&mut view, &mut voices, out);
    Some(voices.as_slice().first()?.pos)
}

/// Whether the song of 7 is played over its loop's end by that many frames, and nothing is written
/// behind them.
fn is_played(song: &Module, frames: usize) -> bool
    requires song { IsValid song.now }
    requires few { frames ≤ 20 }
{
    let mut out = [LEFT; 42];
    let pos = play(song, &mut out[..2 * frames]);
    pos == Some(halves_after(frames) << 31)
        && out[..2 * frames] == MIXED[..2 * frames]
        && out[2 * frames..].iter().all(|number| *number == LEFT)
}

/// Whether it is played by each number of frames from 0 to 20.
fn are_played(alloc: Global) -> Result<bool, AllocError> {
    let song = generate(alloc, 7).map_err(|_| AllocError)?;
    Ok((0..21).all(|frames| is_played(&song, frames)))
}

#[test]
fn a_looped_sample_goes_on_from_its_start_by_any_number_of_frames(
    rt: HostRuntime,
) -> Result<(), Fail> {
    assert!(rt; are_played(rt.alloc())?);
    Ok(())
}
