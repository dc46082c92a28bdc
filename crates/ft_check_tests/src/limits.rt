//! Edits of which a song can take no more.

use crate::lines::{Answer, answered};
use crate::song::song;
use ft_types::{EditFault, Frames, Module};
use std::alloc::{AllocError, Global};
use std::test::Fail;

/// An edit, how often the song takes it, and what kind of thing is then too many, by what number.
static LIMITS: [(&[u8], u32, u8, u32); 4] = [
    (b"insorder 2 9", 254, 1, 257),
    (b"newpat 1", 255, 2, 257),
    (b"newins", 127, 3, 129),
    (b"newsmp 1", 15, 4, 17),
];

/// Whether a song takes the edit so often, and not once more.
fn is_filled(alloc: Global, song: &mut Module, row: &(&[u8], u32, u8, u32)) -> bool {
    for _done in 0..row.1 {
        if answered(alloc, song, row.0) != Answer::Done {
            return false;
        }
    }
    answered(alloc, song, row.0)
        == Answer::Refused(EditFault::TooMany {
            what: row.2,
            count: row.3,
        })
}

/// Whether the song takes the edit so often.
fn is_full(alloc: Global, row: &(&[u8], u32, u8, u32)) -> Result<bool, AllocError> {
    Ok(is_filled(alloc, &mut song(alloc)?, row))
}

#[test]
fn a_song_at_its_limits_takes_no_more(rt: HostRuntime) -> Result<(), Fail> {
    for row in LIMITS.iter() {
        assert!(rt; is_full(rt.alloc(), row)?, "{:?}", row.0);
    }
    Ok(())
}

/// Edits of a song whose sample is as long as may be: it takes no frame more, and one that is a
/// frame shorter takes one.
static LONGEST: [(&[u8], bool); 4] = [
    (b"paste 1 0 3932160 0001", false),
    (b"cut 1 0 7 8", true),
    (b"paste 1 0 0 00010001", false),
    (b"paste 1 0 3932159 0001", true),
];

/// Whether a song takes an edit, or would have a frame too many.
fn takes(alloc: Global, song: &mut Module, row: &(&[u8], bool)) -> bool {
    let more = EditFault::TooMany {
        what: 5,
        count: 3_932_161,
    };
    answered(alloc, song, row.0)
        == if row.1 {
            Answer::Done
        } else {
            Answer::Refused(more)
        }
}

/// Gives the song's sample these frames.
fn fill(song: &mut Module, frames: Frames) {
    if let Some(instrument) = song.instruments.get_mut(0) {
        if let Some(sample) = instrument.samples.get_mut(0) {
            sample.frames = frames;
        }
    }
}

/// How many of the edits, one after the other, the song with the longest sample answers so.
fn answered_so(alloc: Global) -> Result<usize, AllocError> {
    let mut song = song(alloc)?;
    fill(&mut song, Frames::from_vec(vec![in alloc; 0; 3_932_160]?));
    for (number, row) in LONGEST.iter().enumerate() {
        if !takes(alloc, &mut song, row) {
            return Ok(number);
        }
    }
    Ok(LONGEST.len())
}

#[test]
fn the_longest_sample_takes_no_frame_more(rt: HostRuntime) -> Result<(), Fail> {
    assert_eq!(rt; answered_so(rt.alloc())?, LONGEST.len());
    Ok(())
}
