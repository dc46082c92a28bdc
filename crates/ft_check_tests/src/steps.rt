//! Edits of a song one after the other.

use crate::lines::{Answer, answered};
use crate::song::song;
use ft_types::{EditFault, Module, Sample};
use std::alloc::{AllocError, Global};
use std::test::Fail;

/// What is seen after an edit.
#[derive(Clone, Copy)]
enum Seen {
    /// The edit is done, and the restart is this.
    Restart(u16),
    /// The edit is done, and the cells at these places have these notes.
    Notes(&'static [(usize, u8)]),
    /// The edit is done, and the sample has these frames.
    Frames(&'static [i16]),
    /// The edit is done, and the sample turns so: kind, start, length.
    Turns(u8, u32, u32),
    /// The edit is refused.
    Refused(EditFault),
}

/// Lines of edits, and what is seen after each.
type Steps = &'static [(&'static [u8], Seen)];

/// Each begins with the song of before.
static ALL: [Steps; 8] = [
    // a restart past the end is 0, and the last order stays
    &[
        (b"insorder 0 0", Seen::Restart(1)),
        (b"delorder 0", Seen::Restart(1)),
        (b"delorder 1", Seen::Restart(0)),
        (
            b"delorder 0",
            Seen::Refused(EditFault::Range {
                field: 17,
                found: 0,
            }),
        ),
    ],
    // a block that is copied one row down over itself reads the rows of before
    &[(
        b"copy 0 0 0 3 1 0 1 0",
        Seen::Notes(&[(0, 49), (2, 49), (4, 0), (6, 0)]),
    )],
    // notes move by an octave, and stay where they would leave the 96
    &[
        (b"transpose 0 0 0 64 2 12", Seen::Notes(&[(0, 61)])),
        (b"transpose 0 0 0 64 2 36", Seen::Notes(&[(0, 61)])),
    ],
    // a row is put in and taken out, and a block emptied
    &[
        (b"insrow 0 0", Seen::Notes(&[(2, 49)])),
        (b"delrow 0 0", Seen::Notes(&[(0, 49)])),
        (b"clear 0 0 0 1 1", Seen::Notes(&[(0, 0)])),
    ],
    // frames are rounded down, and stay in 8 bits
    &[
        (b"scale 1 0 0 4 3 1", Seen::Frames(&[127, 96, 48, 24])),
        (b"scale 1 0 0 4 -1 100", Seen::Frames(&[-2, -1, -1, -1])),
        (b"scale 1 0 0 4 0 1", Seen::Frames(&[0, 0, 0, 0])),
    ],
    // frames get 16 bits, and are rounded down to 8
    &[
        (b"bits 1 0 16", Seen::Frames(&[16384, 8192, 4096, 2048])),
        (b"scale 1 0 0 4 -1 300", Seen::Frames(&[-55, -28, -14, -7])),
        (b"bits 1 0 8", Seen::Frames(&[-1, -1, -1, -1])),
    ],
    // a loop is brought into the frames that are left
    &[
        (b"cut 1 0 0 1", Seen::Turns(1, 2, 1)),
        (b"reverse 1 0 0 0", Seen::Frames(&[32, 16, 8])),
        (b"cut 1 0 0 1", Seen::Turns(0, 0, 0)),
    ],
    // frames are put before the first, and after the last
    &[
        (b"paste 1 0 0 ff80", Seen::Frames(&[-128, 64, 32, 16, 8])),
        (b"paste 1 0 5 0001", Seen::Frames(&[-128, 64, 32, 16, 8, 1])),
    ],
];

/// Whether the cell at a place of the pattern has this note.
fn has_note(song: &Module, at: &(usize, u8)) -> bool {
    let Some(pattern) = song.patterns.get(0) else {
        return false;
    };
    match pattern.cells.get(at.0) {
        Some(cell) => cell.note == at.1,
        None => false,
    }
}

/// The sample of the song.
fn sample(song: &Module) -> Option<&Sample> {
    match song.instruments.get(0) {
        Some(instrument) => instrument.samples.get(0),
        None => None,
    }
}

/// Whether the sample of the song has these frames.
fn has_frames(song: &Module, frames: &[i16]) -> bool {
    match sample(song) {
        Some(sample) => sample.frames.as_slice() == frames,
        None => false,
    }
}

/// Whether the sample of the song turns so.
fn turns(song: &Module, kind: u8, start: u32, len: u32) -> bool {
    match sample(song) {
        Some(sample) => {
            sample.loop_kind == kind && sample.loop_start == start && sample.loop_len == len
        }
        None => false,
    }
}

/// Whether this is seen of a song that gave this answer.
fn is_seen(song: &Module, answer: Answer, seen: Seen) -> bool {
    match seen {
        Seen::Restart(position) => answer == Answer::Done && song.restart == position,
        Seen::Notes(notes) => {
            answer == Answer::Done && notes.iter().all(|at| has_note(song, at))
        }
        Seen::Frames(frames) => answer == Answer::Done && has_frames(song, frames),
        Seen::Turns(kind, start, len) => answer == Answer::Done && turns(song, kind, start, len),
        Seen::Refused(fault) => answer == Answer::Refused(fault),
    }
}

/// How many steps of some, one after the other, are seen of a song.
fn count_seen(alloc: Global, song: &mut Module, steps: Steps) -> usize {
    for (number, step) in steps.iter().enumerate() {
        let answer = answered(alloc, song, step.0);
        if !is_seen(song, answer, step.1) {
            return number;
        }
    }
    steps.len()
}

/// How many steps are seen of the song.
fn seen_of_song(alloc: Global, steps: Steps) -> Result<usize, AllocError> {
    Ok(count_seen(alloc, &mut song(alloc)?, steps))
}

#[test]
fn each_step_is_seen(rt: HostRuntime) -> Result<(), Fail> {
    for steps in ALL.iter() {
        assert_eq!(rt; seen_of_song(rt.alloc(), steps)?, steps.len());
    }
    Ok(())
}
