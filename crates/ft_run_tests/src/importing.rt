//! ProTracker modules that are imported, and then played.

use crate::runs::{Calls, SURE, is_refused, outcome_of};
use ft_modread::ModFault;
use ft_modread_tests::one_note_mod;
use ft_run::{SongFault, Status};
use std::alloc::{AllocError, Global};

/// The words of an import.
const IMPORT: &str = "import mod out";

/// The song of the module of one note.
fn imported(alloc: Global) -> Result<Vec<u8>, AllocError> {
    let outcome = outcome_of(alloc, IMPORT, &one_note_mod(alloc)?, SURE)?;
    if outcome.status != Status::Done || !outcome.ledger.bytes().is_empty() {
        return Ok(Vec::new(alloc));
    }
    outcome.wav.bytes().to_vec(alloc)
}

/// The sound of the song, where it is copied as it was written.
fn sound(alloc: Global) -> Result<Vec<u8>, AllocError> {
    let song = imported(alloc)?;
    let copy = outcome_of(alloc, "copy song out", &song, SURE)?;
    if copy.wav.bytes() != song.as_slice() {
        return Ok(Vec::new(alloc));
    }
    let text = "step song wav ledger --rate=8363 --seconds=1";
    let played = outcome_of(alloc, text, &song, SURE)?;
    played.wav.bytes().to_vec(alloc)
}

/// Whether a WAV file begins with four frames of 2,048 on both sides, and is silent behind them.
fn plays_four_frames(wav: &[u8]) -> bool {
    let numbers = wav.get(44..).unwrap_or(&[]);
    let loud = numbers.get(..16).unwrap_or(&[]);
    wav.len() == 33_496
        && loud == [0, 8, 0, 8, 0, 8, 0, 8, 0, 8, 0, 8, 0, 8, 0, 8].as_slice()
        && numbers.iter().skip(16).all(|byte| *byte == 0)
}

#[test]
fn a_module_is_imported_as_a_song_of_its_own(rt: HostRuntime) {
    assert!(rt; imported(rt.alloc()).is_ok_and(|song| song.len() == 1_780));
    assert!(rt; sound(rt.alloc()).is_ok_and(|wav| plays_four_frames(&wav)));
}

/// How the module of one note that is cut to a length ends.
static CUT: [(usize, ModFault); 2] = [
    (1000, ModFault::Short { at: 952, need: 128 }),
    (
        2000,
        ModFault::Short {
            at: 1084,
            need: 1024,
        },
    ),
];

/// Whether a cut module is refused, and nothing is written.
fn is_cut(alloc: Global, length: usize, fault: ModFault) -> Result<bool, AllocError> {
    let mut module = one_note_mod(alloc)?;
    module.truncate(length);
    let status = Status::Song(SongFault::Mod(fault));
    Ok(is_refused(alloc, IMPORT, &module, status))
}

#[test]
fn a_refused_module_writes_nothing(rt: HostRuntime) {
    for (length, fault) in CUT.iter() {
        assert!(rt; is_cut(rt.alloc(), *length, *fault) == Ok(true), "{length}");
    }
}

/// The status of an import with these calls, and how much was written.
fn ended(alloc: Global, calls: Calls) -> Result<(Status, usize), AllocError> {
    let outcome = outcome_of(alloc, IMPORT, &one_note_mod(alloc)?, calls)?;
    Ok((outcome.status, outcome.wav.bytes().len()))
}

#[test]
fn a_failed_read_and_a_failed_write_are_told(rt: HostRuntime) {
    let reads = Calls {
        bad_reads: &[3],
        ..SURE
    };
    let writes = Calls {
        bad_writes: &[2],
        ..SURE
    };
    assert!(rt; ended(rt.alloc(), reads) == Ok((Status::SongRead, 0)));
    assert!(rt; ended(rt.alloc(), writes) == Ok((Status::WavWrite, 1_000)));
}
