//! An outside that fails, or gives without end.

ghost use Rattle.std.specs.Prelude.{None};

use crate::runs::{Calls, Counter, SECOND, SURE, outcome_of, words_of};
use ft_outer::{Failed, Sink, Source, SureSource};
use ft_run::{SongFault, Status, run_plain};
use ft_songs::silent_song;
use std::alloc::{AllocError, Global};

/// How many bytes a run of these words on the silent song wrote, and whether they are the front of
/// what it writes where nothing fails; its status first.
fn front_of(alloc: Global, text: &str, calls: Calls) -> Result<(Status, usize, bool), AllocError> {
    let song = silent_song(alloc)?;
    let whole = outcome_of(alloc, text, &song, SURE)?;
    let outcome = outcome_of(alloc, text, &song, calls)?;
    let is_front = whole.wav.bytes().starts_with(outcome.wav.bytes());
    Ok((outcome.status, outcome.wav.bytes().len(), is_front))
}

/// The song of 336 bytes comes in pieces of 100: four calls, and a fifth that finds the end.
#[test]
fn each_failing_read_is_told_and_nothing_is_written(rt: HostRuntime) {
    for call in 1..=5 {
        let calls = Calls {
            bad_reads: &[call],
            ..SURE
        };
        let told = Ok((Status::SongRead, 0, true));
        assert!(rt; front_of(rt.alloc(), SECOND, calls) == told, "call {call}");
        assert!(rt;
            front_of(rt.alloc(), "copy song out", calls) == told,
            "call {call}"
        );
    }
}

/// The WAV of 32,044 bytes goes out in pieces of at most 1,000.
#[test]
fn each_failing_write_leaves_a_front(rt: HostRuntime) {
    for call in 1..=33 {
        let calls = Calls {
            bad_writes: &[call],
            ..SURE
        };
        let front = front_of(rt.alloc(), SECOND, calls);
        assert!(rt;
            matches!(front, Ok((Status::WavWrite, 0..32_044, true))),
            "call {call}"
        );
    }
}

/// A source that gives zeros for ever.
#[derive(Drop)]
struct Endless {
    given: u64,
}

impl Source for Endless {
    ghost left = { λ _. None };

    ghost given = { λ source. source.given };

    ghost faults = { λ _. 0 };

    fn read(&mut self, buf: &mut [u8]) -> Result<usize, Failed> {
        self.given = self.given.saturating_add(buf.len() as u64);
        Ok(buf.len())
    }
}

/// How a run on a source without end ends, and whether that gave more than a song has at most.
fn endless_end(alloc: Global, text: &str) -> Result<(Status, u64, bool), AllocError> {
    let words = words_of(alloc, text)?;
    let mut song = Endless { given: 0 };
    let (mut wav, mut ledger) = (Counter::new(), Counter::new());
    let status = run_plain(alloc, &words, &mut song, &mut wav, &mut ledger);
    let calls = wav.calls.saturating_add(ledger.calls);
    Ok((status, calls, song.given > 67_108_864))
}

#[test]
fn a_source_without_end_is_too_big(rt: HostRuntime) {
    let too_big = Ok((Status::Song(SongFault::TooBig), 0, true));
    assert!(rt; endless_end(rt.alloc(), SECOND) == too_big);
    assert!(rt; endless_end(rt.alloc(), "copy song out") == too_big);
}

/// Takes up to 1,000 bytes at each call but one, and counts the calls that follow that.
#[derive(Drop)]
struct Stumbling {
    calls_before: u32,
    calls_after: u32,
    faults: u64,
}

impl Stumbling {
    fn new(calls_before: u32) -> Stumbling {
        Stumbling {
            calls_before,
            calls_after: 0,
            faults: 0,
        }
    }
}

impl Sink for Stumbling {
    ghost held = { λ _. None };

    ghost faults = { λ sink. sink.faults };

    fn write(&mut self, piece: &[u8]) -> Result<usize, Failed> {
        if self.calls_before > 0 {
            self.calls_before -= 1;
            return Ok(piece.len().min(1_000));
        }
        if self.faults == 0 {
            self.faults = 1;
            return Err(Failed);
        }
        self.calls_after = self.calls_after.saturating_add(1);
        Ok(piece.len().min(1_000))
    }
}

/// The status of a run whose output fails after that many calls, and how often it called a sink
/// after that.
fn stumbled(alloc: Global, text: &str, calls: u32) -> Result<(Status, u64), AllocError> {
    let words = words_of(alloc, text)?;
    let mut song = SureSource::new(silent_song(alloc)?, 1_000);
    let (mut wav, mut ledger) = (Stumbling::new(calls), Counter::new());
    let status = run_plain(alloc, &words, &mut song, &mut wav, &mut ledger);
    Ok((
        status,
        ledger.calls.saturating_add(u64::from(wav.calls_after)),
    ))
}

/// Outputs that fail after that many calls.
static STUMBLES: [(&str, u32); 6] = [
    (SECOND, 0),
    (SECOND, 1),
    (SECOND, 7),
    ("copy song out", 0),
    ("gen 7 out", 0),
    ("gen 7 out", 100),
];

#[test]
fn no_sink_is_called_again_after_a_fault(rt: HostRuntime) {
    for (text, calls) in STUMBLES.iter() {
        let told = Ok((Status::WavWrite, 0));
        assert!(rt; stumbled(rt.alloc(), text, *calls) == told, "{text}");
    }
}
