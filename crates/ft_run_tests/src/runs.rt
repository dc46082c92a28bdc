//! Runs, and the sinks that they write to.

use ft_outer::{Failed, MemSink, MemSource, Sink, SureSource};
use ft_run::{Status, run_plain};
use std::alloc::{AllocError, Global};

/// A second of sound at 8,000 frames a second: a WAV file of 32,044 bytes.
pub const SECOND: &str = "step song wav ledger --rate=8000 --seconds=1";

/// The words of a text, which are parted by blanks.
pub fn words_of(alloc: Global, text: &str) -> Result<Vec<String>, AllocError> {
    let mut words = Vec::new(alloc);
    for word in text.split_whitespace() {
        words.push(String::from_str(alloc, word)?)?;
    }
    Ok(words)
}

/// A sink that takes all, and counts its calls and the bytes.
#[derive(Drop)]
pub struct Counter {
    pub calls: u64,
    pub bytes: u64,
}

impl Counter {
    pub fn new() -> Counter {
        Counter { calls: 0, bytes: 0 }
    }
}

impl Sink for Counter {
    ghost use Rattle.std.specs.Prelude.{None};

    ghost held = { λ _. None };

    ghost faults = { λ _. 0 };

    fn write(&mut self, piece: &[u8]) -> Result<usize, Failed> {
        self.calls = self.calls.saturating_add(1);
        self.bytes = self.bytes.saturating_add(piece.len() as u64);
        Ok(piece.len())
    }
}

/// How a run ended: its status, how often it called a sink, and the bytes that each sink took.
#[derive(Clone, Copy, Debug, PartialEq, Eq)]
pub struct End {
    pub status: Status,
    pub calls: u64,
    pub wav: u64,
    pub ledger: u64,
}

/// Runs the words on a song where nothing fails.
pub fn end_of(alloc: Global, text: &str, song: &[u8]) -> Result<End, AllocError> {
    let words = words_of(alloc, text)?;
    let mut source = SureSource::new(song.to_vec(alloc)?, 65_536);
    let (mut wav, mut ledger) = (Counter::new(), Counter::new());
    let status = run_plain(alloc, &words, &mut source, &mut wav, &mut ledger);
    Ok(End {
        status,
        calls: wav.calls.saturating_add(ledger.calls),
        wav: wav.bytes,
        ledger: ledger.bytes,
    })
}

/// Whether a run of these words ends so, without a call of a sink.
pub fn is_refused(alloc: Global, text: &str, song: &[u8], status: Status) -> bool {
    let refused = End {
        status,
        calls: 0,
        wav: 0,
        ledger: 0,
    };
    end_of(alloc, text, song) == Ok(refused)
}

/// What a run came to: its status, and what it wrote.
#[derive(Drop)]
pub struct Outcome {
    pub status: Status,
    pub wav: MemSink,
    pub ledger: MemSink,
}

/// How many bytes a source gives and a sink takes in a call, which of the calls fail, and how many
/// bytes a sink has room for.
#[derive(Clone, Copy)]
pub struct Calls<'a> {
    pub read: usize,
    pub write: usize,
    pub bad_reads: &'a [u32],
    pub bad_writes: &'a [u32],
    pub bad_lines: &'a [u32],
    pub room: usize,
}

/// Calls of which none fails, with room for 600,000 bytes.
pub const SURE: Calls<'static> = Calls {
    read: 100,
    write: 1_000,
    bad_reads: &[],
    bad_writes: &[],
    bad_lines: &[],
    room: 600_000,
};

fn sink_of(alloc: Global, calls: Calls, fails: &[u32]) -> Result<MemSink, AllocError> {
    MemSink::new(alloc, calls.room, calls.write.max(1), fails.to_vec(alloc)?).map_err(
        |_| AllocError,
    )
}

/// Runs the words on a song, with these calls.
pub fn outcome_of(
    alloc: Global,
    text: &str,
    song: &[u8],
    calls: Calls,
) -> Result<Outcome, AllocError> {
    let words = words_of(alloc, text)?;
    let bad_reads = calls.bad_reads.to_vec(alloc)?;
    let mut source = MemSource::new(song.to_vec(alloc)?, calls.read.max(1), bad_reads);
    let mut wav = sink_of(alloc, calls, calls.bad_writes)?;
    let mut ledger = sink_of(alloc, calls, calls.bad_lines)?;
    let status = run_plain(alloc, &words, &mut source, &mut wav, &mut ledger);
    Ok(Outcome {
        status,
        wav,
        ledger,
    })
}
