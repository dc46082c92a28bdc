//! Generated songs.

use crate::runs::{Calls, SURE, outcome_of};
use ft_run::Status;
use std::alloc::{AllocError, Global};

/// The line of `gen 7`. 500 ticks of 882 frames are 10 seconds; the peak is that of the slow reading
/// in `tools/slow_replay.py`.
const LINE: &[u8] = b"gen 7 bytes 571238 blocks 425 ticks 500 peak 26334\n";

/// How `gen 7 out` ends with these calls, how many bytes of the song it wrote, and how many of the
/// line; they are fronts of the right ones.
fn generated(alloc: Global, calls: Calls) -> Result<(Status, usize, usize), AllocError> {
    let whole = outcome_of(alloc, "gen 7 out", &[], SURE)?;
    let outcome = outcome_of(alloc, "gen 7 out", &[], calls)?;
    let is_front = whole.wav.bytes().starts_with(outcome.wav.bytes())
        && LINE.starts_with(outcome.ledger.bytes());
    let (song, line) = (outcome.wav.bytes().len(), outcome.ledger.bytes().len());
    Ok(if is_front {
        (outcome.status, song, line)
    } else {
        (Status::Usage, song, line)
    })
}

/// Calls in pieces of 100,000 bytes, and how they end. 571,238 bytes are 336 of header, 40 heads and
/// data of patterns, and 16 instruments of 33,071.
static ENDS: [(Calls, Status, usize, usize); 4] = [
    (SURE, Status::Done, 571_238, 51),
    (
        Calls {
            write: 100_000,
            bad_writes: &[3],
            ..SURE
        },
        Status::WavWrite,
        200_000,
        0,
    ),
    (
        Calls {
            bad_lines: &[1],
            ..SURE
        },
        Status::LedgerWrite,
        571_238,
        0,
    ),
    (
        Calls {
            write: 7,
            bad_lines: &[4],
            ..SURE
        },
        Status::LedgerWrite,
        571_238,
        21,
    ),
];

#[test]
fn a_generated_song_and_its_line_are_written_or_fronts_of_them(rt: HostRuntime) {
    for (calls, status, song, line) in ENDS.iter() {
        let end = Ok((*status, *song, *line));
        assert!(rt; generated(rt.alloc(), *calls) == end, "{status:?}");
    }
}
