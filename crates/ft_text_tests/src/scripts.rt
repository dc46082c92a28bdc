//! Lines of scripts.

use crate::kinds::numbers;
use ft_lines::{LineFault, Timed, TimedBatch, print_batch, print_edit, read_batch, read_edit};
use std::alloc::{AllocError, Global};
use std::test::Fail;

/// What a line says.
#[derive(Clone, Copy, Debug, PartialEq, Eq)]
enum Said {
    /// Nothing.
    Skipped,
    /// It is wrong at this byte.
    Bad(u16),
    /// Out of memory.
    Wanting,
    /// An edit at no time.
    Edit([i64; 9]),
    /// An edit at a time.
    At(u32, [i64; 9]),
    /// That many edits, the last of which is this one.
    Batch(usize, [i64; 9]),
    /// The same, at a time.
    BatchAt(u32, usize, [i64; 9]),
}

use Said::{At, Bad, Batch, BatchAt, Edit, Skipped};

/// What a fault says.
fn fault(fault: LineFault) -> Said {
    match fault {
        LineFault::Bad { at } => Said::Bad(at),
        LineFault::NoMemory => Said::Wanting,
    }
}

/// What an edit says.
fn edit(timed: &Timed) -> Said {
    let edit = numbers(&timed.edit);
    timed.at.map_or(Said::Edit(edit), |at| Said::At(at, edit))
}

/// What a batch says.
fn batch(timed: &TimedBatch) -> Said {
    let count = timed.batch.len();
    let last = timed
        .batch
        .as_slice()
        .last()
        .map_or([0; 9], |edit| numbers(edit));
    timed.at.map_or(
        Said::Batch(count, last),
        |at| Said::BatchAt(at, count, last),
    )
}

/// What a line of one edit says.
fn read_one(alloc: Global, line: &[u8]) -> Said {
    match read_edit(alloc, line) {
        Ok(None) => Said::Skipped,
        Ok(Some(timed)) => edit(&timed),
        Err(error) => fault(error),
    }
}

/// What a line of up to 16 edits says.
fn read_many(alloc: Global, line: &[u8]) -> Said {
    match read_batch(alloc, line) {
        Ok(None) => Said::Skipped,
        Ok(Some(timed)) => batch(&timed),
        Err(error) => fault(error),
    }
}

/// What a line says that begins so and has spaces up to this length.
fn read_padded(alloc: Global, front: &[u8], length: usize) -> Result<Said, AllocError> {
    let mut line = Vec::from_slice(alloc, front)?;
    for _ in front.len()..length {
        line.push(b' ')?;
    }
    Ok(read_one(alloc, &line))
}

/// The edits of patterns, of the song and of instruments.
static SONG: [(&str, [i64; 9]); 24] = [
    ("cell 1 2 3 4 5 6 7 8", [1, 1, 2, 3, 4, 5, 6, 7, 8]),
    ("rows 1 65535", [2, 1, 65535, 0, 0, 0, 0, 0, 0]),
    ("insrow 255 3", [3, 255, 3, 0, 0, 0, 0, 0, 0]),
    ("delrow 1 2", [4, 1, 2, 0, 0, 0, 0, 0, 0]),
    ("clear 1 2 3 4 5", [5, 1, 2, 3, 4, 5, 0, 0, 0]),
    ("transpose 1 2 3 4 5 -128", [6, 1, 2, 3, 4, 5, -128, 0, 0]),
    ("copy 1 2 3 4 5 6 7 8", [7, 1, 2, 3, 4, 5, 6, 7, 8]),
    ("order 300 1", [8, 300, 1, 0, 0, 0, 0, 0, 0]),
    ("insorder 2 1", [9, 2, 1, 0, 0, 0, 0, 0, 0]),
    ("delorder 2", [10, 2, 0, 0, 0, 0, 0, 0, 0]),
    ("restart 2", [11, 2, 0, 0, 0, 0, 0, 0, 0]),
    ("tempo 3", [12, 3, 0, 0, 0, 0, 0, 0, 0]),
    ("bpm 140", [13, 140, 0, 0, 0, 0, 0, 0, 0]),
    ("title 4d79", [14, 77, 121, 0, 0, 0, 0, 0, 0]),
    ("newpat 64", [15, 64, 0, 0, 0, 0, 0, 0, 0]),
    ("delpat", [16, 0, 0, 0, 0, 0, 0, 0, 0]),
    ("newins", [17, 0, 0, 0, 0, 0, 0, 0, 0]),
    ("clearins 1", [18, 1, 0, 0, 0, 0, 0, 0, 0]),
    ("insname 1 6269", [19, 1, 98, 105, 0, 0, 0, 0, 0]),
    ("map 1 2 3", [20, 1, 2, 3, 0, 0, 0, 0, 0]),
    ("env 1 2 3 4 5 6 7", [21, 1, 2, 3, 4, 5, 6, 7, 0]),
    ("point 1 2 3 400 5", [22, 1, 2, 3, 400, 5, 0, 0, 0]),
    ("vib 1 2 3 4 5", [23, 1, 2, 3, 4, 5, 0, 0, 0]),
    ("fade 1 65535", [24, 1, 65535, 0, 0, 0, 0, 0, 0]),
];

/// The edits of samples and frames.
static SAMPLES: [(&str, [i64; 9]); 12] = [
    ("newsmp 1", [25, 1, 0, 0, 0, 0, 0, 0, 0]),
    ("delsmp 1", [26, 1, 0, 0, 0, 0, 0, 0, 0]),
    (
        "smpname 1 2 000102030405060708090a0b0c0d0e0f101112131415",
        [27, 1, 2, 0, 1, 21, 0, 0, 0],
    ),
    ("smp 1 2 3 -4 127 6", [28, 1, 2, 3, -4, 127, 6, 0, 0]),
    (
        "loop 1 2 3 4000000000 4294967295",
        [29, 1, 2, 3, 4_000_000_000, 4_294_967_295, 0, 0, 0],
    ),
    ("cut 1 2 3 70000", [30, 1, 2, 3, 70_000, 0, 0, 0, 0]),
    ("paste 1 0 4 ff80", [31, 1, 0, 4, 1, -128, 0, 0, 0]),
    ("paste 1 0 4 0080", [31, 1, 0, 4, 1, 128, 0, 0, 0]),
    ("paste 1 0 4 7fff8000", [31, 1, 0, 4, 2, 32_767, 0, 0, 0]),
    ("reverse 1 0 0 4", [32, 1, 0, 0, 4, 0, 0, 0, 0]),
    (
        "scale 1 0 0 4 -32768 65535",
        [33, 1, 0, 0, 4, -32_768, 65_535, 0, 0],
    ),
    ("bits 1 0 16", [34, 1, 0, 16, 0, 0, 0, 0, 0]),
];

const TEMPO_3: [i64; 9] = [12, 3, 0, 0, 0, 0, 0, 0, 0];

const DELPAT: [i64; 9] = [16, 0, 0, 0, 0, 0, 0, 0, 0];

/// Lines with their times, spaces and comments, and what is wrong with the words of others.
static LINES: [(&str, Said); 25] = [
    ("  at  7   tempo 3 ", At(7, TEMPO_3)),
    ("at 4294967295 delpat", At(4_294_967_295, DELPAT)),
    ("at 4294967296 delpat", Bad(3)),
    ("at 1 at 2 delpat", Bad(5)),
    ("at", Bad(2)),
    ("at 7", Bad(4)),
    ("", Skipped),
    ("   ", Skipped),
    ("# a", Skipped),
    ("#tempo 3", Skipped),
    (" # x", Bad(1)),
    ("tempo x", Bad(6)),
    ("tempo", Bad(5)),
    ("order 1  ", Bad(9)),
    ("delpat  1", Bad(8)),
    ("tempos 3", Bad(0)),
    ("Tempo 3", Bad(0)),
    ("tempo\t3", Bad(0)),
    ("tempo 3\t", Bad(6)),
    ("tempo 3\r", Bad(6)),
    ("delpat ; delpat", Bad(7)),
    ("tempo 3;", Bad(6)),
    ("; delpat", Bad(0)),
    ("at -1 delpat", Bad(3)),
    ("tempo 32", Edit([12, 32, 0, 0, 0, 0, 0, 0, 0])),
];

/// Numbers, names and frames that are no words of a script, and some at the end of their range.
static WORDS: [(&str, Said); 23] = [
    ("tempo 255", Edit([12, 255, 0, 0, 0, 0, 0, 0, 0])),
    ("tempo 256", Bad(6)),
    ("tempo 00", Bad(6)),
    ("tempo 03", Bad(6)),
    ("tempo +3", Bad(6)),
    ("tempo -0", Bad(6)),
    ("tempo 3x", Bad(6)),
    ("tempo 99999999999999999999999999", Bad(6)),
    ("rows 0 65536", Bad(7)),
    ("cut 1 0 0 4294967296", Bad(10)),
    ("transpose 0 0 0 1 1 -0", Bad(20)),
    ("transpose 0 0 0 1 1 +1", Bad(20)),
    ("transpose 0 0 0 1 1 -129", Bad(20)),
    ("transpose 0 0 0 1 1 128", Bad(20)),
    ("transpose 0 0 0 1 1 -", Bad(20)),
    ("scale 1 0 0 4 -32769 1", Bad(14)),
    ("title 4D", Bad(6)),
    ("title 4", Bad(6)),
    ("title 4g", Bad(6)),
    ("title 000102030405060708090a0b0c0d0e0f1011121314", Bad(6)),
    (
        "insname 1 000102030405060708090a0b0c0d0e0f10111213141516",
        Bad(10),
    ),
    ("paste 1 0 4 ff8", Bad(12)),
    ("paste 1 0 4 ff80ff", Bad(12)),
];

/// Lines of several edits.
static BATCHES: [(&str, Said); 13] = [
    ("tempo 3", Batch(1, TEMPO_3)),
    (
        "tempo 3 ; bpm 140",
        Batch(2, [13, 140, 0, 0, 0, 0, 0, 0, 0]),
    ),
    ("tempo 3 ; tempo 0", Batch(2, [12, 0, 0, 0, 0, 0, 0, 0, 0])),
    ("at 9 bpm 40  ;  delpat ", BatchAt(9, 2, DELPAT)),
    ("tempo ; bpm 40", Bad(6)),
    ("tempo 3 ; at 2 delpat", Bad(10)),
    ("tempo 3; delpat", Bad(6)),
    ("tempo 3 ;; delpat", Bad(8)),
    ("delpat ;", Bad(8)),
    ("delpat ; ", Bad(9)),
    ("; delpat", Bad(0)),
    ("# tempo ; tempo", Skipped),
    ("delpat delpat", Bad(7)),
];

/// 16 edits, and 17.
const SIXTEEN: &str = "delpat ; delpat ; delpat ; delpat ; delpat ; delpat ; delpat ; delpat ; \
delpat ; delpat ; delpat ; delpat ; delpat ; delpat ; delpat ; delpat";

#[test]
fn each_kind_of_edit_is_read(rt: HostRuntime) -> Result<(), Fail> {
    for (line, edit) in SONG.iter() {
        assert_eq!(rt;
            read_one(rt.alloc(), line.as_bytes()),
            Edit(*edit),
            "{line}"
        );
    }
    for (line, edit) in SAMPLES.iter() {
        assert_eq!(rt;
            read_one(rt.alloc(), line.as_bytes()),
            Edit(*edit),
            "{line}"
        );
    }
    Ok(())
}

#[test]
fn lines_say_an_edit_or_where_the_first_wrong_word_stands(rt: HostRuntime) -> Result<(), Fail> {
    for (line, what) in LINES.iter() {
        assert_eq!(rt; read_one(rt.alloc(), line.as_bytes()), *what, "{line}");
    }
    for (line, what) in WORDS.iter() {
        assert_eq!(rt; read_one(rt.alloc(), line.as_bytes()), *what, "{line}");
    }
    Ok(())
}

#[test]
fn lines_say_up_to_16_edits(rt: HostRuntime) -> Result<(), Fail> {
    for (line, what) in BATCHES.iter() {
        assert_eq!(rt; read_many(rt.alloc(), line.as_bytes()), *what, "{line}");
    }
    Ok(())
}

/// A batch of 16 edits, and 17 edits.
fn most_edits(alloc: Global) -> Result<(Said, Said), AllocError> {
    let mut line = Vec::from_slice(alloc, SIXTEEN.as_bytes())?;
    let sixteen = read_many(alloc, &line);
    line.extend_from_slice(b" ; delpat")?;
    Ok((sixteen, read_many(alloc, &line)))
}

#[test]
fn a_seventeenth_edit_is_too_much(rt: HostRuntime) -> Result<(), Fail> {
    assert!(rt; most_edits(rt.alloc())? == (Batch(16, DELPAT), Bad(142)));
    Ok(())
}

/// Whether a line of 4,096 bytes is read, and one of 4,097 is wrong, whatever it holds.
fn is_bounded(alloc: Global, front: &[u8], what: Said) -> Result<bool, AllocError> {
    Ok(read_padded(alloc, front, 4096)? == what && read_padded(alloc, front, 4097)? == Bad(4096))
}

#[test]
fn a_line_has_at_most_4096_bytes(rt: HostRuntime) -> Result<(), Fail> {
    assert!(rt; is_bounded(rt.alloc(), b"tempo 3", Edit(TEMPO_3))?);
    assert!(rt; is_bounded(rt.alloc(), b"# a", Skipped)?);
    assert!(rt; is_bounded(rt.alloc(), b"", Skipped)?);
    Ok(())
}

/// What a paste of that many frames says.
fn pasted(alloc: Global, frames: usize) -> Result<Said, AllocError> {
    let mut line = Vec::from_slice(alloc, b"paste 1 0 4 ")?;
    for _ in 0..frames {
        line.extend_from_slice(b"fffe")?;
    }
    Ok(read_one(alloc, &line))
}

#[test]
fn a_paste_has_at_most_256_frames(rt: HostRuntime) -> Result<(), Fail> {
    assert!(rt; pasted(rt.alloc(), 256)? == Edit([31, 1, 0, 4, 256, -2, 0, 0, 0]));
    assert!(rt; pasted(rt.alloc(), 257)? == Bad(12));
    Ok(())
}

/// Lines as edits are printed.
static TEXTS: [&str; 10] = [
    "cell 1 2 3 4 5 6 7 8",
    "delpat",
    "newpat 64",
    "transpose 1 2 3 4 5 -128",
    "title 4d79000000000000000000000000000000000000",
    "smpname 1 2 000102030405060708090a0b0c0d0e0f101112131415",
    "env 1 2 3 4 5 6 7",
    "loop 1 2 3 4000000000 4294967295",
    "paste 1 0 4 7fff8000",
    "scale 1 0 0 4 -32768 65535",
];

/// Whether the edit that a line says is printed as that line.
fn is_printed_so(alloc: Global, line: &[u8]) -> bool {
    match read_edit(alloc, line) {
        Ok(Some(timed)) => match print_edit(alloc, &timed.edit) {
            Ok(text) => text.as_slice() == line,
            Err(_) => false,
        },
        _ => false,
    }
}

/// Whether the batch that a line says is printed as that line.
fn is_batch_printed_so(alloc: Global, line: &[u8]) -> bool {
    match read_batch(alloc, line) {
        Ok(Some(timed)) => match print_batch(alloc, &timed.batch) {
            Ok(text) => text.as_slice() == line,
            Err(_) => false,
        },
        _ => false,
    }
}

#[test]
fn edits_are_printed_as_they_were_read(rt: HostRuntime) -> Result<(), Fail> {
    for line in TEXTS.iter() {
        assert!(rt; is_printed_so(rt.alloc(), line.as_bytes()), "{line}");
    }
    assert!(rt; is_batch_printed_so(rt.alloc(), b"tempo 3 ; bpm 140 ; delpat"));
    assert!(rt; is_batch_printed_so(rt.alloc(), SIXTEEN.as_bytes()));
    Ok(())
}
