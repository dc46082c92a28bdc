//! Ledgers, read and printed.

use ft_text::{LedgerFault, Record, print_ledger, read_ledger};
use std::alloc::{AllocError, Global};
use std::test::Fail;

/// What became of a ledger.
#[derive(Clone, Copy, Debug, PartialEq, Eq)]
enum Read {
    /// It is printed as it was to be.
    Same,
    /// It is printed otherwise.
    Other,
    /// This line can't be there.
    Line(u32),
    /// Out of memory.
    Wanting,
}

/// What a ledger is read as, in numbers: entries, refusals, ticks, hands, the bytes of the saved
/// song, the status.
type Numbers = [u64; 6];

/// What a fault says.
fn fault(fault: LedgerFault) -> Read {
    match fault {
        LedgerFault::Line { line } => Read::Line(line),
        LedgerFault::NoMemory => Read::Wanting,
    }
}

/// Whether a ledger is read, and printed as it was to be.
fn printed(alloc: Global, ledger: &[u8], wanted: &[u8]) -> Read {
    let record = match read_ledger(alloc, ledger) {
        Ok(record) => record,
        Err(error) => return fault(error),
    };
    match print_ledger(
        alloc,
        &record.run,
        &record.journal,
        &record.ticks,
        &record.hands,
        record.saved,
    ) {
        Ok(text) => {
            if text.as_slice() == wanted {
                Read::Same
            } else {
                Read::Other
            }
        }
        Err(_) => Read::Wanting,
    }
}

/// Numbers of a record.
fn numbers(record: &Record) -> Numbers {
    [
        record.journal.entries() as u64,
        record.journal.refusals() as u64,
        record.ticks.len() as u64,
        record.hands.len() as u64,
        record.saved.map_or(0, |saved| u64::from(saved.bytes)),
        u64::from(record.run.status),
    ]
}

/// Numbers of a ledger; none where it isn't read.
fn told(alloc: Global, ledger: &[u8]) -> Option<Numbers> {
    match read_ledger(alloc, ledger) {
        Ok(record) => Some(numbers(&record)),
        Err(_) => None,
    }
}

/// A run in which a loop is turned round before tick 1, cut at its sixth tick.
const REVERSED: &str = "xmstudio ledger 2\nplay 8363 1 16384 1\nc 1 0 1 reverse 1 0 0 4\n\
t 0 0 0 0 0 167\nt 1 1 0 0 1 167\nt 2 1 0 0 2 167\nt 3 1 0 0 3 168\nt 4 1 0 0 4 167\n\
t 5 1 0 0 5 167\nend 5 6\n";

/// The same, as form 1 writes it.
const REVERSED_OLD: &str = "xmstudio ledger 1\nplay 8363 1 16384 1\nc 1 0 1 reverse 1 0 0 4\n\
t 0 0 0 0 0 167\nt 1 1 0 0 1 167\nt 2 1 0 0 2 167\nt 3 1 0 0 3 168\nt 4 1 0 0 4 167\n\
t 5 1 0 0 5 167\nend 5 6\n";

/// Two hands of three edits each, one of which names a row that isn't there.
const TWO_HANDS: &str = "xmstudio ledger 2\nplay 44100 60 16384 2\nc 1 0 1 cell 0 0 0 49 1 0 0 0\n\
c 2 1 1 cell 0 1 0 49 1 0 0 0\nc 3 1 2 cell 0 2 0 49 1 0 0 0\nc 4 0 3 cell 0 3 0 49 1 0 0 0\n\
c 5 1 3 cell 0 4 0 49 1 0 0 0\nr 0 2 edit 0 2 64 64 cell 0 64 0 49 1 0 0 0\nt 0 5 0 0 0 882\n\
end 0 1\n";

/// The same, as form 1 writes it: without the place of the refused edit.
const TWO_HANDS_OLD: &str = "xmstudio ledger 1\nplay 44100 60 16384 2\n\
c 1 0 1 cell 0 0 0 49 1 0 0 0\nc 2 1 1 cell 0 1 0 49 1 0 0 0\nc 3 1 2 cell 0 2 0 49 1 0 0 0\n\
c 4 0 3 cell 0 3 0 49 1 0 0 0\nc 5 1 3 cell 0 4 0 49 1 0 0 0\n\
r 0 2 edit 2 64 64 cell 0 64 0 49 1 0 0 0\nt 0 5 0 0 0 882\nend 0 1\n";

/// Each fault of an edit once, and each other cause.
const CAUSES: &str = "xmstudio ledger 2\nplay 8000 1200 65535 32\n\
r 0 1 edit 0 1 255 rows 255 64\nr 0 2 edit 1 2 65536 256 tempo 3 ; delrow 0 65535\n\
r 0 3 edit 15 3 510 clear 0 0 255 1 255\nr 0 4 edit 0 4 65535 delorder 65535\n\
r 0 5 edit 0 5 255 clearins 255\nr 0 6 edit 0 6 16 -32768 paste 1 0 0 8000\n\
r 0 7 edit 0 7 5 3932161 paste 1 0 0 0001\nr 0 8 edit 0 8 1 16 delsmp 1\n\
r 0 9 edit 0 9 4294967295 8589934590 4294967295 loop 1 0 1 4294967295 4294967295\n\
r 1 1 worn 4294967295 tempo 3\nr 255 4294967295 full 7 6 newpat 64\nend 8 0\n";

/// Hands that ended early, and a saved song.
const HANDS: &str = "xmstudio ledger 2\nplay 8000 1 64 1\nh 0 malformed 3\nh 1 failed 0\n\
h 3 limit 100000\nh 255 memory 4294967295\ns 0 782\nend 10 0\n";

/// The shortest ledger.
const SHORTEST: &str = "xmstudio ledger 2\nplay 0 0 0 0\nend 0 0\n";

/// Ledgers, as they are printed, and what they say.
static LEDGERS: [(&str, &str, Numbers); 7] = [
    (REVERSED, REVERSED, [1, 0, 6, 0, 0, 5]),
    (REVERSED_OLD, REVERSED, [1, 0, 6, 0, 0, 5]),
    (TWO_HANDS, TWO_HANDS, [5, 1, 1, 0, 0, 0]),
    (TWO_HANDS_OLD, TWO_HANDS, [5, 1, 1, 0, 0, 0]),
    (CAUSES, CAUSES, [0, 11, 0, 0, 0, 8]),
    (HANDS, HANDS, [0, 0, 0, 4, 782, 10]),
    (SHORTEST, SHORTEST, [0, 0, 0, 0, 0, 0]),
];

/// Ledgers whose lines aren't all there, or are in another order, with the first line that can't be
/// there.
static ORDERS: [(&str, u32); 23] = [
    ("", 1),
    ("\n", 1),
    ("xmstudio ledger 2", 1),
    ("xmstudio ledger 3\nplay 1 1 64 1\nend 0 0\n", 1),
    ("xmstudio ledger 2\n", 2),
    ("xmstudio ledger 2\nend 0 0\n", 2),
    ("xmstudio ledger 2\nplay 1 1 64 1\n", 3),
    ("xmstudio ledger 2\nplay 1 1 64 1\nend 0 0", 3),
    ("xmstudio ledger 2\nplay 1 1 64 1\nend 0 0\r\n", 3),
    ("xmstudio ledger 2\nplay 1 1 64 1\nend 0 0\n\n", 4),
    ("xmstudio ledger 2\nplay 1 1 64 1\nend 0 0\nend 0 0\n", 4),
    ("xmstudio ledger 2\nplay 1 1 64 1\nend 0 0\nx", 4),
    ("xmstudio ledger 2\nplay 1 1 64 1\n\nend 0 0\n", 3),
    (
        "xmstudio ledger 2\nplay 1 1 64 1\nt 1 0 0 0 0 9\nend 0 1\n",
        3,
    ),
    (
        "xmstudio ledger 2\nplay 1 1 64 1\nt 0 0 0 0 0 9\nt 0 0 0 0 0 9\nend 0 2\n",
        4,
    ),
    (
        "xmstudio ledger 2\nplay 1 1 64 1\nt 0 0 0 0 0 9\nend 0 2\n",
        4,
    ),
    (
        "xmstudio ledger 2\nplay 1 1 64 1\nt 0 0 0 0 0 9\nc 1 0 1 delpat\nend 0 1\n",
        4,
    ),
    (
        "xmstudio ledger 2\nplay 1 1 64 1\nr 0 1 worn 1 delpat\nc 1 0 1 delpat\nend 0 0\n",
        4,
    ),
    (
        "xmstudio ledger 2\nplay 1 1 64 1\nh 1 failed 0\nh 0 failed 0\nend 9 0\n",
        4,
    ),
    (
        "xmstudio ledger 2\nplay 1 1 64 1\nh 1 failed 0\nh 1 failed 0\nend 9 0\n",
        4,
    ),
    (
        "xmstudio ledger 2\nplay 1 1 64 1\ns 0 1\ns 0 1\nend 0 0\n",
        4,
    ),
    ("xmstudio ledger 1\nplay 1 1 64 1\ns 0 1\nend 0 0\n", 3),
    ("xmstudio ledger 1\nplay 1 1 64 1\nend 10 0\n", 3),
];

/// Third lines that can't be in a ledger.
static LINES: [&str; 24] = [
    "c 1 0 1",
    "c 1 0 1 ",
    "c 1 0 1 delpat ",
    "c 1 0 1  delpat",
    "c 1 0 1 tempo  3",
    "c 1 0 1 tempo 3;bpm 40",
    "c 1 0 1 tempo 3 ;  bpm 40",
    "c 1 0 1 at 1 delpat",
    "c 1 0 1 # delpat",
    "c 01 0 1 delpat",
    "c 1 256 1 delpat",
    "c 4294967296 0 1 delpat",
    "c 1 0 1 title 4d79",
    "c 1 0 1 tempo 256",
    "r 0 1 edit 2 64 64 delpat",
    "r 0 1 edit 0 10 1 delpat",
    "r 0 1 memory delpat",
    "t 0 0 0 0 0 9 ",
    "t 0 0 65536 0 0 9",
    "h 0 broken 3",
    "h 256 failed 3",
    "s 0 4294967296",
    "end 6 0",
    "x",
];

#[test]
fn ledgers_are_read_and_printed_as_they_were(rt: HostRuntime) -> Result<(), Fail> {
    for (ledger, text, numbers) in LEDGERS.iter() {
        assert_eq!(rt;
            printed(rt.alloc(), ledger.as_bytes(), text.as_bytes()),
            Read::Same,
            "{ledger}"
        );
        assert_eq!(rt;
            told(rt.alloc(), ledger.as_bytes()),
            Some(*numbers),
            "{ledger}"
        );
    }
    Ok(())
}

#[test]
fn the_first_line_is_told_that_cant_stand_there(rt: HostRuntime) -> Result<(), Fail> {
    for (ledger, line) in ORDERS.iter() {
        assert_eq!(rt;
            printed(rt.alloc(), ledger.as_bytes(), b""),
            Read::Line(*line),
            "{ledger}"
        );
    }
    Ok(())
}

/// What a ledger is read as that has this third line.
fn with_line(alloc: Global, line: &[u8]) -> Result<Read, AllocError> {
    let mut ledger = Vec::from_slice(alloc, b"xmstudio ledger 2\nplay 1 1 64 1\n")?;
    ledger.extend_from_slice(line)?;
    ledger.extend_from_slice(b"\nend 0 0\n")?;
    Ok(printed(alloc, &ledger, b""))
}

#[test]
fn words_of_a_line_stand_as_they_are_printed(rt: HostRuntime) -> Result<(), Fail> {
    for line in LINES.iter() {
        assert_eq!(rt;
            with_line(rt.alloc(), line.as_bytes())?,
            Read::Line(3),
            "{line}"
        );
    }
    Ok(())
}

/// What a ledger is read as that has a batch of that many pastes of 256 frames.
fn with_pastes(alloc: Global, pastes: usize) -> Result<Read, AllocError> {
    let mut ledger = Vec::from_slice(alloc, b"xmstudio ledger 2\nplay 1 1 64 1\nc 1 0 1")?;
    for i in 0..pastes {
        if i > 0 {
            ledger.extend_from_slice(b" ;")?;
        }
        ledger.extend_from_slice(b" paste 1 0 0 ")?;
        for _ in 0..256 {
            ledger.extend_from_slice(b"80ff")?;
        }
    }
    ledger.extend_from_slice(b"\nend 0 0\n")?;
    Ok(printed(alloc, &ledger, &ledger))
}

#[test]
fn a_batch_has_up_to_16_edits_of_any_length(rt: HostRuntime) -> Result<(), Fail> {
    assert!(rt; with_pastes(rt.alloc(), 16)? == Read::Same);
    assert!(rt; with_pastes(rt.alloc(), 17)? == Read::Line(3));
    Ok(())
}
