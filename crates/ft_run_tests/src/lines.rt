//! The lines on standard error.

use ft_modread::ModFault;
use ft_run::{SongFault, Status};
use ft_xmread::XmFault;
use std::alloc::{AllocError, Global};

/// Each status but the faults of files, with its text and its code.
static LINES: [(Status, &str, u8); 9] = [
    (Status::Done, "done", 0),
    (
        Status::Usage,
        "usage: live or step SONG WAV LEDGER [SCRIPT]... [--rate=N] [--seconds=N] [--segments=N]; copy SONG OUT; gen NUMBER OUT; import MOD OUT",
        2,
    ),
    (Status::Song(SongFault::TooBig), "song refused: too big", 3),
    (Status::SongRead, "song could not be read", 4),
    (Status::WavWrite, "output could not be written", 5),
    (Status::LedgerWrite, "ledger could not be written", 6),
    (
        Status::PoolSmall {
            need: 65,
            segments: 64,
        },
        "pool too small: 65 over 64",
        7,
    ),
    (Status::NoMemory, "out of memory", 8),
    (Status::HandEnded, "a hand ended early", 9),
];

/// Each fault of a file with its text.
static FAULTS: [(XmFault, &str); 9] = [
    (XmFault::NotXm { at: 9 }, "song refused: fault 1 9"),
    (XmFault::Version { found: 259 }, "song refused: fault 2 259"),
    (
        XmFault::Short { at: 58, need: 2 },
        "song refused: fault 3 58 2",
    ),
    (
        XmFault::Count { at: 64, found: 257 },
        "song refused: fault 4 64 257",
    ),
    (
        XmFault::Packing {
            pattern: 5,
            found: 1,
        },
        "song refused: fault 5 5 1",
    ),
    (
        XmFault::CellOverrun {
            pattern: 6,
            at: 345,
        },
        "song refused: fault 6 6 345",
    ),
    (
        XmFault::Stereo {
            instrument: 128,
            sample: 15,
        },
        "song refused: fault 7 128 15",
    ),
    (
        XmFault::TooLong {
            instrument: 1,
            sample: 0,
            frames: 3_932_161,
        },
        "song refused: fault 8 1 0 3932161",
    ),
    (XmFault::NoMemory, "song refused: fault 9"),
];

/// Each fault of a ProTracker module with its text.
static MOD_FAULTS: [(ModFault, &str); 4] = [
    (
        ModFault::NotMod { at: 1081 },
        "song refused: mod fault 1 1081",
    ),
    (
        ModFault::Short { at: 952, need: 128 },
        "song refused: mod fault 2 952 128",
    ),
    (
        ModFault::Count {
            at: 952,
            found: 200,
        },
        "song refused: mod fault 3 952 200",
    ),
    (ModFault::NoMemory, "song refused: mod fault 4"),
];

/// Whether the text of a status is just this one.
fn reads(alloc: Global, status: Status, line: &str) -> Result<bool, AllocError> {
    let text = format!(in alloc; "{status}")?;
    Ok(text.as_str() == line)
}

#[test]
fn each_status_has_its_line_and_its_code(rt: HostRuntime) {
    for (status, line, code) in LINES.iter() {
        assert!(rt; reads(rt.alloc(), *status, line) == Ok(true), "{line}");
        assert!(rt; status.code() == *code, "{line}");
    }
}

#[test]
fn each_fault_has_its_line(rt: HostRuntime) {
    for (fault, line) in FAULTS.iter() {
        let status = Status::Song(SongFault::Xm(*fault));
        assert!(rt; reads(rt.alloc(), status, line) == Ok(true), "{line}");
        assert!(rt; status.code() == 3, "{line}");
    }
}

#[test]
fn each_fault_of_a_module_has_its_line(rt: HostRuntime) {
    for (fault, line) in MOD_FAULTS.iter() {
        let status = Status::Song(SongFault::Mod(*fault));
        assert!(rt; reads(rt.alloc(), status, line) == Ok(true), "{line}");
        assert!(rt; status.code() == 3, "{line}");
    }
}
