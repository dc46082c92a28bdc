//! How a run ended.

ghost use Rattle.std.specs.Prelude.{◌≡◌};
ghost use Rattle.ft_run.specs.Codes.{code_of};

use ft_modread::ModFault;
use ft_xmread::XmFault;
use std::fmt;

/// Why a song is refused.
#[derive(Clone, Copy, Debug, PartialEq, Eq)]
pub enum SongFault {
    /// Its bytes have this fault, which is never that of running out of memory.
    Xm(XmFault),
    /// The bytes of a ProTracker module have this fault, which is never that of running out of
    /// memory.
    Mod(ModFault),
    /// It has more than 67,108,864 bytes.
    TooBig,
}

/// How a run ended.
#[derive(Clone, Copy, Debug, PartialEq, Eq)]
pub enum Status {
    /// The whole output was written.
    Done,
    /// The words are no command.
    Usage,
    /// The song's bytes are refused.
    Song(SongFault),
    /// The song could not be read.
    SongRead,
    /// The WAV file, or the song of `copy`, `gen` and `import`, could not be written.
    WavWrite,
    /// The ledger, or the line of `gen`, could not be written.
    LedgerWrite,
    /// The song wants more segments than the pool has.
    PoolSmall {
        /// The segments that the song wants.
        need: u32,
        /// The segments of the pool, 64 to 65,535.
        segments: u16,
    },
    /// Out of memory.
    NoMemory,
    /// A script ended before its end.
    HandEnded,
}

impl Status {
    /// The program's exit code: 0, then 2 to 9.
    pub fn code(&self) -> u8
        ensures { result ≡ code_of self.now }
    {
        match self {
            Status::Done => 0,
            Status::Usage => 2,
            Status::Song(_) => 3,
            Status::SongRead => 4,
            Status::WavWrite => 5,
            Status::LedgerWrite => 6,
            Status::PoolSmall { .. } => 7,
            Status::NoMemory => 8,
            Status::HandEnded => 9,
        }
    }
}

/// The line on standard error, without the program's name.
impl fmt::Display for Status {
    fn fmt<W: fmt::Write>(&self, f: &mut fmt::Formatter<W>) -> fmt::Result {
        match self {
            Status::Done => write!(f, "done"),
            Status::Usage => write!(f, "{USAGE}"),
            Status::Song(fault) => write!(f, "song refused: {fault}"),
            Status::SongRead => write!(f, "song could not be read"),
            Status::WavWrite => write!(f, "output could not be written"),
            Status::LedgerWrite => write!(f, "ledger could not be written"),
            Status::PoolSmall { need, segments } => {
                write!(f, "pool too small: {need} over {segments}")
            }
            Status::NoMemory => write!(f, "out of memory"),
            Status::HandEnded => write!(f, "a hand ended early"),
        }
    }
}

/// What the whole program takes in the end. So far it knows `step` without scripts, `copy`,
/// `gen` and `import`.
const USAGE: &str =
    "usage: live or step SONG WAV LEDGER [SCRIPT]... [--rate=N] [--seconds=N] [--segments=N]; copy SONG OUT; gen NUMBER OUT; import MOD OUT";

/// The number of the fault, and then the fault's own numbers.
impl fmt::Display for SongFault {
    fn fmt<W: fmt::Write>(&self, f: &mut fmt::Formatter<W>) -> fmt::Result {
        match self {
            SongFault::TooBig => write!(f, "too big"),
            SongFault::Xm(fault) => write_fault(f, fault),
            SongFault::Mod(fault) => write_mod_fault(f, fault),
        }
    }
}

/// `fault K` with the fault's numbers in the order of its fields.
fn write_fault<W: fmt::Write>(f: &mut fmt::Formatter<W>, fault: &XmFault) -> fmt::Result {
    match *fault {
        XmFault::NotXm { at } => write!(f, "fault 1 {at}"),
        XmFault::Version { found } => write!(f, "fault 2 {found}"),
        XmFault::Short { at, need } => write!(f, "fault 3 {at} {need}"),
        XmFault::Count { at, found } => write!(f, "fault 4 {at} {found}"),
        XmFault::Packing { pattern, found } => write!(f, "fault 5 {pattern} {found}"),
        XmFault::CellOverrun { pattern, at } => write!(f, "fault 6 {pattern} {at}"),
        XmFault::Stereo { instrument, sample } => write!(f, "fault 7 {instrument} {sample}"),
        XmFault::TooLong {
            instrument,
            sample,
            frames,
        } => write!(f, "fault 8 {instrument} {sample} {frames}"),
        XmFault::NoMemory => write!(f, "fault 9"),
    }
}

/// `mod fault K` with the fault's numbers in the order of its fields.
fn write_mod_fault<W: fmt::Write>(f: &mut fmt::Formatter<W>, fault: &ModFault) -> fmt::Result {
    match *fault {
        ModFault::NotMod { at } => write!(f, "mod fault 1 {at}"),
        ModFault::Short { at, need } => write!(f, "mod fault 2 {at} {need}"),
        ModFault::Count { at, found } => write!(f, "mod fault 3 {at} {found}"),
        ModFault::NoMemory => write!(f, "mod fault 4"),
    }
}
