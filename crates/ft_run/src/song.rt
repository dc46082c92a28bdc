//! Reading a song from its source.

ghost use Rattle.std.specs.Prelude.{◌≡◌, ◌<◌, ◌^◌, ℕ, List, IfOk, IfErr, IfSome};
ghost use Rattle.ft_types.specs.declared.module.Module.{Module as Song};
ghost use Rattle.ft_types.specs.Valid.{IsValid};
ghost use Rattle.ft_format.specs.Spelling.{Spells};
ghost use Rattle.ft_run.specs.Statuses.{IsUnread, refusal_of, song_or_status};
ghost use Rattle.ft_run.specs.Songs.{ReadsSong, IsSongFile, IsReadAs, ending};

use crate::status::{SongFault, Status};
use ft_outer::{ReadFault, Source, read_all};
use ft_types::Module;
use ft_xmread::{XmFault, read_xm};
use std::alloc::Global;

/// The largest song file, in bytes.
pub const MOST_BYTES: usize = 67_108_864;

/// The song of a source that is read to its end, or the status of the run where there is none.
pub fn read_song<S: Source>(alloc: Global, source: &mut S) -> Result<Module, Status>
    requires { S.given source.old < 2 ^ 63 }
    ensures valid { IfOk result IsValid }
    ensures told { IfOk result (λ song. IfSome (S.left source.old) (λ file. Spells file song)) }
    ensures read { ReadsSong S.left S.given S.faults source.old source.new (ending result) }
    ensures only { (file : List ℕ) (song : Song) → IsSongFile (S.left source.old) file
        → Spells file song → IsReadAs result song }
    ensures kinds { IfErr result IsUnread }
{
    let bytes = match read_all(alloc, source, MOST_BYTES) {
        Ok(bytes) => bytes,
        Err(ReadFault::Failed) => return Err(Status::SongRead),
        Err(ReadFault::TooBig) => return Err(Status::Song(SongFault::TooBig)),
        Err(ReadFault::NoMemory) => return Err(Status::NoMemory),
    };
    song_or_status(read_xm(alloc, &bytes))
}

/// A song that was read, or the status of a run whose song has this fault. Each fault keeps its own
/// status: none is answered as running out of memory.
fn song_or_status(read: Result<Module, XmFault>) -> Result<Module, Status>
    ensures { result ≡ song_or_status read }
{
    match read {
        Ok(song) => Ok(song),
        Err(fault) => Err(refusal_of(fault)),
    }
}

/// The status of a run whose song has this fault.
fn refusal_of(fault: XmFault) -> Status
    ensures { result ≡ refusal_of fault }
{
    match fault {
        XmFault::NoMemory => Status::NoMemory,
        fault => Status::Song(SongFault::Xm(fault)),
    }
}
