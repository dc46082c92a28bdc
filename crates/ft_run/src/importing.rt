//! `import`: the canonical bytes of the song of a ProTracker module.

ghost use Rattle.std.specs.Prelude.{◌≡◌, ◌<◌, ◌^◌, ℕ, List, IfOk, IfErr, IfSome};
ghost use Rattle.std.specs.Io.KnownBytes.{Appends};
ghost use Rattle.ft_types.specs.declared.module.Module.{Module as Song};
ghost use Rattle.ft_types.specs.Valid.{IsValid};
ghost use Rattle.ft_modread.specs.Songs.{SpellsMod};
ghost use Rattle.ft_outer.specs.Pieces.{TakesFront};
ghost use Rattle.ft_words.specs.declared.answer.Asked.TheVariants as ask;
ghost use Rattle.ft_run.specs.Pool.{CanBeDone, NeverRose};
ghost use Rattle.ft_run.specs.Run.{IsImport};
ghost use Rattle.ft_run.specs.Songs.{ReadsMod, IsSongFile, IsReadAs, ending};
ghost use Rattle.ft_run.specs.Statuses.{IsBeforePlay, IsCounted, IsDone, IsOfImport, IsUnreadMod, mod_refusal_of, mod_or_status};

use crate::song::MOST_BYTES;
use crate::status::{SongFault, Status};
use ft_modread::{ModFault, read_mod};
use ft_outer::{ReadFault, Sink, Source, put_all, read_all};
use ft_types::Module;
use ft_xmwrite::write_xm;
use std::alloc::Global;

/// The song of a ProTracker module that is read to its end, or the status of the run where there is
/// none.
fn read_module<S: Source>(alloc: Global, source: &mut S) -> Result<Module, Status>
    requires { S.given source.old < 2 ^ 63 }
    ensures valid { IfOk result IsValid }
    ensures told { IfOk result (λ song. IfSome (S.left source.old) (λ file. SpellsMod file song)) }
    ensures read { ReadsMod S.left S.given S.faults source.old source.new (ending result) }
    ensures only { (file : List ℕ) (song : Song) → IsSongFile (S.left source.old) file
        → SpellsMod file song → IsReadAs result song }
    ensures kinds { IfErr result IsUnreadMod }
{
    let bytes = match read_all(alloc, source, MOST_BYTES) {
        Ok(bytes) => bytes,
        Err(ReadFault::Failed) => return Err(Status::SongRead),
        Err(ReadFault::TooBig) => return Err(Status::Song(SongFault::TooBig)),
        Err(ReadFault::NoMemory) => return Err(Status::NoMemory),
    };
    mod_or_status(read_mod(alloc, &bytes))
}

/// A song that was read, or the status of a run whose module has this fault. Each fault keeps its own
/// status: none is answered as running out of memory.
fn mod_or_status(read: Result<Module, ModFault>) -> Result<Module, Status>
    ensures { result ≡ mod_or_status read }
{
    match read {
        Ok(song) => Ok(song),
        Err(fault) => Err(mod_refusal_of(fault)),
    }
}

/// The status of a run whose module has this fault.
fn mod_refusal_of(fault: ModFault) -> Status
    ensures { result ≡ mod_refusal_of fault }
{
    match fault {
        ModFault::NoMemory => Status::NoMemory,
        fault => Status::Song(SongFault::Mod(fault)),
    }
}

/// Reads a ProTracker module, and writes the canonical bytes of its song.
pub fn import_song<S: Source, W: Sink>(alloc: Global, song: &mut S, out: &mut W) -> Status
    requires { S.given song.old < 2 ^ 63 }
    ensures kinds { IsOfImport result }
    ensures read { ReadsMod S.left S.given S.faults song.old song.new result }
    ensures done { result ≡ Status.Done → (bytes : List ℕ) × IsImport (S.left song.old) bytes
        × Appends (W.held out.old) (W.held out.new) bytes }
    ensures wav_count { IsCounted Status.WavWrite result (W.faults out.old) (W.faults out.new) }
    ensures wav_front { result ≡ Status.WavWrite → (bytes : List ℕ) × IsImport (S.left song.old) bytes
        × TakesFront (W.held out.old) (W.held out.new) bytes }
    ensures unwritten { IsBeforePlay result → out.new ≡ out.old }
    ensures complete { CanBeDone ask.Import (S.left song.old)
        → NeverRose (S.faults song.old) (S.faults song.new)
        → NeverRose (W.faults out.old) (W.faults out.new) → IsDone result }
{
    let module = match read_module(alloc, song) {
        Ok(module) => module,
        Err(status) => return status,
    };
    let Ok(bytes) = write_xm(alloc, &module) else {
        return Status::NoMemory;
    };
    match put_all(out, &bytes) {
        Ok(()) => Status::Done,
        Err(_) => Status::WavWrite,
    }
}
