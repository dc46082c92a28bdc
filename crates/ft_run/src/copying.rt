//! `copy`: the canonical bytes of a song.

ghost use Rattle.std.specs.Prelude.{◌≡◌, ◌<◌, ◌^◌, ℕ, List};
ghost use Rattle.std.specs.Io.KnownBytes.{Appends};
ghost use Rattle.ft_outer.specs.Pieces.{TakesFront};
ghost use Rattle.ft_words.specs.declared.answer.Asked.TheVariants as ask;
ghost use Rattle.ft_run.specs.Pool.{CanBeDone, NeverRose};
ghost use Rattle.ft_run.specs.Run.{IsCopy};
ghost use Rattle.ft_run.specs.Songs.{ReadsSong};
ghost use Rattle.ft_run.specs.Statuses.{IsBeforePlay, IsCounted, IsDone, IsOfCopy};

use crate::song::read_song;
use crate::status::Status;
use ft_outer::{Sink, Source, put_all};
use ft_xmwrite::write_xm;
use std::alloc::Global;

/// Reads a song, and writes its canonical bytes.
pub fn copy_song<S: Source, W: Sink>(alloc: Global, song: &mut S, out: &mut W) -> Status
    requires { S.given song.old < 2 ^ 63 }
    ensures kinds { IsOfCopy result }
    ensures read { ReadsSong S.left S.given S.faults song.old song.new result }
    ensures done { result ≡ Status.Done → (bytes : List ℕ) × IsCopy (S.left song.old) bytes
        × Appends (W.held out.old) (W.held out.new) bytes }
    ensures wav_count { IsCounted Status.WavWrite result (W.faults out.old) (W.faults out.new) }
    ensures wav_front { result ≡ Status.WavWrite → (bytes : List ℕ) × IsCopy (S.left song.old) bytes
        × TakesFront (W.held out.old) (W.held out.new) bytes }
    ensures unwritten { IsBeforePlay result → out.new ≡ out.old }
    ensures complete { CanBeDone ask.Copy (S.left song.old)
        → NeverRose (S.faults song.old) (S.faults song.new)
        → NeverRose (W.faults out.old) (W.faults out.new) → IsDone result }
{
    let module = match read_song(alloc, song) {
        Ok(module) => module,
        Err(status) => return status,
    };
    let Ok(bytes) = write_xm(alloc, &module) else {
        return Status::NoMemory;
    };
    match put_all(out, &bytes) {
        Ok(()) => Status::Done,
        Err(_) => Status::WavWrite,
    }
}
