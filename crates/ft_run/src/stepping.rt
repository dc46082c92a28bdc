//! `step`: a song is played into a WAV file.

ghost use Rattle.std.specs.Prelude.{◌≡◌, ◌<◌, ◌^◌, ℕ, List, IfOk, IfErr};
ghost use Rattle.std.specs.Io.KnownBytes.{Appends};
ghost use Rattle.ft_types.specs.Valid.{IsValid};
ghost use Rattle.ft_outer.specs.Pieces.{TakesFront};
ghost use Rattle.ft_words.specs.declared.answer.Asked.TheVariants as ask;
ghost use Rattle.ft_run.specs.Commands.{IsPlayable};
ghost use Rattle.ft_run.specs.Pool.{CanBeDone, NeverRose, PlaysSong, TellsPool};
ghost use Rattle.ft_run.specs.Run.{IsOutput};
ghost use Rattle.ft_run.specs.Songs.{ReadsSong};
ghost use Rattle.ft_run.specs.Statuses.{IsBeforePlay, IsCounted, IsDone, IsOfStep};

use crate::play::play;
use crate::song::read_song;
use crate::stage::Stage;
use crate::status::Status;
use ft_outer::{Sink, Source};
use ft_shared::OpenFault;
use ft_types::Module;
use ft_words::Step;
use std::alloc::Global;

/// Reads a song, and plays it where the pool has room for it.
pub fn play_song<S: Source, W: Sink>(alloc: Global, step: Step, song: &mut S, wav: &mut W) -> Status
    requires counted { S.given song.old < 2 ^ 63 }
    requires asked { IsPlayable step }
    ensures kinds { IsOfStep result }
    ensures read { ReadsSong S.left S.given S.faults song.old song.new result }
    ensures done { result ≡ Status.Done → (bytes : List ℕ) × IsOutput step (S.left song.old) bytes
        × Appends (W.held wav.old) (W.held wav.new) bytes }
    ensures wav_count { IsCounted Status.WavWrite result (W.faults wav.old) (W.faults wav.new) }
    ensures wav_front { result ≡ Status.WavWrite → (bytes : List ℕ)
        × IsOutput step (S.left song.old) bytes
        × TakesFront (W.held wav.old) (W.held wav.new) bytes }
    ensures unwritten { IsBeforePlay result → wav.new ≡ wav.old }
    ensures pool { TellsPool (S.left song.old) step.segments result }
    ensures complete { CanBeDone (ask.Step step) (S.left song.old)
        → NeverRose (S.faults song.old) (S.faults song.new)
        → NeverRose (W.faults wav.old) (W.faults wav.new) → IsDone result }
{
    let read = read_song(alloc, song);
    play_read(alloc, step, read, wav)
}

/// Plays a song that was read, or ends with the status of the run that read none. What is known
/// before memory is asked for is answered, whatever memory there is.
fn play_read<W: Sink>(
    alloc: Global,
    step: Step,
    read: Result<Module, Status>,
    wav: &mut W,
) -> Status
    requires valid { IfOk read IsValid }
    requires asked { IsPlayable step }
    ensures unread { IfErr read (λ status. result ≡ status) }
    ensures untouched { IfErr read (λ _. wav.new ≡ wav.old) }
    ensures played { IfOk read (λ song. PlaysSong song step (W.held wav.old) (W.held wav.new)
        (W.faults wav.old) (W.faults wav.new) result) }
    ensures unwritten { IsBeforePlay result → wav.new ≡ wav.old }
{
    let module = match read {
        Ok(module) => module,
        Err(status) => return status,
    };
    let stage = match Stage::open(alloc, &module, step.segments) {
        Ok(stage) => stage,
        Err(OpenFault::PoolSmall { need, segments }) => {
            return Status::PoolSmall { need, segments };
        }
        Err(OpenFault::NoMemory) => return Status::NoMemory,
    };
    match play(stage, &module, step, wav) {
        Ok(()) => Status::Done,
        Err(_) => Status::WavWrite,
    }
}
