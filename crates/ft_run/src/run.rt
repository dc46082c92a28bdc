//! A run: the words, the song, and what is written.

ghost use Rattle.std.specs.Prelude.{◌≡◌, ◌≢◌, ◌⊎◌, ◌↔◌, ◌+◌, ◌<◌, ◌^◌, ℕ, List};
ghost use Rattle.std.specs.Io.KnownBytes.{Appends};
ghost use Rattle.ft_format.specs.Canon.{canon};
ghost use Rattle.ft_outer.specs.Pieces.{TakesFront};
ghost use Rattle.ft_words.specs.Refused.{IsRefused, IsNoCommand};
ghost use Rattle.ft_words.specs.declared.answer.Asked.{Asked as What};
ghost use Rattle.ft_words.specs.declared.answer.Step.{Step};
ghost use Rattle.ft_words.specs.Answer.{IsAskedBy};
ghost use Rattle.ft_xmwrite.specs.Generate.{generated};
ghost use Rattle.ft_run.specs.declared.song.TheConstants.{MOST_BYTES};
ghost use Rattle.ft_run.specs.Commands.{texts, AskForStep, AskForCopy, AskForGen, AskForImport};
ghost use Rattle.ft_run.specs.Pool.{CanBeDone, NeverRose, TellsPool};
ghost use Rattle.ft_run.specs.Run.{IsAskedFor, gen_line};
ghost use Rattle.ft_run.specs.Songs.{ReadsMod, ReadsSong};
ghost use Rattle.ft_run.specs.Statuses.{IsBeforePlay, IsCounted, IsDone, IsOfStep, IsOfCopy, IsOfGen, IsOfImport, RefusesWords};

use crate::copying::copy_song;
use crate::generating::generate_song;
use crate::importing::import_song;
use crate::status::{SongFault, Status};
use crate::stepping::play_song;
use ft_outer::{Sink, Source};
use ft_words::{Asked, NamesFault, asked, one_asked_law};
use std::alloc::Global;

/// Runs a command that needs no threads:
///
/// - `step SONG WAV LEDGER [--rate=N] [--seconds=N] [--segments=N]` reads a song and plays it into
///   `wav`, where it wants no more segments than the pool has. The ledger isn't written yet.
/// - `copy SONG OUT` reads a song and writes its canonical bytes to `wav`.
/// - `gen NUMBER OUT` writes the canonical bytes of a generated song to `wav`, and a line to
///   `ledger`.
/// - `import MOD OUT` reads a ProTracker module and writes the canonical bytes of its song to `wav`.
///
/// The work goes in this order: the words, the song's bytes, the song, the pool, and then what is
/// written; the first that fails is the answer. So each count of faults but that of the answer
/// stays as it was.
pub fn run_plain<S: Source, W: Sink, L: Sink>(
    alloc: Global,
    words: &[String],
    song: &mut S,
    wav: &mut W,
    ledger: &mut L,
) -> Status
    requires counted { S.given song.old < 2 ^ 63 }

    // Words are refused exactly where they are no command; where the first of them names none,
    // memory doesn't run out either.
    ensures usage { result ≡ Status.Usage → IsRefused (texts words.now) }
    ensures refused_words { IsRefused (texts words.now) → RefusesWords result }
    ensures no_command { IsNoCommand (texts words.now) → result ≡ Status.Usage }

    // Any other answer is that of a command, and each command has its statuses.
    ensures asked_first { (result ≢ Status.Usage) → (result ≢ Status.NoMemory)
        → (what : What) × IsAskedBy (texts words.now) what }
    ensures of_step { AskForStep (texts words.now) → IsOfStep result }
    ensures of_copy { AskForCopy (texts words.now) → IsOfCopy result }
    ensures of_gen { AskForGen (texts words.now) → IsOfGen result }
    ensures of_import { AskForImport (texts words.now) → IsOfImport result }

    // The song is read by `step`, `copy` and `import`, and by no other words. It is too big exactly where
    // its source gave too much.
    ensures stepped { AskForStep (texts words.now)
        → ReadsSong S.left S.given S.faults song.old song.new result }
    ensures copied { AskForCopy (texts words.now)
        → ReadsSong S.left S.given S.faults song.old song.new result }
    ensures imported { AskForImport (texts words.now)
        → ReadsMod S.left S.given S.faults song.old song.new result }
    ensures too_big { (result ≡ Status.Song SongFault.TooBig)
        ↔ (S.given song.old + MOST_BYTES < S.given song.new) }
    ensures gen_reads_nothing { AskForGen (texts words.now) → song.new ≡ song.old }
    ensures words_first { IsRefused (texts words.now) → song.new ≡ song.old }

    // The pool of `step` is too small exactly where the song wants more segments than the words ask
    // for. Where words and song are taken, the pool has room, and nothing outside fails, all is
    // written, unless memory runs out.
    ensures pool { (step : Step) → IsAskedBy (texts words.now) (Asked.Step step)
        → TellsPool (S.left song.old) step.segments result }
    ensures complete { (what : What) → IsAskedBy (texts words.now) what
        → CanBeDone what (S.left song.old)
        → NeverRose (S.faults song.old) (S.faults song.new)
        → NeverRose (W.faults wav.old) (W.faults wav.new)
        → NeverRose (L.faults ledger.old) (L.faults ledger.new) → IsDone result }

    // A fault of the outside is named by its status alone, which comes only where it was counted.
    ensures song_count { IsCounted Status.SongRead result (S.faults song.old) (S.faults song.new) }
    ensures wav_count { IsCounted Status.WavWrite result (W.faults wav.old) (W.faults wav.new) }
    ensures ledger_count { IsCounted Status.LedgerWrite result
        (L.faults ledger.old) (L.faults ledger.new) }

    // What the words ask for is written whole, or a front of it.
    ensures done { result ≡ Status.Done → (bytes : List ℕ)
        × IsAskedFor (texts words.now) (S.left song.old) bytes
        × Appends (W.held wav.old) (W.held wav.new) bytes }
    ensures line { result ≡ Status.Done → AskForGen (texts words.now)
        → (number : ℕ) × IsAskedBy (texts words.now) (Asked.Gen number)
        × Appends (W.held wav.old) (W.held wav.new) (canon (generated number))
        × Appends (L.held ledger.old) (L.held ledger.new) (gen_line number) }
    ensures wav_front { result ≡ Status.WavWrite → (bytes : List ℕ)
        × IsAskedFor (texts words.now) (S.left song.old) bytes
        × TakesFront (W.held wav.old) (W.held wav.new) bytes }
    ensures ledger_front { result ≡ Status.LedgerWrite
        → (number : ℕ) × IsAskedBy (texts words.now) (Asked.Gen number)
        × Appends (W.held wav.old) (W.held wav.new) (canon (generated number))
        × TakesFront (L.held ledger.old) (L.held ledger.new) (gen_line number) }

    // Nothing else is written. Where memory runs out for the line of `gen`, its song may be
    // written.
    ensures unwritten { IsBeforePlay result → (AskForGen (texts words.now) → ⊥)
        → wav.new ≡ wav.old }
    ensures no_memory { result ≡ Status.NoMemory → AskForGen (texts words.now)
        → (wav.new ≡ wav.old) ⊎ ((number : ℕ) × IsAskedBy (texts words.now) (Asked.Gen number)
        × Appends (W.held wav.old) (W.held wav.new) (canon (generated number))) }
    ensures no_ledger { (AskForGen (texts words.now) → ⊥) → ledger.new ≡ ledger.old }
    ensures ledger_last { (result ≢ Status.Done) → (result ≢ Status.LedgerWrite)
        → ledger.new ≡ ledger.old }
{
    one_asked_law();
    match asked(alloc, words) {
        Ok(Asked::Step(step)) => play_song(alloc, step, song, wav),
        Ok(Asked::Copy) => copy_song(alloc, song, wav),
        Ok(Asked::Gen { number }) => generate_song(alloc, number, wav, ledger),
        Ok(Asked::Import) => import_song(alloc, song, wav),
        Err(NamesFault::Usage) => Status::Usage,
        Err(NamesFault::NoMemory) => Status::NoMemory,
    }
}
