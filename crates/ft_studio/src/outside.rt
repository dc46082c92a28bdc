//! The files of a command line.

ghost use Rattle.std.specs.Prelude.{◌≡◌, ◌≢◌, Err, IfOk, string_bytes};
ghost use Rattle.ft_words.specs.Refused.{IsNoCommand, IsRefused};
ghost use Rattle.ft_run.specs.Commands.{texts, AskForGen};
ghost use Rattle.ft_run.specs.Statuses.{IsBeforePlay};
ghost use Rattle.ft_studio.specs.Outside.{first_name, closed_sink_of};
ghost use Rattle.ft_studio.specs.Running.{AreFilesOf, IsStatusOf, IsStatusOn};

use ft_outer::{FileSink, FileSource, OutSink, SureSource};
use ft_run::{Status, run_plain};
use ft_words::{NamesFault, Texts, names};
use std::alloc::{AllocError, Global};
use std::io;

/// The files of a command line.
#[derive(Drop)]
pub struct Outside {
    /// The song to be read.
    song: FileSource<HostRuntime>,
    /// The WAV file or the song that is written.
    wav: FileSink<HostRuntime>,
    /// The ledger. A command without one has standard output in its place.
    ledger: Option<FileSink<HostRuntime>>,
}

impl Outside {
    /// The files that the words name. None is opened yet; a list of names that is empty gives an
    /// empty name, and no ledger. `Usage` comes only where the words are refused, and no files where
    /// they are.
    pub fn of(rt: HostRuntime, words: &[String]) -> Result<Outside, NamesFault>
        ensures files { IfOk result (AreFilesOf words.now) }
        ensures refused { IsRefused (texts words.now) → IfOk result (λ _. ⊥) }
        ensures usage { result ≡ Err NamesFault.Usage → IsRefused (texts words.now) }
        ensures no_command { IsNoCommand (texts words.now) → result ≡ Err NamesFault.Usage }
    {
        let names = names(rt.alloc(), words)?;
        Ok(Outside {
            song: FileSource::new(rt, first_of(rt.alloc(), &names.song)?),
            wav: FileSink::new(rt, first_of(rt.alloc(), &names.wav)?),
            ledger: ledger_of(rt, &names.ledger)?,
        })
    }

    /// Runs the words on these files, which are those that they name. What is read is the song, and
    /// what is written the WAV file; but for the line of `gen`, the ledger isn't touched.
    pub fn run(&mut self, rt: HostRuntime, words: &[String]) -> Status
        requires named { AreFilesOf words.now self.old }
        ensures words { IsStatusOf words.now result }
        ensures on { IsStatusOn self.new result }
        ensures words_first { IsRefused (texts words.now) → self.new.song ≡ self.old.song }
        ensures unread { AskForGen (texts words.now) → self.new.song ≡ self.old.song }
        ensures unwritten { IsBeforePlay result → (AskForGen (texts words.now) → ⊥)
            → self.new.wav ≡ self.old.wav }
        ensures ledger { (AskForGen (texts words.now) → ⊥) → self.new.ledger ≡ self.old.ledger }
        ensures ledger_last { (result ≢ Status.Done) → (result ≢ Status.LedgerWrite)
            → self.new.ledger ≡ self.old.ledger }
    {
        let (song, wav) = (&mut self.song, &mut self.wav);
        match &mut self.ledger {
            Some(ledger) => run_plain(rt.alloc(), words, song, wav, ledger),
            None => {
                let mut out = OutSink::new(io::writer(&rt));
                run_plain(rt.alloc(), words, song, wav, &mut out)
            }
        }
    }
}

/// Runs words that name no files.
pub fn run_nothing(alloc: Global, words: &[String]) -> Status
    ensures { IsStatusOf words.now result }
{
    let mut song = SureSource::new(Vec::new(alloc), 1);
    let mut wav = OutSink::new(io::sink());
    let mut ledger = OutSink::new(io::sink());
    run_plain(alloc, words, &mut song, &mut wav, &mut ledger)
}

/// The first of some names, or an empty one.
fn first_of(alloc: Global, names: &Texts) -> Result<String, AllocError>
    ensures { IfOk result (λ name. string_bytes name ≡ first_name names.now) }
{
    match names.get(0) {
        Some(name) => name.clone(),
        None => Ok(String::new(alloc)),
    }
}

/// The file of the first of some names, where there is one.
fn ledger_of(rt: HostRuntime, names: &Texts) -> Result<Option<FileSink<HostRuntime>>, AllocError>
    ensures { IfOk result (λ ledger. ledger ≡ closed_sink_of names.now) }
{
    match names.get(0) {
        Some(name) => Ok(Some(FileSink::new(rt, name.clone()?))),
        None => Ok(None),
    }
}
