//! Words are run on the files that they name.

ghost use Rattle.std.specs.Prelude.{◌≡◌, ◌⊎◌, [], drop, IfOk, IfErr};
ghost use Rattle.std.specs.Process.{exit_status};
ghost use Rattle.std.specs.Vec.Iter.{into_iter_items};
ghost use Rattle.ft_run.specs.Codes.{code_of};
ghost use Rattle.ft_studio.specs.Running.{WereRun, RanOut};

use crate::outside::{Outside, run_nothing};
use crate::words::words_of;
use ft_run::Status;
use ft_words::NamesFault;
use std::alloc::AllocError;
use std::env::Args;
use std::io;
use std::process::ExitCode;

/// What became of words: the status of the run, and the files that they were run on, as the run left
/// them. There are none where the words are refused or memory ran out.
#[derive(Drop)]
pub struct Ran {
    /// The status of the run.
    pub status: Status,
    /// The files of the run.
    pub files: Option<Outside>,
}

impl Ran {
    /// The exit code of the process: that of the run's status.
    pub fn exit_code(&self) -> ExitCode
        ensures { exit_status result ≡ code_of self.now.status }
    {
        ExitCode::from(self.status.code())
    }
}

/// Runs the words on the files that they name.
fn run_words(rt: HostRuntime, words: &[String]) -> Ran
    ensures { WereRun words.now result }
{
    match Outside::of(rt, words) {
        Ok(mut outside) => {
            let status = outside.run(rt, words);
            Ran {
                status,
                files: Some(outside),
            }
        }
        Err(NamesFault::Usage) => Ran {
            status: run_nothing(rt.alloc(), words),
            files: None,
        },
        Err(NamesFault::NoMemory) => Ran {
            status: Status::NoMemory,
            files: None,
        },
    }
}

/// Runs the words that the system gave the program, but for the first, which is its name. Where one of
/// them isn't text they are no command, as no words are.
pub fn run_args(rt: HostRuntime, args: io::Result<Args>) -> Ran
    ensures words { IfOk args (λ it. WereRun (drop 1 (into_iter_items it)) result ⊎ RanOut result) }
    ensures no_text { IfErr args (λ _. WereRun [] result ⊎ RanOut result) }
{
    match words_of(rt.alloc(), args) {
        Ok(words) => run_words(rt, &words),
        Err(AllocError) => Ran {
            status: Status::NoMemory,
            files: None,
        },
    }
}
