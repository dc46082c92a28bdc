//! The commands, as `clap` is told of them.

ghost use Rattle.std.specs.Prelude.{◌≡◌, IfOk, false};
ghost use Rattle.clap.specs.Words.{app_of, rule_of};
ghost use Rattle.ft_words.specs.Commands.{app_of_verb, bare_app, copy_app, file_rule, gen_app, import_app, number_rule, option_rule, step_app};

use crate::verb::Verb;
use clap::builder::ValueParser;
use clap::{Arg, ArgAction, Command, value_parser};
use std::alloc::{AllocError, Global};

/// A name of a file, which has to be given.
fn file_arg<'a>(alloc: Global, id: &'a str) -> Arg<'a>
    ensures rule { rule_of result ≡ file_rule id.now }
    ensures local { result.global ≡ false }
{
    Arg::new(alloc, id).action(ArgAction::Set).required(true)
}

/// A number, which has to be given.
fn number_arg<'a>(alloc: Global, id: &'a str, parser: ValueParser<'a>) -> Arg<'a>
    ensures rule { rule_of result ≡ number_rule id.now parser.entry }
    ensures local { result.global ≡ false }
{
    Arg::new(alloc, id)
        .action(ArgAction::Set)
        .required(true)
        .value_parser(parser)
}

/// `--id=N`, a number with a default.
fn option_arg<'a>(alloc: Global, id: &'a str, default: &'a str, parser: ValueParser<'a>) -> Arg<'a>
    ensures rule { rule_of result ≡ option_rule id.now default.now parser.entry }
    ensures local { result.global ≡ false }
{
    Arg::new(alloc, id)
        .long(id)
        .action(ArgAction::Set)
        .default_value(default)
        .value_parser(parser)
}

/// A command without arguments, whose words leave out the program's name.
fn bare_command<'a>(alloc: Global, name: &'a str) -> Command<'a>
    ensures { app_of result ≡ bare_app name.now }
{
    Command::new(alloc, name).no_binary_name(true)
}

/// `step SONG WAV LEDGER [--rate=N] [--seconds=N] [--segments=N]`.
fn step_command<'a>(alloc: Global) -> Result<Command<'a>, AllocError>
    ensures { IfOk result (λ c. app_of c ≡ step_app) }
{
    let rates = value_parser!(u32).range(8_000..=48_000);
    let lengths = value_parser!(u32).range(1..=1_200);
    let pools = value_parser!(u16).range(64..);
    bare_command(alloc, "step")
        .arg(file_arg(alloc, "song"))?
        .arg(file_arg(alloc, "wav"))?
        .arg(file_arg(alloc, "ledger"))?
        .arg(option_arg(alloc, "rate", "44100", rates))?
        .arg(option_arg(alloc, "seconds", "60", lengths))?
        .arg(option_arg(alloc, "segments", "16384", pools))
}

/// `copy SONG OUT`.
fn copy_command<'a>(alloc: Global) -> Result<Command<'a>, AllocError>
    ensures { IfOk result (λ c. app_of c ≡ copy_app) }
{
    bare_command(alloc, "copy")
        .arg(file_arg(alloc, "song"))?
        .arg(file_arg(alloc, "out"))
}

/// `gen NUMBER OUT`.
fn gen_command<'a>(alloc: Global) -> Result<Command<'a>, AllocError>
    ensures { IfOk result (λ c. app_of c ≡ gen_app) }
{
    bare_command(alloc, "gen")
        .arg(number_arg(alloc, "number", value_parser!(u32)))?
        .arg(file_arg(alloc, "out"))
}

/// `import MOD OUT`.
fn import_command<'a>(alloc: Global) -> Result<Command<'a>, AllocError>
    ensures { IfOk result (λ c. app_of c ≡ import_app) }
{
    bare_command(alloc, "import")
        .arg(file_arg(alloc, "mod"))?
        .arg(file_arg(alloc, "out"))
}

/// The command of a first word.
pub fn command_of<'a>(alloc: Global, verb: Verb) -> Result<Command<'a>, AllocError>
    ensures { IfOk result (λ c. app_of c ≡ app_of_verb verb) }
{
    match verb {
        Verb::Step => step_command(alloc),
        Verb::Copy => copy_command(alloc),
        Verb::Gen => gen_command(alloc),
        Verb::Import => import_command(alloc),
    }
}
