//! Reading what a command line asks for.

ghost use Rattle.std.specs.Prelude.{◌≡◌, ◌≢◌, [], Some, Err, IfOk, map, string_bytes};
ghost use Rattle.clap.specs.Words.{fault_of};
ghost use Rattle.ft_words.specs.Answer.{AsksGen, AsksOf, AsksStep, IsAskedBy};
ghost use Rattle.ft_words.specs.Commands.{app_of_verb, gen_app, step_app};
ghost use Rattle.ft_words.specs.Refused.{IsNoCommand, IsRefused};

use crate::answer::{Asked, Step};
use crate::fault::NamesFault;
use crate::parsing::parsed;
use crate::verb::{Verb, verb_of};
use std::alloc::Global;

/// The rate, the seconds and the segments of `step`.
fn step_asked(alloc: Global, words: &[String]) -> Result<Step, NamesFault>
    ensures asked { IfOk result (AsksStep (map string_bytes words.now)) }
    ensures usage { result ≡ Err NamesFault.Usage
        → fault_of step_app (map string_bytes words.now) ≢ [] }
{
    let matches = parsed(alloc, Verb::Step, words)?;
    let Some(rate) = matches.get_one::<u32>("rate") else {
        unreachable!();
    };
    let Some(seconds) = matches.get_one::<u32>("seconds") else {
        unreachable!();
    };
    let Some(segments) = matches.get_one::<u16>("segments") else {
        unreachable!();
    };
    Ok(Step {
        rate,
        seconds,
        segments,
    })
}

/// The number of `gen`.
fn gen_asked(alloc: Global, words: &[String]) -> Result<u32, NamesFault>
    ensures asked { IfOk result (AsksGen (map string_bytes words.now)) }
    ensures usage { result ≡ Err NamesFault.Usage
        → fault_of gen_app (map string_bytes words.now) ≢ [] }
{
    let matches = parsed(alloc, Verb::Gen, words)?;
    let Some(number) = matches.get_one::<u32>("number") else {
        unreachable!();
    };
    Ok(number)
}

/// What a command is asked for, by the words behind it.
fn asked_of(alloc: Global, verb: Verb, words: &[String]) -> Result<Asked, NamesFault>
    ensures asked { IfOk result (AsksOf (Some verb) (map string_bytes words.now)) }
    ensures usage { result ≡ Err NamesFault.Usage
        → fault_of (app_of_verb verb) (map string_bytes words.now) ≢ [] }
{
    match verb {
        Verb::Step => Ok(Asked::Step(step_asked(alloc, words)?)),
        Verb::Copy => match parsed(alloc, Verb::Copy, words) {
            Ok(_) => Ok(Asked::Copy),
            Err(fault) => Err(fault),
        },
        Verb::Gen => Ok(Asked::Gen {
            number: gen_asked(alloc, words)?,
        }),
        Verb::Import => match parsed(alloc, Verb::Import, words) {
            Ok(_) => Ok(Asked::Import),
            Err(fault) => Err(fault),
        },
    }
}

/// What the words ask for. `Usage` comes only where the words are refused, and nothing is asked
/// for where they are. Where the first word is no command, that is the answer, and no memory is
/// taken.
pub fn asked(alloc: Global, words: &[String]) -> Result<Asked, NamesFault>
    ensures asked { IfOk result (IsAskedBy (map string_bytes words.now)) }
    ensures refused { IsRefused (map string_bytes words.now) → IfOk result (λ _. ⊥) }
    ensures usage { result ≡ Err NamesFault.Usage → IsRefused (map string_bytes words.now) }
    ensures no_command { IsNoCommand (map string_bytes words.now) → result ≡ Err NamesFault.Usage }
{
    let Some((first, others)) = words.split_first() else {
        return Err(NamesFault::Usage);
    };
    let Some(verb) = verb_of(first.as_str()) else {
        return Err(NamesFault::Usage);
    };
    asked_of(alloc, verb, others)
}
