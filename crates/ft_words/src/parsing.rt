//! The words behind a command, as `clap` takes them.

ghost use Rattle.std.specs.Prelude.{IfOk, MatchResult, map, string_bytes};
ghost use Rattle.ft_words.specs.Commands.{app_of_verb};
ghost use Rattle.ft_words.specs.Refused.{AreMatches, IsParseOf, IsWhy};

use crate::commands::command_of;
use crate::fault::NamesFault;
use crate::verb::Verb;
use clap::ArgMatches;
use clap::error::ErrorKind;
use std::alloc::Global;

/// What `clap` makes of the words behind a command.
pub fn parsed<'a>(
    alloc: Global,
    verb: Verb,
    words: &'a [String],
) -> Result<ArgMatches<'a>, NamesFault>
    ensures exact { MatchResult result (AreMatches (app_of_verb verb) (map string_bytes words.now))
        (IsWhy (app_of_verb verb) (map string_bytes words.now)) }
    ensures parse { IfOk result (IsParseOf (app_of_verb verb)) }
{
    let Ok(command) = command_of(alloc, verb) else {
        return Err(NamesFault::NoMemory);
    };
    match command.try_get_matches_from(words) {
        Ok(matches) => Ok(matches),
        Err(error) => {
            if error.kind() == ErrorKind::OutOfMemory {
                Err(NamesFault::NoMemory)
            } else {
                Err(NamesFault::Usage)
            }
        }
    }
}
