//! The files that a command line names.

ghost use Rattle.std.specs.Prelude.{◌≡◌, ◌≢◌, [], ◌∷◌, Some, Err, IfErr, IfOk, codes, map, string_bytes};
ghost use Rattle.clap.specs.Words.{fault_of, first_value, found_of};
ghost use Rattle.ft_words.specs.Commands.{app_of_verb, copy_app, gen_app, import_app, step_app};
ghost use Rattle.ft_words.specs.Files.{AreNamedBy, NamesCopy, NamesGen, NamesImport, NamesOf, NamesStep};
ghost use Rattle.ft_words.specs.Refused.{IsNoCommand, IsRefused};

use crate::fault::NamesFault;
use crate::parsing::parsed;
use crate::verb::{Verb, verb_of};
use clap::ArgMatches;
use ft_types::Items;
use std::alloc::Global;

/// Names of files, as texts.
pub type Texts = Items<String>;

/// The files of a command. A list is empty where the command has no such file.
#[derive(Debug, Drop)]
pub struct FileNames {
    /// The song, or the module of `import`, to be read: one name, or none for `gen`.
    pub song: Texts,
    /// What is written, a WAV file or a song: one name.
    pub wav: Texts,
    /// The ledger of `step`: one name, or none.
    pub ledger: Texts,
    /// Scripts of edits. No command takes one yet.
    pub scripts: Texts,
}

/// A list of one text.
fn list_of(alloc: Global, text: &str) -> Result<Texts, NamesFault>
    ensures text { IfOk result (λ texts. map string_bytes texts ≡ text.now ∷ []) }
    ensures memory { result ≢ Err NamesFault.Usage }
{
    let mut texts = Texts::new(alloc);
    texts.push(String::from_str(alloc, text)?)?;
    Ok(texts)
}

/// The files of `step`.
fn step_names(alloc: Global, words: &[String]) -> Result<FileNames, NamesFault>
    ensures files { IfOk result (NamesStep (map string_bytes words.now)) }
    ensures usage { result ≡ Err NamesFault.Usage
        → fault_of step_app (map string_bytes words.now) ≢ [] }
{
    let matches = parsed(alloc, Verb::Step, words)?;
    let Some(song) = matches.get_str("song") else {
        unreachable!();
    };
    let Some(wav) = matches.get_str("wav") else {
        unreachable!();
    };
    let Some(ledger) = matches.get_str("ledger") else {
        unreachable!();
    };
    Ok(FileNames {
        song: list_of(alloc, song)?,
        wav: list_of(alloc, wav)?,
        ledger: list_of(alloc, ledger)?,
        scripts: Texts::new(alloc),
    })
}

/// The files of `copy`.
fn copy_names(alloc: Global, words: &[String]) -> Result<FileNames, NamesFault>
    ensures files { IfOk result (NamesCopy (map string_bytes words.now)) }
    ensures usage { result ≡ Err NamesFault.Usage
        → fault_of copy_app (map string_bytes words.now) ≢ [] }
{
    let matches = parsed(alloc, Verb::Copy, words)?;
    let Some(song) = matches.get_str("song") else {
        unreachable!();
    };
    let Some(out) = matches.get_str("out") else {
        unreachable!();
    };
    Ok(FileNames {
        song: list_of(alloc, song)?,
        wav: list_of(alloc, out)?,
        ledger: Texts::new(alloc),
        scripts: Texts::new(alloc),
    })
}

/// The files of `gen`.
fn gen_names(alloc: Global, words: &[String]) -> Result<FileNames, NamesFault>
    ensures files { IfOk result (NamesGen (map string_bytes words.now)) }
    ensures usage { result ≡ Err NamesFault.Usage
        → fault_of gen_app (map string_bytes words.now) ≢ [] }
{
    let matches = parsed(alloc, Verb::Gen, words)?;
    let Some(out) = matches.get_str("out") else {
        unreachable!();
    };
    Ok(FileNames {
        song: Texts::new(alloc),
        wav: list_of(alloc, out)?,
        ledger: Texts::new(alloc),
        scripts: Texts::new(alloc),
    })
}

/// The files of `import`.
fn import_names(alloc: Global, words: &[String]) -> Result<FileNames, NamesFault>
    ensures files { IfOk result (NamesImport (map string_bytes words.now)) }
    ensures usage { result ≡ Err NamesFault.Usage
        → fault_of import_app (map string_bytes words.now) ≢ [] }
{
    let matches = parsed(alloc, Verb::Import, words)?;
    let Some(module) = matches.get_str("mod") else {
        unreachable!();
    };
    let Some(out) = matches.get_str("out") else {
        unreachable!();
    };
    Ok(FileNames {
        song: list_of(alloc, module)?,
        wav: list_of(alloc, out)?,
        ledger: Texts::new(alloc),
        scripts: Texts::new(alloc),
    })
}

/// The files of a command, by the words behind it.
fn names_of(alloc: Global, verb: Verb, words: &[String]) -> Result<FileNames, NamesFault>
    ensures files { IfOk result (NamesOf (Some verb) (map string_bytes words.now)) }
    ensures usage { result ≡ Err NamesFault.Usage
        → fault_of (app_of_verb verb) (map string_bytes words.now) ≢ [] }
{
    match verb {
        Verb::Step => step_names(alloc, words),
        Verb::Copy => copy_names(alloc, words),
        Verb::Gen => gen_names(alloc, words),
        Verb::Import => import_names(alloc, words),
    }
}

/// The files that the words name. `Usage` comes only where the words are refused, and no files
/// where they are. Where the first word is no command, that is the answer, and no memory is taken.
pub fn names(alloc: Global, words: &[String]) -> Result<FileNames, NamesFault>
    ensures files { IfOk result (AreNamedBy (map string_bytes words.now)) }
    ensures refused { IsRefused (map string_bytes words.now) → IfOk result (λ _. ⊥) }
    ensures usage { result ≡ Err NamesFault.Usage → IsRefused (map string_bytes words.now) }
    ensures no_command { IsNoCommand (map string_bytes words.now) → result ≡ Err NamesFault.Usage }
{
    let Some((first, others)) = words.split_first() else {
        return Err(NamesFault::Usage);
    };
    let Some(verb) = verb_of(first.as_str()) else {
        return Err(NamesFault::Usage);
    };
    names_of(alloc, verb, others)
}
