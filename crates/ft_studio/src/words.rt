//! The words of the command line.

ghost use Rattle.std.specs.Prelude.{◌≡◌, [], drop, IfOk, IfErr};
ghost use Rattle.std.specs.Vec.Iter.{into_iter_items};

use std::alloc::{AllocError, Global};
use std::env::Args;
use std::io;

/// The words behind the program's name, of those that the system gave. Where one isn't text there are
/// none.
pub fn words_of(alloc: Global, args: io::Result<Args>) -> Result<Vec<String>, AllocError>
    ensures words { IfOk args (λ it. IfOk result (λ words. words.items
        ≡ drop 1 (into_iter_items it))) }
    ensures no_text { IfErr args (λ _. IfOk result (λ words. words.items ≡ [])) }
{
    match args {
        Ok(args) => words_behind(alloc, args),
        Err(error) if error.kind() == io::ErrorKind::OutOfMemory => Err(AllocError),
        Err(_) => Ok(Vec::new(alloc)),
    }
}

/// All words but the first, which is the program's name.
fn words_behind(alloc: Global, args: Args) -> Result<Vec<String>, AllocError>
    ensures { IfOk result (λ words. words.items ≡ drop 1 (into_iter_items args)) }
{
    args.skip(1).collect(alloc)
}
