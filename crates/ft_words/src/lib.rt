//! What the words of a command line ask for, read by `clap`.
//!
//! The words leave out the program's name. The first is the command, and the others go to one
//! simple `clap` command for it. `specs/Commands.antt` says which arguments each has, and
//! `specs/Refused.antt` which words are no command.
#![tactic(auto)]

mod answer;
mod asking;
mod commands;
mod fault;
mod files;
mod laws;
mod parsing;
mod verb;

pub use answer::{Asked, Step};
pub use asking::asked;
pub use fault::NamesFault;
pub use files::{FileNames, Texts, names};
pub use laws::one_asked_law;
pub use verb::Verb;
