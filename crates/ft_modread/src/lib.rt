//! Reads modules from the bytes of four-channel ProTracker modules.
//!
//! The fields of such a file stand at fixed places up to the patterns. `specs/` has the table of
//! fields in file order, what is wrong with each, and what becomes of them. `read_mod` first looks
//! for a fault, which takes no memory, and then makes the module.
#![tactic(auto)]

mod cell;
mod fault;
mod fields;
mod file;
mod laws;
mod layout;
mod note;
mod order;
mod part;
mod pattern;
mod sample;

pub use fault::ModFault;
pub use file::read_mod;
pub use laws::{notes_are_nearest, one_mod_answer};
pub use layout::{MOD_MARK, MOST_LENGTH, MOST_ORDER, PERIODS};
