//! Reads modules from the bytes of Extended Module files.
//!
//! The readers of the parts go from left to right with one cursor, `Reader`. Each meets one
//! function on lists in `specs/`, which says what the part is, every check in the order of the
//! fields, and the place of each fault.
#![tactic(auto)]

mod cell;
mod deltas;
mod envelopes;
mod fault;
mod file;
mod header;
mod identification;
mod instrument;
mod laws;
mod pattern;
mod reader;
mod sample;

pub use fault::XmFault;
pub use file::read_xm;
pub use laws::{no_file_has_the_fault_of_memory, one_answer_law};
