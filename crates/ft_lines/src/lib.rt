//! Edits and batches as text, in words.
//!
//! Which text an edit and a batch have is in `specs/`: `Words` has the words of each edit, and
//! `Texts` puts words together. `print_edit` and `print_batch` write exactly that text. What a line
//! says, or where its first wrong word is, is `line_of` of `specs/Lines`: `read_edit` and
//! `read_batch` answer exactly that, unless memory runs out.
#![tactic(auto)]

mod arguments;
mod bytes;
mod cursor;
mod fault;
mod laws;
mod numbers;
mod print;
mod read;
mod timed;
mod words;

pub use fault::LineFault;
pub use laws::{
    different_edits_have_different_texts, edits_are_read_in_spaces, printed_batches_are_read,
    printed_edits_are_read, printed_numbers_are_read, read_edits_are_in_range, words_are_plain,
};
pub use numbers::{number, signed};
pub use print::{print_batch, print_edit};
pub use read::{read_batch, read_edit};
pub use timed::{Timed, TimedBatch};
