//! Edits of patterns on plain slices of cells, in place and without memory.
//!
//! A pattern lies row by row, in each row by channel. `change_pattern` does any edit of a pattern
//! in a buffer that begins with its cells, and has room for the largest pattern.
//! `change_in_place` does those that keep the number of rows, and needs no more room than the
//! pattern. Both are for whoever keeps a song, as a module or as words: their contracts speak of
//! every song that may be behind the cells.
#![tactic(auto)]

mod block;
mod pattern;
mod rows;

pub use pattern::{change_in_place, change_pattern, pattern_number};
