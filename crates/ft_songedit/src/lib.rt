//! Edits of a song in words: what each fills for the next version.
#![tactic(auto)]

mod cell_edit;
mod change;
mod instrument;
mod instrument_words;
mod pattern_cells;
mod pattern_edit;
mod root;
mod sample;

pub use cell_edit::write_cell;
pub use change::{Change, change_in};
pub use instrument::write_instrument_root;
pub use pattern_cells::{channels_of, read_cells};
pub use pattern_edit::write_pattern;
pub use root::write_song_root;
pub use sample::write_kept_sample_root;
