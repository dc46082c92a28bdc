//! The rules of a row, on one channel, over any view of a song.
//!
//! `row_start` is the first tick of a row and `row_tick` a later one. They change the channel,
//! what the view keeps for it, and the control that all channels share. They take no memory.
#![tactic(auto)]

mod anew;
mod auto;
mod effect;
mod envelope;
mod fine;
mod key_off;
mod memory;
mod note;
mod retriggers;
mod row;
mod rules;
mod sequence;
mod settings;
mod slides;
mod swings;
mod volume;

pub use auto::auto_vibrato;
pub use envelope::{envelope_at, envelope_next, is_on};
pub use row::{row_start, row_tick};
