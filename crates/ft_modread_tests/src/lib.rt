//! Whole ProTracker modules through the reader: what their bytes give, and how others are refused.
//! What is expected was worked out by hand from the fields of the format. Each table is walked by one
//! loop. The module of one note serves other tests too.
#![tactic(auto)]

#[cfg(test)]
mod cells;
mod given;
#[cfg(test)]
mod notes;
#[cfg(test)]
mod orders;
#[cfg(test)]
mod refusals;
#[cfg(test)]
mod samples;

pub use given::{one_note_mod, one_note_mod_with};
