//! Edits applied to a module in place: what the definitions of `ft_edits` say, done.
#![tactic(auto)]

mod edit;
mod frames;
mod instrument;
mod pattern;
mod sample;
mod song;

pub use edit::{ApplyFault, apply_edit};
