//! The tick of all channels, over any view of a song.
#![tactic(auto)]

mod gain;
mod hear;
mod next;
mod place;
mod position;
mod rows;
mod seats;
mod state;
mod tick;
mod time;

pub use state::tick_state;
