//! A whole tick over any view of a song: its state and its sound.
#![tactic(auto)]

mod laws;
mod play;

pub use laws::sounds_agree_law;
pub use play::play_tick;
