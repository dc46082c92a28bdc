//! The state of a song that plays, and the definition of its replay.
//!
//! The types are the program's; what a tick makes of them is defined in `specs/`:
//! pitch, the rules of a row, the tick, its sound, and the replay of a whole song.
#![tactic(auto)]

mod effect;
mod first;
mod laws;
mod state;

pub use effect::{Effect, VolumeEffect};
pub use laws::replay_law;
pub use state::{Channel, Control, Place, SongState};
