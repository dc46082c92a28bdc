//! Runs of the commands that need no threads, over any source and any sinks.
//!
//! `run_plain` is the whole of it: it reads the words, and then plays a song, copies one, makes
//! one or imports one. `Status` says how a run ended, and is printed as the program's line on standard error.
#![tactic(auto)]

mod copying;
mod generating;
mod hearing;
mod importing;
mod laws;
mod measure;
mod play;
mod run;
mod song;
mod stage;
mod status;
mod stepping;

pub use laws::the_songs_of_a_desk_stand_behind_its_passes;
pub use run::run_plain;
pub use song::MOST_BYTES;
pub use status::{SongFault, Status};
