//! The desk: the one place from which a song of a register is edited. It owns the writer's pass
//! and the journal, and knows of each version which song it shows.
#![tactic(auto)]

mod desk;
mod laws;
mod pinned;
mod reserving;
mod survey;

pub use desk::Desk;
pub use laws::{different_segments_are_different_parts, marked_is_found, segments_are_parts};
