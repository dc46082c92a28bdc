//! The numbers of pitch and of waves: periods of notes, frequencies of periods, and the
//! waves of vibrato and tremolo.
//!
//! All are total in their ranges and take no memory.
#![tactic(auto)]

mod frequencies;
mod periods;
mod waves;

pub use frequencies::{amiga_higher, frequency16, step_of};
pub use periods::{amiga_period, linear_period, period, played_note};
pub use waves::wave;
