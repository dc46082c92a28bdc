//! The mixer: voices over any view become the frames of a tick.
//!
//! A voice adds its value on the line between the two frames around its position, times a gain on
//! each side; sums are clipped once. Frames are summed in blocks, on the mixer's own stack, and
//! nothing allocates. In a block each voice goes in three steps, so that none asks much of a frame:
//! the frames that it reaches are read, many at once, it walks on between them, and its values are
//! added to each side.
#![tactic(auto)]

mod block;
mod gain;
mod line;
mod mixer;
mod piece;
mod reach;
mod reached;
mod settle;
mod values;
mod voice;

pub use mixer::mix;
pub use reach::place;
