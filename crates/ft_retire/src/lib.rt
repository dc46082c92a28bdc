//! The births and deaths of the segments of a pool: at which version each was filled, at which it
//! was dropped, and which of them may be filled anew.
//!
//! `Births` keeps both versions of each segment, and a mark on each. Whoever looks for room forgets
//! the marks, marks what is still wanted, whole versions and single segments, and is then given the
//! segments that have no mark, the least first.
#![tactic(auto)]

mod births;
mod laws;
mod life;
mod marks;

pub use births::Births;
pub use laws::{lives_law, marks_law};
