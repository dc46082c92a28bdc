//! What an edit changes of a song that lies in words: the parts that it touches, and which
//! segments are the song's afterwards.
#![tactic(auto)]

mod laws;
mod reach;
mod reaching;

pub use laws::{an_edit_changes_what_it_reaches, segments_balance};
pub use reach::Reach;
pub use reaching::{needed, reach_of};
