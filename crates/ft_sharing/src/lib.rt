//! A song after an edit, in words that it shares with the song before it: where the segments that
//! the edit touches are filled anew, and all others stay, the new song stands in the pool.
//!
//! Nothing here runs. `specs/Written` says which words the fresh segments have, and `specs/Laws`
//! what holds then. The functions are laws: their contracts say it.
#![tactic(auto)]

mod laws;

pub use laws::{
    an_edited_song_is_shown, fresh_frames_are_in_order, other_segments_stay, what_was_reached_fits,
};
