//! A song that is played from the words of a register.
#![tactic(auto)]

mod asking;
mod idle;
mod laws;
mod player;
mod ranges;
mod reading;
mod run;
mod seat;
mod seats;
mod songs;
mod sounding;
mod tick;
mod view;

pub use idle::Idle;
pub use laws::{songs_agree_with_earlier_notes, the_same_songs_after_hear_close_and_rejoin};
pub use player::Player;
pub use seat::{KeptWord, KeptWords, Seat};
pub use songs::{SongVersion, Songs};
pub use view::PlayerView;
