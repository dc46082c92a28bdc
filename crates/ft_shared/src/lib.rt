//! The version register: one writer publishes versions, and up to eight readers
//! take the current one, read it, pin samples of it and leave it. No call but
//! `Shared::open` takes memory, and none waits for another thread.
//!
//! docs/REGISTER.md says how it works. The rule that every atomic step keeps is `RegisterRule` in
//! `specs/Register.antt`; `laws` says what follows from it.
#![tactic(auto)]

mod free;
mod law;
mod laws;
mod notes;
mod open;
mod passes;
mod pins;
mod plays;
mod pool;
mod reader;
mod reads;
mod settling;
mod shared;
mod table;
mod writer;

pub use free::{a_scan_counts_what_it_found, a_settled_scan_finds_what_is_held};
pub use law::{
    Account, Hold, Notes, Pin, PinAnswer, PlacedVersion, Sizes, Slot, TakenVersion, ToldVersion,
    WordRead, WordStep,
};
pub use laws::{
    a_held_segment_is_as_placed, a_longer_history_agrees,
    a_take_or_a_pin_adds_found_segments_alone, a_version_is_found_by_its_number,
    a_whole_scan_finds_each_held_segment, each_version_is_sound, the_history_agrees_with_each_pass,
};
pub use notes::Note;
pub use passes::ReaderPasses;
pub use reader::{Held, ReaderPass};
pub use reads::{a_history_agrees_with_fewer_reads, a_read_word_is_that_of_its_version};
pub use settling::Settled;
pub use shared::{OpenFault, Shared};
pub use writer::WriterPass;
