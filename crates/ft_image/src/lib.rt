//! A song in words, and its readers.
#![tactic(auto)]

mod changing;
mod digits;
mod draft_words;
mod fill_view;
mod filling;
mod ids;
mod image;
mod instrument_placing;
mod instrument_reading;
mod laws;
mod listed_words;
mod pass_laws;
mod pass_words;
mod pattern_placing;
mod pattern_reading;
mod pinned_words;
mod sample_placing;
mod sample_reading;
mod slice;
mod song_placing;
mod song_reading;
mod values;
mod view;
mod writer_words;

pub use changing::{other_words_stay, rows_are_read, with_byte, with_id};
pub use digits::{byte, quarter};
pub use draft_words::DraftWords;
pub use fill_view::{Content, Fill, fill_with};
pub use filling::BlankWords;
pub use ids::id;
pub use image::{Image, place};
pub use instrument_placing::InstrumentRoot;
pub use instrument_reading::{envelope, instrument_root, sample_root, shape};
pub use laws::{
    a_shown_sample_is_of_its_version, shown_has_blocks, shown_stays, walk_finds_the_ids,
};
pub use listed_words::{ListedWords, segment_words};
pub use pass_laws::{
    a_held_version_may_be_shown, a_history_agreed_before, a_pass_reads_on,
    a_pinned_sample_may_be_shown, a_sound_version_is_among, a_writer_steps_on,
    a_written_version_may_be_shown,
};
pub use pass_words::PassWords;
pub use pattern_placing::CellsBody;
pub use pattern_reading::{cell, cell_from, pattern_root, rows};
pub use pinned_words::PinnedWords;
pub use sample_placing::FramesBody;
pub use sample_reading::{body_of_frame, frame, frame_in, frame_word, sample_head};
pub use slice::SliceWords;
pub use song_placing::SongRoot;
pub use song_reading::{head, order};
pub use values::{bytes_word, cell_word, frames_word, ids_word, points_word};
pub use view::WordView;
pub use writer_words::WriterWords;
